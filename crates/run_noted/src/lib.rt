// A run with a log: its reductions, one after another, each noted in the log; it stops where one more is due and the log is full. It is the
// run of `run_turns` and `run_book` with a note between two reductions, so that a run without a log does not ask for one at each.
#![tactic(auto)]

ghost use Rattle.std.specs.Prelude.{◌≡◌, ◌≤◌, length};
ghost use Rattle.book_format.specs.Book.{book_of, count_of_users};
ghost use Rattle.book_parties.specs.Ids.{BookIn};
ghost use Rattle.laws_sales.specs.Borne.{borne_book};
ghost use Rattle.run_state.specs.Going.{Going};
ghost use Rattle.run_reduction.specs.Reductions.{RunOf};
ghost use Rattle.run_reduction.specs.Books.{Listed, Runnable};
ghost use Rattle.units.specs.Prices.{as_prices};
ghost use Rattle.units.specs.Limits.{as_limits};
ghost use Rattle.run_noted.specs.Noted.{NotedBy, NotedIn, OriginsIn};

use cut_worth::Totals;
use risk_user::Day;

// What a run with a log gives: its totals, how many entries the log has then, and whether one more reduction is due.
#[derive(Clone, Copy)]
pub struct Noted {
    pub totals: Totals,
    pub count: usize,
    pub due: bool,
}

// Runs a book of n users and notes each reduction in a log of `count` entries, until nobody is due or the log is full. What stands of the
// own sales is then the rules' book.
pub fn run_on(
    book: &[u8],
    n: usize,
    sums: &[u32; 768],
    starts: &[usize; 65],
    origins: &[u8; 256],
    standing: &mut [u64; 256],
    areas: &[u8; 256],
    sale_buyers: &[u8; 256],
    positions: &mut [u32; 192],
    eligible: &mut [bool; 64],
    targets: &mut [u64; 64],
    day: Day,
    log: &mut [u8],
    count: usize,
) -> Noted
    requires run_of { RunOf (as_limits day.limits) (as_prices day.prices) book.now sums.now starts.now areas.now sale_buyers.now × (n ≡ count_of_users book.now) }
    requires going { Going (as_limits day.limits) (book_of book.now) (book_of book.now) standing.old positions.old targets.old eligible.old }
    requires origins_in { OriginsIn (borne_book (book_of book.now)) starts.now origins.now × (count ≤ 256) × (length log.old ≡ 271668) }
    ensures { NotedBy (as_limits day.limits) (book_of book.now) count log.old log.new standing.new result.totals result.count result.due }
{
    let mut totals = Totals::none();
    let mut noted = count;
    let mut cuts = [0u64; 256];
    let mut rests = [0u64; 256];
    let mut next = run_turns::next_from(targets, 0, n);
    while let Some(place) = next {
        if noted == 256 {
            return Noted {
                totals,
                count: noted,
                due: true,
            };
        }
        let turned = run_turns::turn(
            book,
            sums,
            starts,
            standing,
            areas,
            sale_buyers,
            positions,
            eligible,
            targets,
            &mut cuts,
            &mut rests,
            place,
            day,
        );
        let from = starts[place];
        let to = starts[place + 1];
        log_entries::note(log, noted, origins, &cuts, from, to);
        run_turns::clear(&mut cuts, from, to);
        totals = totals.with(turned.tally);
        noted += 1;
        next = run_turns::next_from(targets, turned.least, n);
    }
    Noted {
        totals,
        count: noted,
        due: false,
    }
}

// Runs a book of which the own sales are listed, and notes its reductions: positions, who is party to a trade standing below notified and
// who owes what are filled in, the run goes on in a copy of what stands, and what was lost is taken off.
fn run_listed(
    book: &mut [u8],
    sellers: &[u8; 256],
    buyers: &[u8; 256],
    bearing_sellers: &[u8; 256],
    bearing_buyers: &[u8; 256],
    sums: &[u32; 768],
    starts: &[usize; 65],
    origins: &[u8; 256],
    standing: &[u64; 256],
    areas: &[u8; 256],
    sale_buyers: &[u8; 256],
    sales: usize,
    day: Day,
    log: &mut [u8],
    count: usize,
) -> Noted
    requires book_in { BookIn book.old sellers.now buyers.now }
    requires runnable { Runnable (as_limits day.limits) (as_prices day.prices) book.old bearing_sellers.now bearing_buyers.now sums.now }
    requires listed { Listed (borne_book (book_of book.old)) starts.now origins.now standing.now areas.now sale_buyers.now sales }
    requires count_bound { (count ≤ 256) × (length log.old ≡ 271668) }
    ensures { NotedIn (as_limits day.limits) (book_of book.old) count log.old log.new book.new result.totals result.count result.due }
{
    let n = book_format::user_count(book) as usize;
    let m = book_format::trade_count(book) as usize;
    let mut positions = [0u32; 192];
    run_positions::fill_positions(book, n, &mut positions);
    let mut below_notified = [false; 64];
    cut_parties::fill_below_notified(
        book,
        n,
        m,
        bearing_sellers,
        bearing_buyers,
        &mut below_notified,
    );
    let mut eligible = [false; 64];
    let mut targets = [0u64; 64];
    run_targets::fill_targets(
        book,
        n,
        sums,
        &positions,
        starts,
        standing,
        &below_notified,
        &mut eligible,
        &mut targets,
        day,
    );
    let mut left = [0u64; 256];
    run_book::copy_sales(standing, &mut left, sales);
    let noted = run_on(
        book,
        n,
        sums,
        starts,
        origins,
        &mut left,
        areas,
        sale_buyers,
        &mut positions,
        &mut eligible,
        &mut targets,
        day,
        log,
        count,
    );
    run_book::lost_of(standing, &mut left, sales);
    cut_apply::apply(book, n, sellers, buyers, origins, &left, 0, sales);
    noted
}

// Runs an accepted book, of whose trades the sellers and the buyers have these places and those who bear their risk these
// (`bearing_sellers`, `bearing_buyers`), and whose users have these sums as their risk is borne; notes its reductions in a log of
// `count` entries.
pub fn run_book(
    book: &mut [u8],
    sellers: &[u8; 256],
    buyers: &[u8; 256],
    bearing_sellers: &[u8; 256],
    bearing_buyers: &[u8; 256],
    sums: &[u32; 768],
    day: Day,
    log: &mut [u8],
    count: usize,
) -> Noted
    requires book_in { BookIn book.old sellers.now buyers.now }
    requires runnable { Runnable (as_limits day.limits) (as_prices day.prices) book.old bearing_sellers.now bearing_buyers.now sums.now }
    requires count_bound { (count ≤ 256) × (length log.old ≡ 271668) }
    ensures { NotedIn (as_limits day.limits) (book_of book.old) count log.old log.new book.new result.totals result.count result.due }
{
    let n = book_format::user_count(book) as usize;
    let m = book_format::trade_count(book) as usize;
    let mut starts = [0usize; 65];
    let mut origins = [0u8; 256];
    let mut standing = [0u64; 256];
    let mut areas = [0u8; 256];
    let mut sale_buyers = [0u8; 256];
    let sales = cut_lists::fill_lists(
        book,
        n,
        m,
        bearing_sellers,
        bearing_buyers,
        &mut starts,
        &mut origins,
        &mut standing,
        &mut areas,
        &mut sale_buyers,
    );
    run_listed(
        book,
        sellers,
        buyers,
        bearing_sellers,
        bearing_buyers,
        sums,
        &starts,
        &origins,
        &standing,
        &areas,
        &sale_buyers,
        sales,
        day,
        log,
        count,
    )
}
