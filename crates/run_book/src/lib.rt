// The run of a book in its bytes, by arrays: they are filled in from the opening book, the run goes on in them, and what its sales have
// lost is taken off in the bytes at the end.
#![tactic(auto)]

ghost use Rattle.std.specs.Prelude.{◌≡◌, ◌≤◌, length, take};
ghost use Rattle.book_format.specs.Book.{book_of};
ghost use Rattle.book_parties.specs.Ids.{BookIn};
ghost use Rattle.laws_sales.specs.Borne.{borne_book};
ghost use Rattle.units.specs.Prices.{as_prices};
ghost use Rattle.units.specs.Limits.{as_limits};
ghost use Rattle.run_book.specs.Books.{LeftOf, LostOf, RanIn};
ghost use Rattle.run_reduction.specs.Books.{Listed, Runnable};
ghost use Rattle.run_state.specs.Running.{whole_run};

use cut_worth::Totals;
use risk_user::Day;

// ---- what was lost

// Copies what stands of the first `count` sales.
pub fn copy_sales(standing: &[u64; 256], left: &mut [u64; 256], count: usize)
    requires { (count ≤ 256) × (length standing.now ≡ 256) × (length left.old ≡ 256) }
    ensures { (take count left.new ≡ take count standing.now) × (length left.new ≡ 256) }
{
    left[..count].copy_from_slice(&standing[..count]);
}

// Puts what the first `count` sales have lost in the place of what is left of them.
pub fn lost_of(standing: &[u64; 256], left: &mut [u64; 256], count: usize)
    requires { LeftOf standing.now left.old count }
    ensures { LostOf standing.now left.old left.new count }
{
    for i in 0..count {
        left[i] = standing[i] - left[i];
    }
}

// ---- the run

// Runs a book of which the own sales are listed: fills in positions, who is party to a trade standing below notified and who owes what,
// runs on in a copy of what stands, and takes off what was lost.
fn run_listed(
    book: &mut [u8],
    sellers: &[u8; 256],
    buyers: &[u8; 256],
    bearing_sellers: &[u8; 256],
    bearing_buyers: &[u8; 256],
    sums: &[u32; 768],
    starts: &[usize; 65],
    origins: &[u8; 256],
    standing: &[u64; 256],
    areas: &[u8; 256],
    sale_buyers: &[u8; 256],
    count: usize,
    day: Day,
) -> Totals
    requires book_in { BookIn book.old sellers.now buyers.now }
    requires runnable { Runnable (as_limits day.limits) (as_prices day.prices) book.old bearing_sellers.now bearing_buyers.now sums.now }
    requires listed { Listed (borne_book (book_of book.old)) starts.now origins.now standing.now areas.now sale_buyers.now count }
    ensures { RanIn (whole_run (as_limits day.limits) (book_of book.old)) book.new result }
{
    let n = book_format::user_count(book) as usize;
    let m = book_format::trade_count(book) as usize;
    let mut positions = [0u32; 192];
    run_positions::fill_positions(book, n, &mut positions);
    let mut below_notified = [false; 64];
    cut_parties::fill_below_notified(
        book,
        n,
        m,
        bearing_sellers,
        bearing_buyers,
        &mut below_notified,
    );
    let mut eligible = [false; 64];
    let mut targets = [0u64; 64];
    run_targets::fill_targets(
        book,
        n,
        sums,
        &positions,
        starts,
        standing,
        &below_notified,
        &mut eligible,
        &mut targets,
        day,
    );
    let mut left = [0u64; 256];
    copy_sales(standing, &mut left, count);
    let totals = run_turns::run_on(
        book,
        n,
        sums,
        starts,
        &mut left,
        areas,
        sale_buyers,
        &mut positions,
        &mut eligible,
        &mut targets,
        day,
    );
    lost_of(standing, &mut left, count);
    cut_apply::apply(book, n, sellers, buyers, origins, &left, 0, count);
    totals
}

// Runs an accepted book, of whose trades the sellers and the buyers have these places and those who bear their risk these
// (`bearing_sellers`, `bearing_buyers`), and whose users have these sums as their risk is borne: while some user that is short of cover
// has an own sale to cut, the one of the lowest id is reduced.
pub fn run_book(
    book: &mut [u8],
    sellers: &[u8; 256],
    buyers: &[u8; 256],
    bearing_sellers: &[u8; 256],
    bearing_buyers: &[u8; 256],
    sums: &[u32; 768],
    day: Day,
) -> Totals
    requires book_in { BookIn book.old sellers.now buyers.now }
    requires runnable { Runnable (as_limits day.limits) (as_prices day.prices) book.old bearing_sellers.now bearing_buyers.now sums.now }
    ensures { RanIn (whole_run (as_limits day.limits) (book_of book.old)) book.new result }
{
    let n = book_format::user_count(book) as usize;
    let m = book_format::trade_count(book) as usize;
    let mut starts = [0usize; 65];
    let mut origins = [0u8; 256];
    let mut standing = [0u64; 256];
    let mut areas = [0u8; 256];
    let mut sale_buyers = [0u8; 256];
    let count = cut_lists::fill_lists(
        book,
        n,
        m,
        bearing_sellers,
        bearing_buyers,
        &mut starts,
        &mut origins,
        &mut standing,
        &mut areas,
        &mut sale_buyers,
    );
    run_listed(
        book,
        sellers,
        buyers,
        bearing_sellers,
        bearing_buyers,
        sums,
        &starts,
        &origins,
        &standing,
        &areas,
        &sale_buyers,
        count,
        day,
    )
}
