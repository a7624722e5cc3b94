// A reduction on a lent book in bytes: its questions, and the cuts of the user's own sales for what its afternoon level exceeds its
// assigned guarantee by. The sales are cut on arrays, as in a run, and what they lose is taken off in the bytes. A log that is given has
// the cuts noted; where it has no room for them the last question, 20, is answered by no. A log is lent in either case and `with_log` says
// whether it is given: no Option, since `ReducedWith` promises of a log that is lent and not given that it stays as it was.
#![tactic(auto)]

ghost use Rattle.std.specs.Prelude.{true, ◌≡◌, ◌<◌, T, get_or, IfOk};
ghost use Rattle.refusals.specs.Refusal.{number_in};
ghost use Rattle.store.specs.Asked.{figures_in};
ghost use Rattle.book_parties.specs.Ids.{BookIn};
ghost use Rattle.laws_sales.specs.Borne.{borne_book};
ghost use Rattle.call_answers.specs.Reduction.{answer_of};
ghost use Rattle.book_format.specs.Book.{book_of, count_of_users, users_of};
ghost use Rattle.book_questions.specs.Opened.{Opened};
ghost use Rattle.risk_bearers.specs.Bearers.{BorneIn};
ghost use Rattle.log_format.specs.Fits.{log_fits};
ghost use Rattle.rules.specs.Book.{nobody};
ghost use Rattle.log_format.specs.Noted.{entry_of};
ghost use Rattle.rules.specs.Reduction.{cuts};
ghost use Rattle.run_reduction.specs.Books.{Listed, Runnable};
ghost use Rattle.units.specs.Prices.{as_prices};
ghost use Rattle.units.specs.Limits.{as_limits};
ghost use Rattle.call_reduction.specs.Call.{Gives, on_sales, on_user, room_asked};
ghost use Rattle.call_reduction.specs.Books.{UserOf, all_sales};
ghost use Rattle.call_reduction.specs.Log.{ReducedWith, noted_by};

use call_answers::Reduction;
use call_entry::Entry;
use refusals::Refusal;
use risk_user::Day;
use units::{Cents, Limits, Prices};

// ---- the cuts

// Asks question 14 of the user at a place and 20 of a log that is given, and reduces the user for an amount, by the lists of all own sales.
fn reduce_listed(
    book: &mut [u8],
    sellers: &[u8; 256],
    buyers: &[u8; 256],
    starts: &[usize; 65],
    origins: &[u8; 256],
    standing: &mut [u64; 256],
    areas: &[u8; 256],
    sale_buyers: &[u8; 256],
    positions: &mut [u32; 192],
    place: usize,
    asked: Cents,
    prices: Prices,
    with_log: bool,
    log: &mut [u8],
) -> Result<Reduction, Refusal>
    requires user_of { UserOf (as_prices prices) book.old place sellers.now buyers.now positions.old }
    requires listed { Listed (borne_book (book_of book.old)) starts.now origins.now standing.old areas.now sale_buyers.now (all_sales (borne_book (book_of book.old))) }
    requires t { with_log ≡ true → T (log_fits log.old book.old) }
    ensures gives { Gives (on_sales (room_asked with_log log.old) book.old (get_or (users_of book.old) place nobody) asked.0) (answer_of result) book.new }
    ensures log_after { log.new ≡ noted_by with_log (answer_of result).number (cuts (book_of book.old) (get_or (users_of book.old) place nobody) asked.0) book.old book.new log.old }
{
    let from = starts[place];
    let to = starts[place + 1];
    if !run_targets::any_left(standing, from, to) {
        return Err(Refusal::NothingToCut);
    }
    if !log_lent::has_room(with_log, log) {
        return Err(Refusal::FullLog);
    }
    let mut cuts = [0u64; 256];
    let mut rests = [0u64; 256];
    let tally = run_reduction::reduce(
        standing,
        areas,
        sale_buyers,
        positions,
        &mut cuts,
        &mut rests,
        place,
        asked,
        prices,
        from,
        to,
    );
    let n = book_format::user_count(book) as usize;
    cut_apply::apply(book, n, sellers, buyers, origins, &cuts, from, to);
    log_lent::note(book, with_log, log, origins, &cuts, from, to);
    Ok(Reduction::of_cuts(asked, tally))
}

// Asks question 14 of the user at a place and 20 of a log that is given, and reduces the user for an amount.
fn reduce_sales(
    book: &mut [u8],
    sellers: &[u8; 256],
    buyers: &[u8; 256],
    bearing_sellers: &[u8; 256],
    bearing_buyers: &[u8; 256],
    positions: &mut [u32; 192],
    place: usize,
    asked: Cents,
    prices: Prices,
    with_log: bool,
    log: &mut [u8],
) -> Result<Reduction, Refusal>
    requires user_of { UserOf (as_prices prices) book.old place sellers.now buyers.now positions.old × BorneIn book.old bearing_sellers.now bearing_buyers.now }
    requires t { with_log ≡ true → T (log_fits log.old book.old) }
    ensures gives { Gives (on_sales (room_asked with_log log.old) book.old (get_or (users_of book.old) place nobody) asked.0) (answer_of result) book.new }
    ensures log_after { log.new ≡ noted_by with_log (answer_of result).number (cuts (book_of book.old) (get_or (users_of book.old) place nobody) asked.0) book.old book.new log.old }
{
    let n = book_format::user_count(book) as usize;
    let m = book_format::trade_count(book) as usize;
    let mut starts = [0usize; 65];
    let mut origins = [0u8; 256];
    let mut standing = [0u64; 256];
    let mut areas = [0u8; 256];
    let mut sale_buyers = [0u8; 256];
    cut_lists::fill_lists(
        book,
        n,
        m,
        bearing_sellers,
        bearing_buyers,
        &mut starts,
        &mut origins,
        &mut standing,
        &mut areas,
        &mut sale_buyers,
    );
    reduce_listed(
        book,
        sellers,
        buyers,
        &starts,
        &origins,
        &mut standing,
        &areas,
        &sale_buyers,
        positions,
        place,
        asked,
        prices,
        with_log,
        log,
    )
}

// ---- the questions

// Asks the questions 9, 11, 13 and 14 of the user at a place and 20 of a log that is given, and reduces the user for its target.
fn reduce_user(
    book: &mut [u8],
    sellers: &[u8; 256],
    buyers: &[u8; 256],
    bearing_sellers: &[u8; 256],
    bearing_buyers: &[u8; 256],
    sums: &[u32; 768],
    place: usize,
    day: Day,
    with_log: bool,
    log: &mut [u8],
) -> Result<Reduction, Refusal>
    requires book_in { BookIn book.old sellers.now buyers.now }
    requires runnable { Runnable (as_limits day.limits) (as_prices day.prices) book.old bearing_sellers.now bearing_buyers.now sums.now × (place < count_of_users book.old) }
    requires t { with_log ≡ true → T (log_fits log.old book.old) }
    ensures gives { Gives (on_user (room_asked with_log log.old) (as_limits day.limits) book.old (get_or (users_of book.old) place nobody)) (answer_of result) book.new }
    ensures log_after { log.new ≡ noted_by with_log (answer_of result).number (entry_of (as_limits day.limits) (book_of book.old) (get_or (users_of book.old) place nobody)) book.old book.new log.old }
{
    let mut positions = [0u32; 192];
    let target = call_questions::shortfall_at(
        book,
        bearing_sellers,
        bearing_buyers,
        sums,
        &mut positions,
        place,
        day,
    )?;
    reduce_sales(
        book,
        sellers,
        buyers,
        bearing_sellers,
        bearing_buyers,
        &mut positions,
        place,
        target,
        day.prices,
        with_log,
        log,
    )
}

// The reduction of the user of an id, after the opening questions, whose refusal or figures are given with the places of the trades'
// parties and the sums of the users: the user's eligible trades are cut for its target.
pub fn reduction(
    book: &mut [u8],
    opened: Result<Limits, Refusal>,
    sellers: &[u8; 256],
    buyers: &[u8; 256],
    sums: &mut [u32; 768],
    id: u32,
    with_log: bool,
    log: &mut [u8],
) -> Result<Reduction, Refusal>
    requires opened { IfOk opened (λ limits. Opened (as_limits limits) book.old sellers.now buyers.now sums.old) }
    requires t { IfOk opened (λ limits. with_log ≡ true → T (log_fits log.old book.old)) }
    ensures { ReducedWith with_log (number_in opened) (figures_in opened) log.old book.old id (answer_of result) book.new log.new }
{
    let Entry { limits, place } = call_entry::seek(book, opened, id)?;
    let day = Day {
        limits,
        prices: book_header::read_prices(book),
    };
    let mut bearing_sellers = [0u8; 256];
    let mut bearing_buyers = [0u8; 256];
    call_parties::bear(
        book,
        sellers,
        buyers,
        &mut bearing_sellers,
        &mut bearing_buyers,
        sums,
    );
    reduce_user(
        book,
        sellers,
        buyers,
        &bearing_sellers,
        &bearing_buyers,
        sums,
        place,
        day,
        with_log,
        log,
    )
}
