// A whole cancellation on a lent book in bytes: its questions, the worths of the user's eligible trades, of both tiers, the search among
// their sets (`cut_sets`), and the marks of the set that it found, by trade place. It changes no book. Everywhere `book` has m trades,
// which begin at `at`, and `sellers` and `buyers` have the places of those who bear the risk of their sellers and of their buyers.
#![tactic(auto)]

ghost use Rattle.std.specs.Prelude.{cond, not, ◌&&◌, [], ◌∷◌, ◌≡◌, ◌*◌, ◌/◌, ◌%◌, ◌≤◌, ◌<◌, eqb, ltb};
ghost use Rattle.std.specs.Prelude.{get_or, replicate, IfOk, Ok};
ghost use Rattle.refusals.specs.Refusal.{number_in};
ghost use Rattle.store.specs.Asked.{figures_in};
ghost use Rattle.book_format.specs.Book.{book_of, count_of_trades, trades_at, trades_of, count_of_users, users_of};
ghost use Rattle.book_format.specs.Places.{TradeIn};
ghost use Rattle.units.specs.Limits.{as_limits};
ghost use Rattle.book_questions.specs.Opened.{Opened};
ghost use Rattle.requests.specs.Cancellation.{cancellation_after, tries_in_range};
ghost use Rattle.rules.specs.Areas.{tariff};
ghost use Rattle.rules.specs.Book.{bilateral_for_day, no_trade, nobody};
ghost use Rattle.rules.specs.Questions.{first_of, refusal};
ghost use Rattle.run_reduction.specs.Books.{Runnable};
ghost use Rattle.units.specs.Prices.{as_prices, InRange};
ghost use Rattle.call_answers.specs.Cancellation.{cancellation_of};
ghost use Rattle.call_cancellation.specs.Call.{on_sales, on_user};
ghost use Rattle.call_cancellation.specs.Sales.{Selling, Worths, sets_of, unmarked};

use call_answers::Cancellation;
use call_entry::Entry;
use refusals::Refusal;
use risk_user::Day;
use units::{Area, Cents, Limits, Prices};

// ---- the eligible trades

// Is the trade i, whose parties' risk is borne by users at two places, an eligible trade of the user at a place? A sale inside its group is
// not.
fn eligible_at(book: &[u8], at: usize, i: usize, seller: u8, buyer: u8, place: usize) -> bool
    requires { TradeIn book.now at i }
    ensures { result ≡ ((eqb seller place && not (eqb buyer place)) && (bilateral_for_day (get_or (trades_of book.now) i no_trade) && ltb 0 (get_or (trades_of book.now) i no_trade).standing)) }
{
    if indices::index(seller) != place {
        return false;
    }
    if indices::index(buyer) == place {
        return false;
    }
    let t = book_format::trade_at(book, at, i);
    let stands = 0 < t.standing.0;
    book_records::is_bilateral_for_day(t) & stands
}

// What the whole trade i is worth at tariff.
fn worth_at(book: &[u8], at: usize, i: usize, prices: Prices) -> u64
    requires trade_in { TradeIn book.now at i }
    requires in_range { InRange (as_prices prices) × ((get_or (trades_of book.now) i no_trade).standing ≤ 100000) }
    ensures value { result ≡ (get_or (trades_of book.now) i no_trade).standing * tariff (as_prices prices) (get_or (trades_of book.now) i no_trade).terms.area }
    ensures upper_bound { result ≤ 10000000000 }
{
    let t = book_format::trade_at(book, at, i);
    let worth = Area(t.area).tariff(prices).worth(t.standing.energy());
    worth.0
}

// Fills in the worths of the eligible trades of the user at a place, in book order; gives the number of them. They are in an array of fixed
// size with their number beside it, since nothing here takes memory from a heap.
fn fill_worths(
    book: &[u8],
    at: usize,
    m: usize,
    bearing_sellers: &[u8; 256],
    bearing_buyers: &[u8; 256],
    place: usize,
    prices: Prices,
    worths: &mut [u64; 256],
) -> usize
    requires selling { Selling at m book.now bearing_sellers.now bearing_buyers.now place × (worths.old ≡ replicate 256 0) }
    requires in_range { InRange (as_prices prices) × (as_prices prices ≡ (book_of book.now).header.prices) }
    ensures { Worths (book_of book.now) (get_or (users_of book.now) place nobody) result worths.new }
{
    let mut k = 0;
    for i in 0..m {
        worths[k] = worth_at(book, at, i, prices);
        k = cut_lists::place_after(
            k,
            eligible_at(book, at, i, bearing_sellers[i], bearing_buyers[i], place),
        );
    }
    k
}

// ---- the marks

// The mark of a trade: it is cancelled where it is eligible and not left out, by the lowest bit of what is left out.
fn is_marked(eligible: bool, left: usize) -> bool
    ensures { result ≡ (eligible && eqb (left % 2) 0) }
{
    eligible & (left % 2 == 0)
}

// What is left out of the trades before it.
fn left_before(eligible: bool, left: usize) -> usize
    ensures { result ≡ cond eligible (left / 2) left }
{
    if eligible { left / 2 } else { left }
}

// The marks, by trade place, of all eligible trades of the user at a place but those left out, whose lowest bit is the last of them.
fn marks_of(
    book: &[u8],
    at: usize,
    m: usize,
    bearing_sellers: &[u8; 256],
    bearing_buyers: &[u8; 256],
    place: usize,
    left: usize,
) -> [bool; 256]
    requires { Selling at m book.now bearing_sellers.now bearing_buyers.now place × (left < sets_of (book_of book.now) (get_or (users_of book.now) place nobody)) }
    ensures { result ≡ unmarked (book_of book.now) (get_or (users_of book.now) place nobody) left }
{
    let mut marks = [false; 256];
    let mut rest = left;
    for i in (0..m).rev() {
        let eligible = eligible_at(book, at, i, bearing_sellers[i], bearing_buyers[i], place);
        marks[i] = is_marked(eligible, rest);
        rest = left_before(eligible, rest);
    }
    marks
}

// ---- the call

// Asks the questions 14 and 24 of the user at a place and cancels whole trades for an amount; `worths` has room for those of its eligible
// trades.
fn cancel_among(
    book: &[u8],
    at: usize,
    m: usize,
    bearing_sellers: &[u8; 256],
    bearing_buyers: &[u8; 256],
    place: usize,
    asked: Cents,
    prices: Prices,
    tries: u32,
    worths: &mut [u64; 256],
) -> Result<Cancellation, Refusal>
    requires selling { Selling at m book.now bearing_sellers.now bearing_buyers.now place × (worths.old ≡ replicate 256 0) }
    requires in_range { InRange (as_prices prices) × (as_prices prices ≡ (book_of book.now).header.prices) }
    requires tries_nonzero { (0 < tries) × (tries < 65536) }
    ensures { cancellation_of result ≡ on_sales (book_of book.now) (get_or (users_of book.now) place nobody) asked.0 tries }
{
    let count = fill_worths(
        book,
        at,
        m,
        bearing_sellers,
        bearing_buyers,
        place,
        prices,
        worths,
    );
    if count == 0 {
        return Err(Refusal::NothingToCut);
    }
    let together = cut_sets::total(worths, count);
    if together < asked.0 {
        return Err(Refusal::TargetOutOfReach);
    }
    let found = cut_sets::search(worths, count, together, asked.0, tries as usize);
    let marks = marks_of(
        book,
        at,
        m,
        bearing_sellers,
        bearing_buyers,
        place,
        found.left,
    );
    Ok(Cancellation {
        marks,
        excess: Cents(found.excess),
        tries: found.tries,
        complete: found.complete,
    })
}

// Asks the questions 14 and 24 of the user at a place and cancels whole trades for an amount.
fn cancel_sales(
    book: &[u8],
    bearing_sellers: &[u8; 256],
    bearing_buyers: &[u8; 256],
    place: usize,
    asked: Cents,
    prices: Prices,
    tries: u32,
) -> Result<Cancellation, Refusal>
    requires selling { Selling (trades_at book.now) (count_of_trades book.now) book.now bearing_sellers.now bearing_buyers.now place }
    requires in_range { InRange (as_prices prices) × (as_prices prices ≡ (book_of book.now).header.prices) }
    requires tries_nonzero { (0 < tries) × (tries < 65536) }
    ensures { cancellation_of result ≡ on_sales (book_of book.now) (get_or (users_of book.now) place nobody) asked.0 tries }
{
    let n = book_format::user_count(book) as usize;
    let m = book_format::trade_count(book) as usize;
    let at = book_format::trades_offset(book, n);
    let mut worths = [0u64; 256];
    cancel_among(
        book,
        at,
        m,
        bearing_sellers,
        bearing_buyers,
        place,
        asked,
        prices,
        tries,
        &mut worths,
    )
}

// Asks the questions 9, 11, 13, 14 and 24 of the user at a place and cancels whole trades for its target.
fn cancel_user(
    book: &[u8],
    bearing_sellers: &[u8; 256],
    bearing_buyers: &[u8; 256],
    sums: &[u32; 768],
    place: usize,
    day: Day,
    tries: u32,
) -> Result<Cancellation, Refusal>
    requires runnable { Runnable (as_limits day.limits) (as_prices day.prices) book.now bearing_sellers.now bearing_buyers.now sums.now × (place < count_of_users book.now) }
    requires tries_nonzero { (0 < tries) × (tries < 65536) }
    ensures { cancellation_of result ≡ on_user (as_limits day.limits) (book_of book.now) (get_or (users_of book.now) place nobody) tries }
{
    let mut positions = [0u32; 192];
    let target = call_questions::shortfall_at(
        book,
        bearing_sellers,
        bearing_buyers,
        sums,
        &mut positions,
        place,
        day,
    )?;
    cancel_sales(
        book,
        bearing_sellers,
        bearing_buyers,
        place,
        target,
        day.prices,
        tries,
    )
}

// Question 25, after the opening questions: what one of them refused stays refused.
fn ask_tries(opened: Result<Limits, Refusal>, tries: u32) -> Result<Limits, Refusal>
    ensures asked { number_in result ≡ first_of (number_in opened) (refusal (tries_in_range tries ∷ [])) }
    ensures in_range { IfOk result (λ limits. (opened ≡ Ok limits) × (0 < tries) × (tries < 65536)) }
{
    let limits = opened?;
    if tries < 1 || 65535 < tries {
        return Err(Refusal::TriesOutOfRange);
    }
    Ok(limits)
}

// The whole cancellation for the user of an id with a number of tries, after the opening questions, whose refusal or figures are given
// with the places of the trades' parties and the sums of the users, which become the sums as the risk is borne.
pub fn cancellation(
    book: &[u8],
    opened: Result<Limits, Refusal>,
    sellers: &[u8; 256],
    buyers: &[u8; 256],
    sums: &mut [u32; 768],
    id: u32,
    tries: u32,
) -> Result<Cancellation, Refusal>
    requires { IfOk opened (λ limits. Opened (as_limits limits) book.now sellers.now buyers.now sums.old) }
    ensures { cancellation_of result ≡ cancellation_after (number_in opened) (figures_in opened) book.now id tries }
{
    let Entry { limits, place } = call_entry::seek(book, ask_tries(opened, tries), id)?;
    let day = Day {
        limits,
        prices: book_header::read_prices(book),
    };
    let mut bearing_sellers = [0u8; 256];
    let mut bearing_buyers = [0u8; 256];
    call_parties::bear(
        book,
        sellers,
        buyers,
        &mut bearing_sellers,
        &mut bearing_buyers,
        sums,
    );
    cancel_user(
        book,
        &bearing_sellers,
        &bearing_buyers,
        sums,
        place,
        day,
        tries,
    )
}
