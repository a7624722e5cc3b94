// The calls of a lent book in bytes that write entries of a log, after the opening questions: a run that notes each of its reductions, and
// the withdrawal of the last one noted. The log then holds the book as the call leaves it.
#![tactic(auto)]

ghost use Rattle.std.specs.Prelude.{◌≡◌, suc, is_ok, IfOk, Ok, T};
ghost use Rattle.refusals.specs.Refusal.{number_in};
ghost use Rattle.store.specs.Asked.{figures_in};
ghost use Rattle.book_parties.specs.Ids.{BookIn};
ghost use Rattle.book_questions.specs.Opened.{Opened, OpenedParties};
ghost use Rattle.log_format.specs.Fits.{log_fits};
ghost use Rattle.log_format.specs.Log.{count_of_entries};
ghost use Rattle.call_answers.specs.Run.{answer_of};
ghost use Rattle.call_run.specs.Call.{run_call};
ghost use Rattle.requests.specs.Logged.{GivesLogged};
ghost use Rattle.requests.specs.Request.{as_bytes, logged_after, withdrawal_after};
ghost use Rattle.units.specs.Limits.{as_limits};
ghost use Rattle.call_answers.specs.Withdrawal.{withdrawal_of};

use call_answers::Run;
use cut_worth::Tally;
use refusals::Refusal;
use risk_user::Day;
use units::Limits;

// ---- a run

// Runs the book that the bytes hold, in the bytes, after the opening questions, whose refusal or figures are given with the places of
// the trades' parties and the sums of the users, and notes each reduction in the log. It stops where one more is due and the log is full.
// It is refused only where the opening questions were: that a log is full is said beside the totals, before the first reduction too.
pub fn run(
    book: &mut [u8],
    opened: Result<Limits, Refusal>,
    sellers: &[u8; 256],
    buyers: &[u8; 256],
    sums: &mut [u32; 768],
    log: &mut [u8],
) -> Result<Run, Refusal>
    requires opened { IfOk opened (λ limits. Opened (as_limits limits) book.old sellers.now buyers.now sums.old) }
    requires t { IfOk opened (λ limits. T (log_fits log.old book.old)) }
    ensures gives { GivesLogged (logged_after as_bytes (number_in opened) (figures_in opened) log.old book.old run_call) (answer_of result) book.new log.new }
    ensures carried_out { is_ok result ≡ is_ok opened }
{
    let limits = opened?;
    let day = Day {
        limits,
        prices: book_header::read_prices(book),
    };
    let count = fields::get_u32(log, 4) as usize;
    let mut bearing_sellers = [0u8; 256];
    let mut bearing_buyers = [0u8; 256];
    call_parties::bear(
        book,
        sellers,
        buyers,
        &mut bearing_sellers,
        &mut bearing_buyers,
        sums,
    );
    let noted = run_noted::run_book(
        book,
        sellers,
        buyers,
        &bearing_sellers,
        &bearing_buyers,
        sums,
        day,
        log,
        count,
    );
    let many = noted.count as u32;
    log_entries::seal(log, book, many);
    Ok(Run {
        totals: noted.totals,
        log_is_full: noted.due,
    })
}

// ---- a withdrawal

// Withdraws the reduction of the entry at a place of the log, which is its last: gives its cuts back and drops it.
fn withdraw_last(
    book: &mut [u8],
    sellers: &[u8; 256],
    buyers: &[u8; 256],
    log: &mut [u8],
    place: usize,
) -> Tally
    requires { BookIn book.old sellers.now buyers.now × T (log_fits log.old book.old) × (count_of_entries log.old ≡ suc place) }
    ensures { GivesLogged (withdrawal_after as_bytes 0 log.old book.old) (withdrawal_of (Ok result)) book.new log.new }
{
    let n = book_format::user_count(book) as usize;
    let m = book_format::trade_count(book) as usize;
    let at = book_format::trades_offset(book, n);
    let prices = book_header::read_prices(book);
    let from = log_questions::entry_offset(place);
    let tally = log_withdrawal::tally(book, at, m, &log[from..from + 1024], prices);
    log_withdrawal::give_back(book, at, m, sellers, buyers, &log[from..from + 1024]);
    log_entries::drop_entry(log, place);
    log_entries::seal(log, book, place as u32);
    tally
}

// Withdraws the last reduction that the log has noted, after the opening questions, whose refusal or figures are given with the places of
// the trades' parties.
pub fn withdrawal(
    book: &mut [u8],
    opened: Result<Limits, Refusal>,
    sellers: &[u8; 256],
    buyers: &[u8; 256],
    log: &mut [u8],
) -> Result<Tally, Refusal>
    requires opened_parties { IfOk opened (λ limits. OpenedParties book.old sellers.now buyers.now) }
    requires t { IfOk opened (λ limits. T (log_fits log.old book.old)) }
    ensures { GivesLogged (withdrawal_after as_bytes (number_in opened) log.old book.old) (withdrawal_of result) book.new log.new }
{
    opened?;
    let count = fields::get_u32(log, 4) as usize;
    if count == 0 {
        return Err(Refusal::EmptyLog);
    }
    Ok(withdraw_last(book, sellers, buyers, log, count - 1))
}
