// The public calls that may change a lent book, by an acting party, each with a store of parameter sets or none and a log of the book's
// reductions or none: all of them are the operator's. The start of a log is asked of no party.
ghost use Rattle.std.specs.Prelude.{◌≡◌, is_ok};
ghost use Rattle.std.proofs.Math.Option.{some};
ghost use Rattle.rules.specs.Calls.{only, morning_call_of, afternoon_call_of};
ghost use Rattle.refusals.specs.Refusal.{number_in};
ghost use Rattle.store.specs.Asked.{lent};
ghost use Rattle.store.specs.Store.{given};
ghost use Rattle.requests.specs.Request.{act_of, setting_of};
ghost use Rattle.rights.specs.Logged.{LoggedBy, PostedBy};
ghost use Rattle.call_rights.specs.Acting.{as_party};
ghost use Rattle.log_format.specs.Fits.{start_number, started};
ghost use Rattle.daybook.specs.Acts.{called, is_opened, withdrawing};
ghost use Rattle.call_answers.specs.Withdrawal.{withdrawal_of};
ghost use Rattle.call_posting.specs.Posting.{posting_of};
ghost use Rattle.call_guarantee.specs.Times.{call_of};
ghost use Rattle.call_answers.specs.Call.{answer_of};
ghost use Rattle.call_answers.specs.Reduction as reducing;
ghost use Rattle.call_answers.specs.Run as running;
ghost use Rattle.call_reduction.specs.Call.{reduction_of};
ghost use Rattle.call_run.specs.Call.{run_call};

use call_answers::{GuaranteeCall, Reduction, Run};
use call_rights::{Matter, Party};
use cut_worth::Tally;
use refusals::Refusal;

// Adds a signed amount to a user's physical entry and position in an area.
pub fn posting(
    book: &mut [u8],
    party: Party,
    store: Option<&[u8]>,
    with_log: bool,
    log: &mut [u8],
    id: u32,
    area: u32,
    amount: i64,
) -> Result<(), Refusal>
    ensures { LoggedBy (as_party party) (act_of (lent store.entry) (given with_log log.old) (called (posting_of id area amount))) book.old (only (number_in result)) book.new log.old log.new }
{
    let admission = call_admission::admit(book, party, Matter::Operators, store);
    let opened = call_admission::by_log(book, admission, with_log, log);
    let outcome = call_posting::posting(book, opened, id, area, amount);
    log_lent::empty(book, with_log, log, outcome);
    outcome
}

// Posts a list of corrections, at most 512 lines of id, area and signed amount, one after another, with the number of each line in the
// place beside it. Where it is refused, places and book stay as they are.
pub fn list(
    book: &mut [u8],
    party: Party,
    store: Option<&[u8]>,
    with_log: bool,
    log: &mut [u8],
    ids: &[u32],
    areas: &[u32],
    amounts: &[i64],
    places: &mut [u32],
) -> Result<(), Refusal>
    ensures { PostedBy (as_party party) (lent store.entry) (given with_log log.old) ids.now areas.now amounts.now places.old book.old (number_in result) book.new places.new log.old log.new }
{
    let fits = call_list::fits(ids, areas, amounts, places);
    let admission = call_admission::admit_list(book, party, store, fits);
    let opened = call_admission::by_log(book, admission, with_log, log);
    let outcome = call_list::list(book, opened, ids, areas, amounts, places);
    log_lent::empty(book, with_log, log, outcome);
    outcome
}

// Raises a user's blocked guarantee to its level at one time of the day.
pub fn call(
    book: &mut [u8],
    party: Party,
    store: Option<&[u8]>,
    with_log: bool,
    log: &mut [u8],
    id: u32,
    afternoon: bool,
) -> Result<GuaranteeCall, Refusal>
    ensures { LoggedBy (as_party party) (act_of (lent store.entry) (given with_log log.old) (called (call_of afternoon id))) book.old (answer_of result) book.new log.old log.new }
{
    let mut sellers = [0u8; 256];
    let mut buyers = [0u8; 256];
    let mut sums = [0u32; 768];
    let admission = call_admission::admit_with_sums(
        book,
        party,
        Matter::Operators,
        store,
        &mut sellers,
        &mut buyers,
        &mut sums,
    );
    let opened = call_admission::by_log(book, admission, with_log, log);
    let outcome = call_guarantee::call(book, opened, &sellers, &buyers, &mut sums, id, afternoon);
    log_lent::empty(book, with_log, log, outcome.map(|_| ()));
    outcome
}

// Raises a user's blocked guarantee to its morning level.
pub fn morning_call(
    book: &mut [u8],
    party: Party,
    store: Option<&[u8]>,
    with_log: bool,
    log: &mut [u8],
    id: u32,
) -> Result<GuaranteeCall, Refusal>
    ensures { LoggedBy (as_party party) (act_of (lent store.entry) (given with_log log.old) (called (morning_call_of id))) book.old (answer_of result) book.new log.old log.new }
{
    call(book, party, store, with_log, log, id, false)
}

// Raises a user's blocked guarantee to its afternoon level.
pub fn afternoon_call(
    book: &mut [u8],
    party: Party,
    store: Option<&[u8]>,
    with_log: bool,
    log: &mut [u8],
    id: u32,
) -> Result<GuaranteeCall, Refusal>
    ensures { LoggedBy (as_party party) (act_of (lent store.entry) (given with_log log.old) (called (afternoon_call_of id))) book.old (answer_of result) book.new log.old log.new }
{
    call(book, party, store, with_log, log, id, true)
}

// Cuts a user's bilateral sales for what its afternoon level exceeds its assigned guarantee by.
pub fn reduction(
    book: &mut [u8],
    party: Party,
    store: Option<&[u8]>,
    with_log: bool,
    log: &mut [u8],
    id: u32,
) -> Result<Reduction, Refusal>
    ensures { LoggedBy (as_party party) (act_of (lent store.entry) (given with_log log.old) (called (reduction_of id))) book.old (reducing.answer_of result) book.new log.old log.new }
{
    let mut sellers = [0u8; 256];
    let mut buyers = [0u8; 256];
    let mut sums = [0u32; 768];
    let admission = call_admission::admit_with_sums(
        book,
        party,
        Matter::Operators,
        store,
        &mut sellers,
        &mut buyers,
        &mut sums,
    );
    let opened = call_admission::by_log(book, admission, with_log, log);
    call_reduction::reduction(
        book, opened, &sellers, &buyers, &mut sums, id, with_log, log,
    )
}

// Reduces the user of the lowest id among those short of cover with an eligible trade, until there is none. With a log that becomes full
// while one more reduction is due it stops, keeps its cuts and gives their totals with that: only the opening questions refuse a run.
pub fn run(
    book: &mut [u8],
    party: Party,
    store: Option<&[u8]>,
    with_log: bool,
    log: &mut [u8],
) -> Result<Run, Refusal>
    ensures logged { LoggedBy (as_party party) (act_of (lent store.entry) (given with_log log.old) (called run_call)) book.old (running.answer_of result) book.new log.old log.new }
    ensures carried_out { is_ok result ≡ is_opened (as_party party) (setting_of (lent store.entry)) (given with_log log.old) book.old }
{
    let mut sellers = [0u8; 256];
    let mut buyers = [0u8; 256];
    let mut sums = [0u32; 768];
    let admission = call_admission::admit_with_sums(
        book,
        party,
        Matter::Operators,
        store,
        &mut sellers,
        &mut buyers,
        &mut sums,
    );
    let opened = call_admission::by_log(book, admission, with_log, log);
    if with_log {
        call_logged::run(book, opened, &sellers, &buyers, &mut sums, log)
    } else {
        call_run::run(book, opened, &sellers, &buyers, &mut sums)
    }
}

// ---- the log

// Withdraws the last reduction that a log has noted: its cuts are given back, and the entry is dropped.
pub fn withdrawal(
    book: &mut [u8],
    party: Party,
    store: Option<&[u8]>,
    log: &mut [u8],
) -> Result<Tally, Refusal>
    ensures { LoggedBy (as_party party) (act_of (lent store.entry) (some log.old) withdrawing) book.old (withdrawal_of result) book.new log.old log.new }
{
    let mut sellers = [0u8; 256];
    let mut buyers = [0u8; 256];
    let mut sums = [0u32; 768];
    let admission = call_admission::admit_with_sums(
        book,
        party,
        Matter::Operators,
        store,
        &mut sellers,
        &mut buyers,
        &mut sums,
    );
    let opened = call_admission::by_log(book, admission, true, log);
    call_logged::withdrawal(book, opened, &sellers, &buyers, log)
}

// Starts a log that holds a book, any bytes, with no entry; or leaves it and refuses where the log has another length or the book does not
// fit in.
pub fn start_log(log: &mut [u8], book: &[u8]) -> Result<(), Refusal>
    ensures value { number_in result ≡ start_number log.old book.now }
    ensures log_after { log.new ≡ started log.old book.now }
{
    log_entries::start(log, book)
}
