// The functions of the C interface that can change a book, or write a log; those of a withdrawal and of the log's start among them. What is
// said at the head of lib.rt holds of them.
ghost use Rattle.std.specs.Prelude.{◌≡◌};
ghost use Rattle.std.proofs.Math.Option.{some};
ghost use Rattle.rules.specs.Calls.{only, morning_call_of, afternoon_call_of};
ghost use Rattle.requests.specs.Request.{act_of};
ghost use Rattle.rights.specs.Logged.{LoggedBy, PostedBy};
ghost use Rattle.rights.specs.Party.{party_of};
ghost use Rattle.log_format.specs.Fits.{start_number, started};
ghost use Rattle.daybook.specs.Acts.{called, withdrawing};
ghost use Rattle.call_posting.specs.Posting.{posting_of};
ghost use Rattle.call_guarantee.specs.Times.{call_of};
ghost use Rattle.call_reduction.specs.Call.{reduction_of};
ghost use Rattle.call_run.specs.Call.{run_call};
ghost use Rattle.exports_answers.specs.Numbers.{call_numbers, reduction_numbers, run_numbers, withdrawal_numbers};
ghost use Rattle.exports.specs.Answers.{log_by, store_by, Answered};

use crate::{WRONG_LENGTH, lent_store};
use call_rights::Party;
use refusals::number_of;

// How many numbers an answer has.
const CALL_NUMBERS: usize = 2;

const REDUCTION_NUMBERS: usize = 5;

const RUN_NUMBERS: usize = 3;

const WITHDRAWAL_NUMBERS: usize = 2;

// ---- calls that change a book

// Adds a signed amount to a user's physical entry and position in an area.
#[unsafe(no_mangle)]
pub extern "C" fn daybook_raw_posting(
    book: &mut [u8],
    party: u64,
    with_store: u32,
    store: &[u8],
    with_log: u32,
    log: &mut [u8],
    id: u32,
    area: u32,
    amount: i64,
) -> u32
    ensures { LoggedBy (party_of party) (act_of (store_by with_store store.now) (log_by with_log log.old) (called (posting_of id area amount))) book.old (only result) book.new log.old log.new }
{
    let store = lent_store(with_store, store);
    let party = Party::from(party);
    number_of(daybook::posting(book, party, store, with_log != 0, log, id, area, amount))
}

// Posts a list of corrections, given as columns, and stores the number of each line in its place. Places of another count than the lines
// are refused by question 15.
#[unsafe(no_mangle)]
pub extern "C" fn daybook_raw_list(
    book: &mut [u8],
    party: u64,
    with_store: u32,
    store: &[u8],
    with_log: u32,
    log: &mut [u8],
    ids: &[u32],
    areas: &[u32],
    amounts: &[i64],
    places: &mut [u32],
) -> u32
    ensures { PostedBy (party_of party) (store_by with_store store.now) (log_by with_log log.old) ids.now areas.now amounts.now places.old book.old result book.new places.new log.old log.new }
{
    let store = lent_store(with_store, store);
    let party = Party::from(party);
    number_of(daybook::list(
        book,
        party,
        store,
        with_log != 0,
        log,
        ids,
        areas,
        amounts,
        places,
    ))
}

// Raises a user's blocked guarantee to its level at one time of the day: 2 numbers, the level and what was added.
fn call(
    book: &mut [u8],
    party: u64,
    with_store: u32,
    store: &[u8],
    with_log: u32,
    log: &mut [u8],
    id: u32,
    afternoon: bool,
    answer: &mut [u64],
) -> u32
    ensures { Answered 2 call_numbers (party_of party) (act_of (store_by with_store store.now) (log_by with_log log.old) (called (call_of afternoon id))) book.old answer.old result answer.new book.new log.old log.new }
{
    if answer.len() != CALL_NUMBERS {
        return WRONG_LENGTH;
    }
    let store = lent_store(with_store, store);
    let party = Party::from(party);
    let call = daybook::call(book, party, store, with_log != 0, log, id, afternoon);
    exports_answers::store_call(answer, call)
}

// Raises a user's blocked guarantee to its morning level: 2 numbers, the level and what was added.
#[unsafe(no_mangle)]
pub extern "C" fn daybook_raw_morning_call(
    book: &mut [u8],
    party: u64,
    with_store: u32,
    store: &[u8],
    with_log: u32,
    log: &mut [u8],
    id: u32,
    answer: &mut [u64],
) -> u32
    ensures { Answered 2 call_numbers (party_of party) (act_of (store_by with_store store.now) (log_by with_log log.old) (called (morning_call_of id))) book.old answer.old result answer.new book.new log.old log.new }
{
    call(
        book, party, with_store, store, with_log, log, id, false, answer,
    )
}

// Raises a user's blocked guarantee to its afternoon level: 2 numbers, the level and what was added.
#[unsafe(no_mangle)]
pub extern "C" fn daybook_raw_afternoon_call(
    book: &mut [u8],
    party: u64,
    with_store: u32,
    store: &[u8],
    with_log: u32,
    log: &mut [u8],
    id: u32,
    answer: &mut [u64],
) -> u32
    ensures { Answered 2 call_numbers (party_of party) (act_of (store_by with_store store.now) (log_by with_log log.old) (called (afternoon_call_of id))) book.old answer.old result answer.new book.new log.old log.new }
{
    call(
        book, party, with_store, store, with_log, log, id, true, answer,
    )
}

// Cuts a user's bilateral sales for its target: 5 numbers, the MWh cut, their worth, the target, and what the worth falls short of it or
// exceeds it by.
#[unsafe(no_mangle)]
pub extern "C" fn daybook_raw_reduction(
    book: &mut [u8],
    party: u64,
    with_store: u32,
    store: &[u8],
    with_log: u32,
    log: &mut [u8],
    id: u32,
    answer: &mut [u64],
) -> u32
    ensures { Answered 5 reduction_numbers (party_of party) (act_of (store_by with_store store.now) (log_by with_log log.old) (called (reduction_of id))) book.old answer.old result answer.new book.new log.old log.new }
{
    if answer.len() != REDUCTION_NUMBERS {
        return WRONG_LENGTH;
    }
    let store = lent_store(with_store, store);
    let party = Party::from(party);
    let reduction = daybook::reduction(book, party, store, with_log != 0, log, id);
    exports_answers::store_reduction(answer, reduction)
}

// Reduces users until none that is short of cover has an eligible trade: 3 numbers, the reductions, the MWh cut and their worth. They are
// stored beside 20 too, where a log that is given became full.
#[unsafe(no_mangle)]
pub extern "C" fn daybook_raw_run(
    book: &mut [u8],
    party: u64,
    with_store: u32,
    store: &[u8],
    with_log: u32,
    log: &mut [u8],
    answer: &mut [u64],
) -> u32
    ensures { Answered 3 run_numbers (party_of party) (act_of (store_by with_store store.now) (log_by with_log log.old) (called run_call)) book.old answer.old result answer.new book.new log.old log.new }
{
    if answer.len() != RUN_NUMBERS {
        return WRONG_LENGTH;
    }
    let store = lent_store(with_store, store);
    let run = daybook::run(book, Party::from(party), store, with_log != 0, log);
    exports_answers::store_run(answer, run)
}

// ---- the log

// Starts a log that holds a book.
#[unsafe(no_mangle)]
pub extern "C" fn daybook_raw_start_log(log: &mut [u8], book: &[u8]) -> u32
    ensures value { result ≡ start_number log.old book.now }
    ensures log_after { log.new ≡ started log.old book.now }
{
    number_of(daybook::start_log(log, book))
}

// Withdraws the last reduction that a log has noted: 2 numbers, its MWh and their worth.
#[unsafe(no_mangle)]
pub extern "C" fn daybook_raw_withdrawal(
    book: &mut [u8],
    party: u64,
    with_store: u32,
    store: &[u8],
    log: &mut [u8],
    answer: &mut [u64],
) -> u32
    ensures { Answered 2 withdrawal_numbers (party_of party) (act_of (store_by with_store store.now) (some log.old) withdrawing) book.old answer.old result answer.new book.new log.old log.new }
{
    if answer.len() != WITHDRAWAL_NUMBERS {
        return WRONG_LENGTH;
    }
    let store = lent_store(with_store, store);
    let withdrawal = daybook::withdrawal(book, Party::from(party), store, log);
    exports_answers::store_withdrawal(answer, withdrawal)
}
