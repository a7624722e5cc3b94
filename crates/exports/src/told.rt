// The functions of the C interface that tell a user's flag and the trades that it may see. What is said at the head of lib.rt holds of
// them.
ghost use Rattle.requests.specs.Request.{setting_of};
ghost use Rattle.rights.specs.Party.{party_of};
ghost use Rattle.rights.specs.Trades.{count_of, flag_of};
ghost use Rattle.exports_answers.specs.Numbers.{count_numbers, flag_numbers};
ghost use Rattle.exports.specs.Answers.{store_by, ToldInto, TradeInto};

use crate::{WRONG_LENGTH, lent_store};
use call_rights::Party;

// How many numbers an answer has, and the bytes of a trade.
const FLAG_NUMBERS: usize = 1;

const COUNT_NUMBERS: usize = 1;

const TRADE_NUMBERS: usize = 1;

const TRADE_SIZE: usize = book_records::TRADE_SIZE;

// Whether a user is flagged: 1 number, 1 for yes and 0 for no.
#[unsafe(no_mangle)]
pub extern "C" fn daybook_raw_flag(
    book: &[u8],
    party: u64,
    with_store: u32,
    store: &[u8],
    id: u32,
    answer: &mut [u64],
) -> u32
    ensures { ToldInto 1 flag_numbers (party_of party) (setting_of (store_by with_store store.now)) book.now (flag_of id) answer.old result answer.new }
{
    if answer.len() != FLAG_NUMBERS {
        return WRONG_LENGTH;
    }
    let store = lent_store(with_store, store);
    let flagged = daybook::flag(book, Party::from(party), store, id);
    exports_answers::store_flag(answer, flagged)
}

// How many trades a user may see: 1 number.
#[unsafe(no_mangle)]
pub extern "C" fn daybook_raw_trade_count(
    book: &[u8],
    party: u64,
    with_store: u32,
    store: &[u8],
    id: u32,
    answer: &mut [u64],
) -> u32
    ensures { ToldInto 1 count_numbers (party_of party) (setting_of (store_by with_store store.now)) book.now (count_of id) answer.old result answer.new }
{
    if answer.len() != COUNT_NUMBERS {
        return WRONG_LENGTH;
    }
    let store = lent_store(with_store, store);
    let count = daybook::trade_count(book, Party::from(party), store, id);
    exports_answers::store_count(answer, count)
}

// Copies the 20 bytes of the trade of an ordinal, from 0 in book order, among those that a user may see: 1 number, how many bytes there
// are, 20, or past the last 0, where the part is 0.
#[unsafe(no_mangle)]
pub extern "C" fn daybook_raw_trade(
    book: &[u8],
    party: u64,
    with_store: u32,
    store: &[u8],
    id: u32,
    ordinal: u32,
    trade: &mut [u8],
    answer: &mut [u64],
) -> u32
    ensures { TradeInto (party_of party) (setting_of (store_by with_store store.now)) book.now id ordinal trade.old answer.old result trade.new answer.new }
{
    if trade.len() != TRADE_SIZE {
        return WRONG_LENGTH;
    }
    if answer.len() != TRADE_NUMBERS {
        return WRONG_LENGTH;
    }
    let store = lent_store(with_store, store);
    match daybook::trade(book, Party::from(party), store, id, ordinal) {
        Ok(Some(part)) => {
            book_image::fill(trade, part);
            answer[0] = part.len() as u64;
            0
        }
        Ok(None) => {
            book_image::fill(trade, b"");
            answer[0] = 0;
            0
        }
        Err(refusal) => {
            book_image::fill(trade, b"");
            exports_answers::store_refusal(answer, refusal)
        }
    }
}
