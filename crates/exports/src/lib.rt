// The C interface over the public calls of `daybook` and `shrinkage`; the static library `exports_c` has it for C, where a slice is a
// pointer and a length. No function asks anything of what it is lent: a part for answers of another length than the function's gets the
// number 255, and nothing is asked or changed. A store and a log come with a flag each, which is 0 where there is none. Every function on a
// book takes the acting party after it, a shipper's id or 2^32 for the operator; what a shipper may have is copied. The functions that can
// change a book stand in changes.rt, a user's flag and the trades that it may see in told.rt.
#![tactic(auto)]

ghost use Rattle.std.specs.Prelude.{◌≡◌, ◌≤◌, length};
ghost use Rattle.refusals.specs.Refusal.{number_in};
ghost use Rattle.store.specs.Asked.{lent};
ghost use Rattle.call_show.specs.Shown.{bytes_of};
ghost use Rattle.book_image.specs.Image.{padded};
ghost use Rattle.rules.specs.Queries.{morning_level_of, afternoon_level_of};
ghost use Rattle.requests.specs.Request.{setting_of};
ghost use Rattle.rights.specs.Party.{party_of};
ghost use Rattle.call_level.specs.Times.{query_of};
ghost use Rattle.call_warning.specs.Warned.{warning_of};
ghost use Rattle.call_show.specs.Shown.{picked};
ghost use Rattle.outputs.specs.Output.{Wrote};
ghost use Rattle.book_columns.specs.Calls.{restored};
ghost use Rattle.conversions.specs.Acting.{conversion_by};
ghost use Rattle.rights.specs.Outputs.{stored_by};
ghost use Rattle.exports_answers.specs.Numbers.{level_numbers, warning_numbers};
ghost use Rattle.exports.specs.Answers.{is_yes, store_by, Replied, Copied};
ghost use Rattle.exports.specs.Answers.{ReadInto, WrittenFrom, ReturnedInto, SpreadInto, CancelledInto, LevelsInto};

use call_rights::Party;
use refusals::{Refusal, number_of};
use shrinkage::Kwh;

pub mod changes;
pub mod told;

// The number for a lent part of another length than the function asks for.
const WRONG_LENGTH: u32 = 255;

// The number of this interface, raised with each change of a signature, of the image or of a shown record.
const INTERFACE: u32 = 7;

// The bytes of an image, and of the part for a shown record.
const IMAGE_SIZE: usize = 9512;

const RECORD_SIZE: usize = book_records::MANAGED_SIZE;

// The marks of a cancellation, one for each place of a trade.
const MARKS: usize = 256;

// How many numbers an answer has.
const LEVEL_NUMBERS: usize = 1;

const ALL_LEVELS_NUMBERS: usize = 256;

const WARNING_NUMBERS: usize = 1;

const CANCELLATION_NUMBERS: usize = 3;

const RETURN_NUMBERS: usize = 131;

const SHRINKAGE_DAYS: usize = 30;

// The store that is lent with a flag, none where the flag is 0.
fn lent_store(with_store: u32, store: &[u8]) -> Option<&[u8]>
    ensures { lent result ≡ store_by with_store store.now }
{
    if with_store != 0 { Some(store) } else { None }
}

// ---- the functions of the interface

// The number of the interface, as the header has it in DAYBOOK_INTERFACE.
#[unsafe(no_mangle)]
pub extern "C" fn daybook_raw_interface() -> u32
    ensures { result ≡ 7 }
{
    INTERFACE
}

// Reads a book's fields into an image of 9,512 bytes.
#[unsafe(no_mangle)]
pub extern "C" fn daybook_raw_read(book: &[u8], party: u64, image: &mut [u8]) -> u32
    ensures { ReadInto (party_of party) book.now image.old result image.new }
{
    if image.len() != IMAGE_SIZE {
        return WRONG_LENGTH;
    }
    number_of(call_read::read_image(book, Party::from(party), image))
}

// Writes the book whose fields an image of 9,512 bytes has.
#[unsafe(no_mangle)]
pub extern "C" fn daybook_raw_write(image: &[u8], out: &mut [u8]) -> u32
    ensures { WrittenFrom image.now out.old result out.new }
{
    if image.len() != IMAGE_SIZE {
        return WRONG_LENGTH;
    }
    number_of(book_image::write(image, out))
}

// Copies the bytes of a shown record to the front of a part, 0 behind them and where the call is refused, and gives its number.
fn copy_part(shown: Result<&[u8], Refusal>, part: &mut [u8]) -> u32
    requires { length (bytes_of shown) ≤ length «part».old }
    ensures number { result ≡ number_in shown.entry }
    ensures bytes { «part».new ≡ padded (length «part».old) (bytes_of shown.entry) }
{
    match shown {
        Ok(bytes) => {
            book_image::fill(part, bytes);
            0
        }
        Err(refusal) => {
            book_image::fill(part, b"");
            refusal.number()
        }
    }
}

// Copies the bytes of a user's record to a part of 68; behind the 56 of versions 1 and 2 it is 0.
#[unsafe(no_mangle)]
pub extern "C" fn daybook_raw_show(
    book: &[u8],
    party: u64,
    with_store: u32,
    store: &[u8],
    id: u32,
    record: &mut [u8],
) -> u32
    ensures { Copied (party_of party) (setting_of (store_by with_store store.now)) book.now id «record».old result «record».new }
{
    if record.len() != RECORD_SIZE {
        return WRONG_LENGTH;
    }
    let store = lent_store(with_store, store);
    copy_part(daybook::show(book, Party::from(party), store, id), record)
}

// The same of the picked one of two books: the morning's where `afternoon_picked` is 0, else the afternoon's.
#[unsafe(no_mangle)]
pub extern "C" fn daybook_raw_show_picked<'a>(
    morning: &'a [u8],
    afternoon: &'a [u8],
    party: u64,
    with_store: u32,
    store: &[u8],
    afternoon_picked: u32,
    id: u32,
    record: &mut [u8],
) -> u32
    ensures { Copied (party_of party) (setting_of (store_by with_store store.now)) (picked (is_yes afternoon_picked) morning.now afternoon.now) id «record».old result «record».new }
{
    if record.len() != RECORD_SIZE {
        return WRONG_LENGTH;
    }
    let store = lent_store(with_store, store);
    let picked = afternoon_picked != 0;
    let shown = daybook::show_picked(morning, afternoon, Party::from(party), store, picked, id);
    copy_part(shown, record)
}

// The level of a user at one time of the day: 1 number.
fn level(
    book: &[u8],
    party: u64,
    with_store: u32,
    store: &[u8],
    id: u32,
    afternoon: bool,
    answer: &mut [u64],
) -> u32
    ensures { Replied 1 level_numbers (party_of party) (setting_of (store_by with_store store.now)) book.now (query_of afternoon id) answer.old result answer.new }
{
    if answer.len() != LEVEL_NUMBERS {
        return WRONG_LENGTH;
    }
    let store = lent_store(with_store, store);
    let level = daybook::level(book, Party::from(party), store, id, afternoon);
    exports_answers::store_level(answer, level)
}

// The morning level of a user: 1 number.
#[unsafe(no_mangle)]
pub extern "C" fn daybook_raw_morning_level(
    book: &[u8],
    party: u64,
    with_store: u32,
    store: &[u8],
    id: u32,
    answer: &mut [u64],
) -> u32
    ensures { Replied 1 level_numbers (party_of party) (setting_of (store_by with_store store.now)) book.now (morning_level_of id) answer.old result answer.new }
{
    level(book, party, with_store, store, id, false, answer)
}

// The afternoon level of a user: 1 number.
#[unsafe(no_mangle)]
pub extern "C" fn daybook_raw_afternoon_level(
    book: &[u8],
    party: u64,
    with_store: u32,
    store: &[u8],
    id: u32,
    answer: &mut [u64],
) -> u32
    ensures { Replied 1 level_numbers (party_of party) (setting_of (store_by with_store store.now)) book.now (afternoon_level_of id) answer.old result answer.new }
{
    level(book, party, with_store, store, id, true, answer)
}

// The levels and the state of every user, the operator's alone: 256 numbers, for each of 64 users in the order of the book its id, its
// state (0 clear, 1 short, 2 call, 3 quiet), its morning and its afternoon level; past the last user 0.
#[unsafe(no_mangle)]
pub extern "C" fn daybook_raw_levels(
    book: &[u8],
    party: u64,
    with_store: u32,
    store: &[u8],
    answer: &mut [u64],
) -> u32
    ensures { LevelsInto (party_of party) (setting_of (store_by with_store store.now)) book.now answer.old result answer.new }
{
    if answer.len() != ALL_LEVELS_NUMBERS {
        return WRONG_LENGTH;
    }
    let store = lent_store(with_store, store);
    let levels = daybook::levels(book, Party::from(party), store);
    exports_users::store_levels(answer, levels)
}

// Whether a user is warned at midday: 1 number, 1 for yes and 0 for no.
#[unsafe(no_mangle)]
pub extern "C" fn daybook_raw_warning(
    book: &[u8],
    party: u64,
    with_store: u32,
    store: &[u8],
    id: u32,
    answer: &mut [u64],
) -> u32
    ensures { Replied 1 warning_numbers (party_of party) (setting_of (store_by with_store store.now)) book.now (warning_of id) answer.old result answer.new }
{
    if answer.len() != WARNING_NUMBERS {
        return WRONG_LENGTH;
    }
    let store = lent_store(with_store, store);
    let warned = daybook::warning(book, Party::from(party), store, id);
    exports_answers::store_warning(answer, warned)
}

// Finds whole trades to cancel for a user's target: 256 marks by trade place, and 3 numbers, the excess, the tries made, and 1 where the
// search is complete.
#[unsafe(no_mangle)]
pub extern "C" fn daybook_raw_cancellation(
    book: &[u8],
    party: u64,
    with_store: u32,
    store: &[u8],
    id: u32,
    tries: u32,
    marks: &mut [u8],
    answer: &mut [u64],
) -> u32
    ensures { CancelledInto (party_of party) (setting_of (store_by with_store store.now)) book.now id tries marks.old answer.old result marks.new answer.new }
{
    if marks.len() != MARKS {
        return WRONG_LENGTH;
    }
    if answer.len() != CANCELLATION_NUMBERS {
        return WRONG_LENGTH;
    }
    let store = lent_store(with_store, store);
    let cancellation = daybook::cancellation(book, Party::from(party), store, id, tries);
    exports_cancellation::store_cancellation(marks, answer, cancellation)
}

// ---- a book as another version or in another layout, in a lent output

// Writes a book as a version to the front of an output.
#[unsafe(no_mangle)]
pub extern "C" fn daybook_raw_convert(book: &[u8], party: u64, version: u32, out: &mut [u8]) -> u32
    ensures { Wrote (conversion_by (party_of party) version book.now out.old) result out.new }
{
    number_of(daybook::convert(book, Party::from(party), version, out))
}

// Writes a book field by field to the front of an output.
#[unsafe(no_mangle)]
pub extern "C" fn daybook_raw_form(book: &[u8], party: u64, out: &mut [u8]) -> u32
    ensures { Wrote (stored_by (party_of party) book.now out.old) result out.new }
{
    number_of(daybook::form(book, Party::from(party), out))
}

// Writes the book of such a form to the front of an output.
#[unsafe(no_mangle)]
pub extern "C" fn daybook_raw_restore(form: &[u8], out: &mut [u8]) -> u32
    ensures { Wrote (restored form.now out.old) result out.new }
{
    number_of(daybook::restore(form, out))
}

// ---- the return of shrinkage, without a book

// The return for the users' balances: 131 numbers, H, the odd kWh, the rest, then the shares and the remainders of 64 users.
#[unsafe(no_mangle)]
pub extern "C" fn daybook_raw_shrinkage_return(balances: &[i64], answer: &mut [u64]) -> u32
    ensures { ReturnedInto balances.now answer.old result answer.new }
{
    if answer.len() != RETURN_NUMBERS {
        return WRONG_LENGTH;
    }
    let returned = shrinkage::shrinkage_return(balances);
    exports_shrinkage::store_return(answer, returned)
}

// A share over 30 days: 30 numbers.
#[unsafe(no_mangle)]
pub extern "C" fn daybook_raw_shrinkage_days(share: u64, answer: &mut [u64]) -> u32
    ensures { SpreadInto share answer.old result answer.new }
{
    if answer.len() != SHRINKAGE_DAYS {
        return WRONG_LENGTH;
    }
    let days = shrinkage::over_days(Kwh(share));
    exports_shrinkage::store_days(answer, days);
    0
}
