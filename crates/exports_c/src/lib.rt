// The functions of the C interface as a static library: each calls the function of `exports` that has its name, and promises the same.
// include/daybook.h declares them. Those that can change a book stand in changes.rt, a user's flag and the trades that it may see in
// told.rt.
#![tactic(auto)]

ghost use Rattle.std.specs.Prelude.{◌≡◌};
ghost use Rattle.rules.specs.Queries.{morning_level_of, afternoon_level_of};
ghost use Rattle.requests.specs.Request.{setting_of};
ghost use Rattle.rights.specs.Party.{party_of};
ghost use Rattle.call_warning.specs.Warned.{warning_of};
ghost use Rattle.call_show.specs.Shown.{picked};
ghost use Rattle.outputs.specs.Output.{Wrote};
ghost use Rattle.book_columns.specs.Calls.{restored};
ghost use Rattle.conversions.specs.Acting.{conversion_by};
ghost use Rattle.rights.specs.Outputs.{stored_by};
ghost use Rattle.exports_answers.specs.Numbers.{level_numbers, warning_numbers};
ghost use Rattle.exports.specs.Answers.{is_yes, store_by, Replied, Copied};
ghost use Rattle.exports.specs.Answers.{ReadInto, WrittenFrom, ReturnedInto, SpreadInto, CancelledInto, LevelsInto};

mod changes;
mod told;

// The number of the interface, as the header has it in DAYBOOK_INTERFACE.
#[unsafe(no_mangle)]
pub extern "C" fn daybook_raw_interface() -> u32
    ensures { result ≡ 7 }
{
    exports::daybook_raw_interface()
}

// Reads a book's fields into an image of 9,512 bytes.
#[unsafe(no_mangle)]
pub extern "C" fn daybook_raw_read(book: &[u8], party: u64, image: &mut [u8]) -> u32
    ensures { ReadInto (party_of party) book.now image.old result image.new }
{
    exports::daybook_raw_read(book, party, image)
}

// Writes the book whose fields an image of 9,512 bytes has.
#[unsafe(no_mangle)]
pub extern "C" fn daybook_raw_write(image: &[u8], out: &mut [u8]) -> u32
    ensures { WrittenFrom image.now out.old result out.new }
{
    exports::daybook_raw_write(image, out)
}

// Copies the bytes of a user's record to a part of 68; behind the 56 of versions 1 and 2 it is 0.
#[unsafe(no_mangle)]
pub extern "C" fn daybook_raw_show(
    book: &[u8],
    party: u64,
    with_store: u32,
    store: &[u8],
    id: u32,
    record: &mut [u8],
) -> u32
    ensures { Copied (party_of party) (setting_of (store_by with_store store.now)) book.now id «record».old result «record».new }
{
    exports::daybook_raw_show(book, party, with_store, store, id, record)
}

// The same of the picked one of two books: the morning's where `afternoon_picked` is 0, else the afternoon's.
#[unsafe(no_mangle)]
pub extern "C" fn daybook_raw_show_picked<'a>(
    morning: &'a [u8],
    afternoon: &'a [u8],
    party: u64,
    with_store: u32,
    store: &[u8],
    afternoon_picked: u32,
    id: u32,
    record: &mut [u8],
) -> u32
    ensures { Copied (party_of party) (setting_of (store_by with_store store.now)) (picked (is_yes afternoon_picked) morning.now afternoon.now) id «record».old result «record».new }
{
    exports::daybook_raw_show_picked(
        morning,
        afternoon,
        party,
        with_store,
        store,
        afternoon_picked,
        id,
        record,
    )
}

// The morning level of a user: 1 number.
#[unsafe(no_mangle)]
pub extern "C" fn daybook_raw_morning_level(
    book: &[u8],
    party: u64,
    with_store: u32,
    store: &[u8],
    id: u32,
    answer: &mut [u64],
) -> u32
    ensures { Replied 1 level_numbers (party_of party) (setting_of (store_by with_store store.now)) book.now (morning_level_of id) answer.old result answer.new }
{
    exports::daybook_raw_morning_level(book, party, with_store, store, id, answer)
}

// The afternoon level of a user: 1 number.
#[unsafe(no_mangle)]
pub extern "C" fn daybook_raw_afternoon_level(
    book: &[u8],
    party: u64,
    with_store: u32,
    store: &[u8],
    id: u32,
    answer: &mut [u64],
) -> u32
    ensures { Replied 1 level_numbers (party_of party) (setting_of (store_by with_store store.now)) book.now (afternoon_level_of id) answer.old result answer.new }
{
    exports::daybook_raw_afternoon_level(book, party, with_store, store, id, answer)
}

// The levels and the state of every user, the operator's alone: 256 numbers, for each of 64 users in the order of the book its id, its
// state (0 clear, 1 short, 2 call, 3 quiet), its morning and its afternoon level; past the last user 0.
#[unsafe(no_mangle)]
pub extern "C" fn daybook_raw_levels(
    book: &[u8],
    party: u64,
    with_store: u32,
    store: &[u8],
    answer: &mut [u64],
) -> u32
    ensures { LevelsInto (party_of party) (setting_of (store_by with_store store.now)) book.now answer.old result answer.new }
{
    exports::daybook_raw_levels(book, party, with_store, store, answer)
}

// Whether a user is warned at midday: 1 number, 1 for yes and 0 for no.
#[unsafe(no_mangle)]
pub extern "C" fn daybook_raw_warning(
    book: &[u8],
    party: u64,
    with_store: u32,
    store: &[u8],
    id: u32,
    answer: &mut [u64],
) -> u32
    ensures { Replied 1 warning_numbers (party_of party) (setting_of (store_by with_store store.now)) book.now (warning_of id) answer.old result answer.new }
{
    exports::daybook_raw_warning(book, party, with_store, store, id, answer)
}

// Finds whole trades to cancel for a user's target: 256 marks by trade place, and 3 numbers, the excess, the tries made, and 1 where the
// search is complete.
#[unsafe(no_mangle)]
pub extern "C" fn daybook_raw_cancellation(
    book: &[u8],
    party: u64,
    with_store: u32,
    store: &[u8],
    id: u32,
    tries: u32,
    marks: &mut [u8],
    answer: &mut [u64],
) -> u32
    ensures { CancelledInto (party_of party) (setting_of (store_by with_store store.now)) book.now id tries marks.old answer.old result marks.new answer.new }
{
    exports::daybook_raw_cancellation(book, party, with_store, store, id, tries, marks, answer)
}

// Writes a book as a version to the front of an output.
#[unsafe(no_mangle)]
pub extern "C" fn daybook_raw_convert(book: &[u8], party: u64, version: u32, out: &mut [u8]) -> u32
    ensures { Wrote (conversion_by (party_of party) version book.now out.old) result out.new }
{
    exports::daybook_raw_convert(book, party, version, out)
}

// Writes a book field by field to the front of an output.
#[unsafe(no_mangle)]
pub extern "C" fn daybook_raw_form(book: &[u8], party: u64, out: &mut [u8]) -> u32
    ensures { Wrote (stored_by (party_of party) book.now out.old) result out.new }
{
    exports::daybook_raw_form(book, party, out)
}

// Writes the book of such a form to the front of an output.
#[unsafe(no_mangle)]
pub extern "C" fn daybook_raw_restore(form: &[u8], out: &mut [u8]) -> u32
    ensures { Wrote (restored form.now out.old) result out.new }
{
    exports::daybook_raw_restore(form, out)
}

// The return for the users' balances: 131 numbers, H, the odd kWh, the rest, then the shares and the remainders of 64 users.
#[unsafe(no_mangle)]
pub extern "C" fn daybook_raw_shrinkage_return(balances: &[i64], answer: &mut [u64]) -> u32
    ensures { ReturnedInto balances.now answer.old result answer.new }
{
    exports::daybook_raw_shrinkage_return(balances, answer)
}

// A share over 30 days: 30 numbers.
#[unsafe(no_mangle)]
pub extern "C" fn daybook_raw_shrinkage_days(share: u64, answer: &mut [u64]) -> u32
    ensures { SpreadInto share answer.old result answer.new }
{
    exports::daybook_raw_shrinkage_days(share, answer)
}
