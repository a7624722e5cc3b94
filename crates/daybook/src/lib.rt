// The public calls on a lent book in bytes, each by an acting party and with a store of parameter sets or none, and those that may change
// the book with a log of its reductions or none. None asks anything of its caller: any bytes, any party, any id and any amount get their
// answer or the documents' refusal, and a refused call leaves book and log byte for byte the same. Each asks the opening questions and
// hands on the figures that they give or their refusal; what it gives is one definition of specs/ of `rights`, over those of `requests`.
// The calls that may change a book stand in changes.rt, those that write it another way in storage.rt.
#![tactic(auto)]

ghost use Rattle.std.specs.Prelude.{◌≡◌, length, IfOk, IfSome};
ghost use Rattle.rules.specs.Queries.{morning_level_of, afternoon_level_of};
ghost use Rattle.refusals.specs.Refusal.{number_in};
ghost use Rattle.store.specs.Asked.{lent};
ghost use Rattle.requests.specs.Request.{setting_of};
ghost use Rattle.rights.specs.Acting.{HandedBy, cancellation_by, enquiry_by};
ghost use Rattle.rights.specs.Read.{ReadBy};
ghost use Rattle.call_rights.specs.Acting.{as_party};
ghost use Rattle.rights.specs.Trades.{TradeHanded, count_of, flag_of, told_by};
ghost use Rattle.call_answers.specs.Told.{count_told, flag_told};
ghost use Rattle.call_level.specs.Times.{query_of};
ghost use Rattle.call_answers.specs.Levels.{levels_told};
ghost use Rattle.user_levels.specs.Levels.{all_levels_by};
ghost use Rattle.call_answers.specs.Level.{reply_of};
ghost use Rattle.call_answers.specs.Warning as warned;
ghost use Rattle.call_warning.specs.Warned.{warning_of};
ghost use Rattle.call_answers.specs.Cancellation.{cancellation_of};
ghost use Rattle.book_value.specs.Opened.{book_in};
ghost use Rattle.book_value.specs.Written.{Written};
ghost use Rattle.call_show.specs.Shown as shown;
ghost use Rattle.call_show.specs.Shown.{picked, picked_at};
ghost use Rattle.call_told.specs.Told as told;

use book_tables::Book;
use call_answers::{Cancellation, UserLevels};
use call_rights::{Matter, Party};
use refusals::Refusal;
use units::Cents;

mod changes;

pub use changes::{
    afternoon_call, call, list, morning_call, posting, reduction, run, start_log, withdrawal,
};

mod storage;

pub use storage::{convert, form, restore};

// ---- a whole book

// The book that bytes hold, every field of it; or the refusal of the first question, 1 to 7 and 26, that is answered by no.
pub fn read(bytes: &[u8], party: Party) -> Result<Book, Refusal>
    ensures { ReadBy (as_party party) bytes.now (number_in result) (book_in result) }
{
    call_read::read(bytes, party)
}

// Writes a book, up to its counts, to a part of exactly its length; or leaves the part and refuses by the first question that the bytes
// would fail.
pub fn write(book: Book, out: &mut [u8]) -> Result<(), Refusal>
    ensures { Written book out.old (number_in result) out.new }
{
    book_value::write(book, out)
}

// ---- a user

// The bytes of a user's record, 56 or in version 3 68, as that part of the book.
pub fn show<'a>(
    book: &'a [u8],
    party: Party,
    store: Option<&[u8]>,
    id: u32,
) -> Result<&'a [u8], Refusal>
    ensures { HandedBy (as_party party) (setting_of (lent store.entry)) book.now id (number_in result) (shown.bytes_of result) book.entry.ref_ptr (shown.place_in book.entry.ref_ptr result) }
{
    let opened = call_admission::admit(book, party, Matter::Own(id), store);
    call_show::show(book, opened, id)
}

// The same of the picked one of two books: the afternoon's where `afternoon_picked` is yes, else the morning's. Only the picked book is
// questioned.
pub fn show_picked<'a>(
    morning: &'a [u8],
    afternoon: &'a [u8],
    party: Party,
    store: Option<&[u8]>,
    afternoon_picked: bool,
    id: u32,
) -> Result<&'a [u8], Refusal>
    ensures { HandedBy (as_party party) (setting_of (lent store.entry)) (picked afternoon_picked morning.now afternoon.now) id (number_in result) (shown.bytes_of result) (picked_at afternoon_picked morning.entry.ref_ptr afternoon.entry.ref_ptr) (shown.place_in (picked_at afternoon_picked morning.entry.ref_ptr afternoon.entry.ref_ptr) result) }
{
    let book = call_show::pick(morning, afternoon, afternoon_picked);
    show(book, party, store, id)
}

// The level of a user at one time of the day.
pub fn level(
    book: &[u8],
    party: Party,
    store: Option<&[u8]>,
    id: u32,
    afternoon: bool,
) -> Result<Cents, Refusal>
    ensures { reply_of result ≡ enquiry_by (as_party party) (setting_of (lent store.entry)) book.now (query_of afternoon id) }
{
    let mut sellers = [0u8; 256];
    let mut buyers = [0u8; 256];
    let mut sums = [0u32; 768];
    let opened = call_admission::admit_with_sums(
        book,
        party,
        Matter::Own(id),
        store,
        &mut sellers,
        &mut buyers,
        &mut sums,
    );
    call_level::level(book, opened, &sums, id, afternoon)
}

// The morning level of a user.
pub fn morning_level(
    book: &[u8],
    party: Party,
    store: Option<&[u8]>,
    id: u32,
) -> Result<Cents, Refusal>
    ensures { reply_of result ≡ enquiry_by (as_party party) (setting_of (lent store.entry)) book.now (morning_level_of id) }
{
    level(book, party, store, id, false)
}

// The afternoon level of a user.
pub fn afternoon_level(
    book: &[u8],
    party: Party,
    store: Option<&[u8]>,
    id: u32,
) -> Result<Cents, Refusal>
    ensures { reply_of result ≡ enquiry_by (as_party party) (setting_of (lent store.entry)) book.now (afternoon_level_of id) }
{
    level(book, party, store, id, true)
}

// The levels and the state of every user, after one asking of the questions: in the order of the book what the calls for each id tell. The
// operator's alone, since the place of a user among all tells a shipper of others.
pub fn levels(book: &[u8], party: Party, store: Option<&[u8]>) -> Result<[UserLevels; 64], Refusal>
    ensures { levels_told result ≡ all_levels_by (as_party party) (setting_of (lent store.entry)) book.now }
{
    let mut sellers = [0u8; 256];
    let mut buyers = [0u8; 256];
    let mut sums = [0u32; 768];
    let opened = call_admission::admit_with_sums(
        book,
        party,
        Matter::Operators,
        store,
        &mut sellers,
        &mut buyers,
        &mut sums,
    );
    call_users::levels(book, opened, &sellers, &buyers, &sums)
}

// Whether a user is flagged.
pub fn flag(book: &[u8], party: Party, store: Option<&[u8]>, id: u32) -> Result<bool, Refusal>
    ensures { flag_told result ≡ told_by (as_party party) (setting_of (lent store.entry)) book.now (flag_of id) }
{
    let opened = call_admission::admit(book, party, Matter::Own(id), store);
    call_told::flag(book, opened, id)
}

// Whether a user is warned at midday.
pub fn warning(book: &[u8], party: Party, store: Option<&[u8]>, id: u32) -> Result<bool, Refusal>
    ensures { warned.reply_of result ≡ enquiry_by (as_party party) (setting_of (lent store.entry)) book.now (warning_of id) }
{
    let opened = call_admission::admit(book, party, Matter::Operators, store);
    call_warning::warning(book, opened, id)
}

// Finds whole eligible trades of a user whose worth at tariff reaches what its afternoon level exceeds its assigned guarantee by, in a
// number of tries.
pub fn cancellation(
    book: &[u8],
    party: Party,
    store: Option<&[u8]>,
    id: u32,
    tries: u32,
) -> Result<Cancellation, Refusal>
    ensures { cancellation_of result ≡ cancellation_by (as_party party) (setting_of (lent store.entry)) book.now id tries }
{
    let mut sellers = [0u8; 256];
    let mut buyers = [0u8; 256];
    let mut sums = [0u32; 768];
    let opened = call_admission::admit_with_sums(
        book,
        party,
        Matter::Operators,
        store,
        &mut sellers,
        &mut buyers,
        &mut sums,
    );
    call_cancellation::cancellation(book, opened, &sellers, &buyers, &mut sums, id, tries)
}

// ---- the trades that a user may see

// How many trades a user may see.
pub fn trade_count(book: &[u8], party: Party, store: Option<&[u8]>, id: u32) -> Result<u32, Refusal>
    ensures { count_told result ≡ told_by (as_party party) (setting_of (lent store.entry)) book.now (count_of id) }
{
    let mut sellers = [0u8; 256];
    let mut buyers = [0u8; 256];
    let mut sums = [0u32; 768];
    let opened = call_admission::admit_with_sums(
        book,
        party,
        Matter::Own(id),
        store,
        &mut sellers,
        &mut buyers,
        &mut sums,
    );
    call_told::count(book, opened, &sellers, &buyers, id)
}

// The 20 bytes of the trade of an ordinal, from 0 in book order, among those that a user may see, as that part of the book; none past the
// last.
pub fn trade<'a>(
    book: &'a [u8],
    party: Party,
    store: Option<&[u8]>,
    id: u32,
    ordinal: u32,
) -> Result<Option<&'a [u8]>, Refusal>
    ensures handed { TradeHanded (as_party party) (setting_of (lent store.entry)) book.now id ordinal (number_in result) (told.bytes_of result) book.entry.ref_ptr (told.place_in book.entry.ref_ptr result) }
    ensures whole { IfOk result (λ shown. IfSome shown (λ part. length part.now ≡ 20)) }
{
    let mut sellers = [0u8; 256];
    let mut buyers = [0u8; 256];
    let mut sums = [0u32; 768];
    let opened = call_admission::admit_with_sums(
        book,
        party,
        Matter::Own(id),
        store,
        &mut sellers,
        &mut buyers,
        &mut sums,
    );
    call_told::trade(book, opened, &sellers, &buyers, id, ordinal)
}
