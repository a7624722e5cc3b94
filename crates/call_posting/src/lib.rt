// The posting: a signed amount added to one user's physical entry and position in one area, on a lent book in bytes.
#![tactic(auto)]

ghost use Rattle.std.specs.Prelude.{◌≡◌, ◌<◌, ◌+ℤ◌, true, false, IfOk, MatchOption};
ghost use Rattle.refusals.specs.Refusal.{number_in};
ghost use Rattle.rules.specs.Levels as rules;
ghost use Rattle.rules.specs.Signed.{signed_of, within};
ghost use Rattle.rules.specs.Calls.{only};
ghost use Rattle.book_format.specs.Book.{count_of_users, size_of_header, version_of, size_of_user};
ghost use Rattle.book_format.specs.Questions.{book_number};
ghost use Rattle.book_format.specs.After.{CalledAfter};
ghost use Rattle.call_posting.specs.Posting.{Ready, PostedTo, PostedAt, posting_of};

use refusals::Refusal;
use units::{Limits, Net};

// The bits of a physical entry and of its position after a posting.
#[derive(Clone, Copy)]
struct Change {
    entry: u32,
    position: u32,
}

// An amount added to an entry and its position, each as its bits; none where the new entry is out of range.
fn post(entry: u32, position: u32, amount: i64) -> Option<Change>
    requires { Ready entry position }
    ensures { MatchOption result (within 1000000 (signed_of 32 entry +ℤ amount) ≡ false) (λ change. PostedTo entry position amount true change.entry change.position) }
{
    let old = Net::of_bits(entry);
    let new = old.posted(amount)?;
    let held = Net::of_bits(position);
    let moved = held.moved(old, new);
    Some(Change {
        entry: new.bits(),
        position: moved.bits(),
    })
}

// Adds an amount to the physical entry and the position of the user at a place, of the records of a size that begin at `at`, in an area.
// Where it is refused nothing is changed. Of the user's record it reads and writes these two fields alone.
pub fn post_at(
    book: &mut [u8],
    at: usize,
    size: usize,
    place: usize,
    area: u32,
    amount: i64,
) -> Result<(), Refusal>
    requires { (book_number book.old ≡ 0) × (place < count_of_users book.old) × (at ≡ size_of_header (version_of book.old)) × (size ≡ size_of_user (version_of book.old)) }
    ensures { PostedAt place area amount book.old (number_in result) book.new }
{
    if 2 < area {
        return Err(Refusal::InvalidPosting);
    }
    let a = book_format::user_offset_from(book, at, size, place) + (8 + 4 * area as usize);
    let entry = fields::get_u32(book, a);
    let position = fields::get_u32(book, a + book_records::ENTRY_TO_POSITION);
    let Some(change) = post(entry, position, amount) else {
        return Err(Refusal::InvalidPosting);
    };
    fields::put_u32(book, a, change.entry);
    fields::put_u32(book, a + book_records::ENTRY_TO_POSITION, change.position);
    Ok(())
}

// Adds an amount to a user's physical entry and position in an area, after the opening questions, which give the figures of the limits or
// are refused. Where the call is refused nothing is changed. It takes no figure of the limits.
pub fn posting(
    book: &mut [u8],
    opened: Result<Limits, Refusal>,
    id: u32,
    area: u32,
    amount: i64,
) -> Result<(), Refusal>
    requires { IfOk opened (λ limits. book_number book.old ≡ 0) }
    ensures { (limits : rules.Limits) → CalledAfter (number_in opened) limits book.old (posting_of id area amount) (only (number_in result)) book.new }
{
    let entry = call_entry::seek(book, opened, id)?;
    let at = book_format::users_offset(book);
    let size = book_format::users_size(book);
    post_at(book, at, size, entry.place, area, amount)
}
