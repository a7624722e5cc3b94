// The shown record: a user's bytes, 56 or in version 3 all 68, as that part of the lent book, no copy and no offset.
#![tactic(auto)]

ghost use Rattle.std.specs.Prelude.{◌≡◌, IfOk};
ghost use Rattle.refusals.specs.Refusal.{number_in};
ghost use Rattle.book_format.specs.Questions.{book_number};
ghost use Rattle.call_show.specs.Shown.{ShownAfter, PartAfter, bytes_of, place_in, picked, picked_at};

use refusals::Refusal;
use units::Limits;

// The record of the user of an id as a part of the book, after the opening questions.
pub fn show<'a>(
    book: &'a [u8],
    opened: Result<Limits, Refusal>,
    id: u32,
) -> Result<&'a [u8], Refusal>
    requires { IfOk opened (λ limits. book_number book.now ≡ 0) }
    ensures shown_after { ShownAfter (number_in opened) book.now id (number_in result) (bytes_of result) }
    ensures part_after { PartAfter (number_in opened) book.now id book.entry.ref_ptr (place_in book.entry.ref_ptr result) }
{
    let entry = call_entry::seek(book, opened, id)?;
    let a = book_format::user_offset(book, entry.place);
    let size = book_format::users_size(book);
    Ok(&book[a..a + size])
}

// The picked one of two books of one lifetime: the afternoon's where `afternoon_picked` is yes, else the morning's.
#[tactic(auto, unfolding(crate::specs::Shown::picked, crate::specs::Shown::picked_at))]
pub fn pick<'a>(morning: &'a [u8], afternoon: &'a [u8], afternoon_picked: bool) -> &'a [u8]
    ensures result_value { result.now ≡ picked afternoon_picked morning.now afternoon.now }
    ensures ref_ptr_value { result.ref_ptr ≡ picked_at afternoon_picked morning.entry.ref_ptr afternoon.entry.ref_ptr }
{
    if afternoon_picked { afternoon } else { morning }
}
