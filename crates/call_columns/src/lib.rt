// Field-wise storage: the form of a book written to an output after the book's opening questions, and the book of a form written to an
// output. A refused call leaves the output as it is, a longer output keeps its rest.
#![tactic(auto)]

ghost use Rattle.std.specs.Prelude.{◌≡◌, length};
ghost use Rattle.book_format.specs.Questions.{book_number};
ghost use Rattle.refusals.specs.Refusal.{number_in};
ghost use Rattle.outputs.specs.Output.{Wrote};
ghost use Rattle.book_columns.specs.Calls.{restored, stored_after};
ghost use Rattle.call_columns.specs.Rebuilt.{longest, Rebuilt};

use refusals::Refusal;

// The bytes of the longest book.
const LONGEST: usize = 9512;

// Writes the form of a book whose opening questions were asked to the front of an output; the first question answered by no refuses it.
pub fn form(book: &[u8], opened: Result<(), Refusal>, out: &mut [u8]) -> Result<(), Refusal>
    requires { number_in opened ≡ 0 → book_number book.now ≡ 0 }
    ensures { Wrote (stored_after (number_in opened) book.now out.old) (number_in result) out.new }
{
    opened?;
    let size = book.len();
    if out.len() < size {
        return Err(Refusal::FormOutputTooShort);
    }
    book_columns::rearrange(book, false, 0x46_44_47, &mut out[..size]);
    Ok(())
}

// Does a form yield an accepted book? Where it does, the book stands at the front of the room afterwards.
fn rebuild(form: &[u8], room: &mut [u8]) -> bool
    requires { length room.old ≡ longest }
    ensures { Rebuilt form.now result room.new }
{
    if !book_columns::is_shaped(form) {
        return false;
    }
    let size = form.len();
    book_columns::rearrange(form, true, 0x42_44_47, &mut room[..size]);
    let asked = book_questions::check(&room[..size]);
    asked.is_ok()
}

// Writes the book of a form to the front of an output by way of a room for the longest book; a form that yields none, or an output that is
// too short, is refused.
fn restore_by(form: &[u8], room: &mut [u8], out: &mut [u8]) -> Result<(), Refusal>
    requires { length room.old ≡ longest }
    ensures { Wrote (restored form.now out.old) (number_in result) out.new }
{
    if !rebuild(form, room) {
        return Err(Refusal::InvalidForm);
    }
    let size = form.len();
    if out.len() < size {
        return Err(Refusal::FormOutputTooShort);
    }
    out[..size].copy_from_slice(&room[..size]);
    Ok(())
}

// The same, in a room of its own.
pub fn restore(form: &[u8], out: &mut [u8]) -> Result<(), Refusal>
    ensures { Wrote (restored form.now out.old) (number_in result) out.new }
{
    let mut room = [0u8; LONGEST];
    restore_by(form, &mut room, out)
}
