// A book written another way to a lent output: as another version, field by field, and back. A refused call leaves the output as it is, a
// longer output keeps its rest. What is said at the head of lib.rt holds of them; the way back is asked of no party.
ghost use Rattle.outputs.specs.Output.{Wrote};
ghost use Rattle.book_columns.specs.Calls.{restored};
ghost use Rattle.conversions.specs.Acting.{conversion_by};
ghost use Rattle.rights.specs.Outputs.{stored_by};
ghost use Rattle.refusals.specs.Refusal.{number_in};
ghost use Rattle.call_rights.specs.Acting.{as_party};

use call_rights::{Matter, Party};
use refusals::Refusal;

// Writes a book as a version to the front of an output.
pub fn convert(book: &[u8], party: Party, version: u32, out: &mut [u8]) -> Result<(), Refusal>
    ensures { Wrote (conversion_by (as_party party) version book.now out.old) (number_in result) out.new }
{
    let asked = book_questions::check(book);
    let entered = call_rights::ask(book, asked, party, Matter::Operators);
    call_conversion::convert(book, entered, version, out)
}

// Writes a book field by field to the front of an output.
pub fn form(book: &[u8], party: Party, out: &mut [u8]) -> Result<(), Refusal>
    ensures { Wrote (stored_by (as_party party) book.now out.old) (number_in result) out.new }
{
    let asked = book_questions::check(book);
    let entered = call_rights::ask(book, asked, party, Matter::Operators);
    call_columns::form(book, entered, out)
}

// Writes the book of such a form to the front of an output; or refuses where the form yields no accepted book, and where the output is too
// short.
pub fn restore(form: &[u8], out: &mut [u8]) -> Result<(), Refusal>
    ensures { Wrote (restored form.now out.old) (number_in result) out.new }
{
    call_columns::restore(form, out)
}
