// A book read into its fields by an acting party, as a struct or as an image: it is the operator's.
#![tactic(auto)]

ghost use Rattle.std.specs.Prelude.{◌≡◌, length};
ghost use Rattle.refusals.specs.Refusal.{number_in};
ghost use Rattle.book_image.specs.Image.{image_size};
ghost use Rattle.book_value.specs.Opened.{book_in};
ghost use Rattle.rights.specs.Read.{ReadBy};
ghost use Rattle.call_rights.specs.Acting.{as_party};
ghost use Rattle.call_read.specs.Image.{ImageReadBy};

use book_tables::Book;
use call_rights::{Matter, Party};
use refusals::Refusal;

// Reads the book that bytes hold, every field of it; the first of the questions 1 to 7 and 26 that is answered by no refuses it.
pub fn read(bytes: &[u8], party: Party) -> Result<Book, Refusal>
    ensures { ReadBy (as_party party) bytes.now (number_in result) (book_in result) }
{
    let asked = book_questions::check(bytes);
    call_rights::ask(bytes, asked, party, Matter::Operators)?;
    Ok(book_tables::read_book(bytes))
}

// The same as an image, that of the book's fields; or an image of 0. The operator's right is not asked for: its questions are asked once.
pub fn read_image(book: &[u8], party: Party, image: &mut [u8]) -> Result<(), Refusal>
    requires { length image.old ≡ image_size }
    ensures { ImageReadBy (as_party party) book.now (number_in result) image.new }
{
    match party {
        Party::Operator => book_image::read(book, image),
        Party::Shipper(_) => {
            image.fill(0);
            let asked = book_questions::check(book);
            call_rights::ask(book, asked, party, Matter::Operators)
        }
    }
}
