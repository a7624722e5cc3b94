// A book by value: read from bytes that pass the questions 1 to 7, and written to a lent part of its length, or refused with the first
// question that the bytes so written would fail.
#![tactic(auto)]

ghost use Rattle.std.specs.Prelude.{◌≡◌, ◌+◌, ◌*◌, ◌≤◌, length};
ghost use Rattle.refusals.specs.Refusal.{number_in};
ghost use Rattle.book_tables.specs.Book.{as_book};
ghost use Rattle.book_value.specs.Opened.{Opened, book_in};
ghost use Rattle.book_format.specs.Book.{bytes_of, length_by};
ghost use Rattle.book_questions.specs.Asked.{fields_number_of};
ghost use Rattle.book_value.specs.Written.{InCounts, Written};

use book_tables::Book;
use refusals::Refusal;

// ---- a book opened

// Asks the questions 1 to 7 of any bytes, and reads the book where they pass.
pub fn open(s: &[u8]) -> Result<Book, Refusal>
    ensures { Opened s.now (number_in result) (book_in result) }
{
    book_questions::check(s)?;
    Ok(book_tables::read_book(s))
}

// ---- a book written from its fields

// Asks the questions 4 to 7 of the bytes of a book, which are written to a part lent for it.
fn ask_in(scratch: &mut [u8], b: Book, len: usize) -> Result<(), Refusal>
    requires { InCounts b × (len ≡ length_by b.version b.user_count b.trade_count) × (len ≤ length scratch.old) }
    ensures { number_in result ≡ fields_number_of (bytes_of (as_book b)) }
{
    book_tables::write_book(&mut scratch[..len], b);
    let mut sellers = [0u8; 256];
    let mut buyers = [0u8; 256];
    book_questions::check_fields(&scratch[..len], &mut sellers, &mut buyers)
}

// The same, with a place of its own to write to.
fn ask_written(b: Book, len: usize) -> Result<(), Refusal>
    requires { InCounts b × (len ≡ length_by b.version b.user_count b.trade_count) }
    ensures { number_in result ≡ fields_number_of (bytes_of (as_book b)) }
{
    let mut scratch = [0u8; 9512];
    ask_in(&mut scratch, b, len)
}

// Writes a book to a part of exactly its length; or leaves the part and refuses with the first question that the bytes would fail.
pub fn write(b: Book, out: &mut [u8]) -> Result<(), Refusal>
    ensures { Written b out.old (number_in result) out.new }
{
    let n = b.user_count as usize;
    let m = b.trade_count as usize;
    if !book_format::is_known(b.version) {
        return Err(Refusal::UnknownVersion);
    }
    let counted = ((1 <= n) & (n <= 64)) & (m <= 256);
    if !counted {
        return Err(Refusal::WrongLength);
    }
    let len = book_format::book_length(b.version, n, m);
    if out.len() != len {
        return Err(Refusal::WrongLength);
    }
    ask_written(b, len)?;
    book_tables::write_book(out, b);
    Ok(())
}
