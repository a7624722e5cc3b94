// What a party is told of a user: the flag, the trades that the user may see, and its record.

use call_rights::Party;
use refusals::Refusal;
use std::io;
use std::io::Write;

// Bytes that are handed out, in hexadecimal, none where they are refused, and the number.
fn print_part(out: &mut impl Write, part: Result<&[u8], Refusal>) -> io::Result<()> {
    let (bytes, number): (&[u8], u32) = match part {
        Ok(bytes) => (bytes, 0),
        Err(refusal) => (b"", refusal.number()),
    };
    crate::numbers::print_bytes(out, bytes)?;
    day_print::number(out, number as u64)
}

// The trade of an ordinal; past the last no bytes.
fn print_trade(
    out: &mut impl Write,
    book: &[u8],
    party: Party,
    id: u32,
    ordinal: u32,
) -> io::Result<()> {
    match daybook::trade(book, party, None, id, ordinal) {
        Ok(Some(part)) => print_part(out, Ok(part)),
        Ok(None) => print_part(out, Ok(b"")),
        Err(refusal) => print_part(out, Err(refusal)),
    }
}

// The number of the flag and the flag, the number of the count and the count, each trade and its number, past the last too, and the record.
pub fn tell(out: &mut impl Write, book: &[u8], party: Party, id: u32) -> io::Result<()> {
    let flagged = daybook::flag(book, party, None, id);
    crate::print_answer(out, flagged.map(|flagged| [flagged as u64]))?;
    let told = daybook::trade_count(book, party, None, id);
    crate::print_answer(out, told.map(|count| [count as u64]))?;
    let count = told.unwrap_or(0);
    for ordinal in 0..count {
        print_trade(out, book, party, id, ordinal)?;
    }
    print_trade(out, book, party, id, count)?;
    print_part(out, daybook::show(book, party, None, id))
}
