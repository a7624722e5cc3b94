// Damaged books: each book of the file `books` is read, and its place in the file and the number that reading answers are printed, a line
// each. data/index says what is wrong with each. In the file a book stands behind its length, a number of two bytes. Where the file does
// not open, that is said on standard error. A read or a write that fails ends the program with its error.
#![tactic(auto)]

use call_rights::Party;
use std::io;
use std::io::Write;

// Reads one book and prints its place and its number.
fn ask(out: &mut impl Write, place: u64, bytes: &[u8]) -> io::Result<()> {
    let number = match daybook::read(bytes, Party::Operator) {
        Ok(_) => 0,
        Err(refusal) => refusal.number(),
    };
    writeln!(out, "{place} {number}")
}

// Reads every book of the file, up to the last that is whole.
fn ask_all(out: &mut impl Write, file: &[u8]) -> io::Result<()> {
    let mut at = 0;
    let mut place = 0;
    // From book to book, each as long as its own length says.
    while 2 <= file.len() - at {
        let len = fields::get_u16(file, at) as usize;
        let start = at + 2;
        if file.len() - start < len {
            return Ok(());
        }
        let end = start + len;
        ask(out, place, &file[start..end])?;
        at = end;
        place += 1;
    }
    Ok(())
}

fn main(rt: HostRuntime) -> io::Result<()> {
    let mut file = [0u8; 65536];
    let n = day_print::read_file(&rt, "books", &mut file)?;
    ask_all(&mut io::writer(&rt), &file[..n])
}
