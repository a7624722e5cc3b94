// Days: the books of the files `vectors`, `books`, `versions` and `groups` are run, and for each a line `day` and its place are printed,
// and then its day, as the program `day` prints it. data/index says what each book shows. In a file a book stands behind its place and its
// length, two bytes each. A file that does not open is named on standard error, and the next one follows. A read or a write that fails ends
// the program with its error.
#![tactic(auto)]

use std::io;
use std::io::{Eprint, Write};
use std::rt::Files;

// The day of one book.
fn print_day(out: &mut impl Write, place: u16, book: &mut [u8]) -> io::Result<()> {
    writeln!(out, "day {place}")?;
    day_print::day(out, book)
}

// The day of every book of a file, up to the last that is whole.
fn print_days(out: &mut impl Write, file: &mut [u8]) -> io::Result<()> {
    let mut at = 0;
    // From book to book, each as long as its own length says.
    while 4 <= file.len() - at {
        let place = fields::get_u16(file, at);
        let len = fields::get_u16(file, at + 2) as usize;
        let start = at + 4;
        if file.len() - start < len {
            return Ok(());
        }
        let end = start + len;
        print_day(out, place, &mut file[start..end])?;
        at = end;
    }
    Ok(())
}

// The days of the file of a name.
fn print_file(rt: &(impl Files + Eprint), out: &mut impl Write, name: &str) -> io::Result<()> {
    let mut file = [0u8; 65536];
    let n = day_print::read_file(rt, name, &mut file)?;
    print_days(out, &mut file[..n])
}

fn main(rt: HostRuntime) -> io::Result<()> {
    let mut out = io::writer(&rt);
    print_file(&rt, &mut out, "vectors")?;
    print_file(&rt, &mut out, "books")?;
    print_file(&rt, &mut out, "versions")?;
    print_file(&rt, &mut out, "groups")
}
