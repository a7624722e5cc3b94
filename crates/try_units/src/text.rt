// Words and numbers, to the writer that is given. The first write that fails ends the program with its error.
use std::io;
use std::io::Write;

// Bytes as they are.
pub fn write(out: &mut impl Write, text: &[u8]) -> io::Result<()> {
    out.write_all(text)
}

// The end of a line.
pub fn end(out: &mut impl Write) -> io::Result<()> {
    write(out, b"\n")
}

// A space, and a number in decimal.
pub fn number(out: &mut impl Write, n: u64) -> io::Result<()> {
    write!(out, " {n}")
}

// A space, and a number with its sign, from what it is above 0 and what it is below 0.
pub fn signed(out: &mut impl Write, above: u64, below: u64) -> io::Result<()> {
    if 0 < below {
        write!(out, " -{below}")
    } else {
        number(out, above)
    }
}

// A space, and 1 for yes or 0 for no.
pub fn answer(out: &mut impl Write, yes: bool) -> io::Result<()> {
    if yes { number(out, 1) } else { number(out, 0) }
}

// A line: what is asked, a number, and the answer.
pub fn asked(out: &mut impl Write, name: &[u8], n: u64, yes: bool) -> io::Result<()> {
    write(out, name)?;
    number(out, n)?;
    answer(out, yes)?;
    end(out)
}

// A byte in hexadecimal, two digits.
fn byte(out: &mut impl Write, b: u8) -> io::Result<()> {
    write!(out, "{b:02x}")
}

// A space, and bytes in hexadecimal.
pub fn bytes(out: &mut impl Write, s: &[u8]) -> io::Result<()> {
    write(out, b" ")?;
    for b in s {
        byte(out, *b)?;
    }
    Ok(())
}
