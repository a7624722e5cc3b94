// Numbers out of bytes, and bytes and numbers as text.
use std::io;
use std::io::Write;

// The least number whose top bit is set: 2^63.
const TOP: u64 = 9223372036854775808;

// The amount that 64 bits stand for. Where the top bit is set it is −1 − rest, which is !rest.
pub fn amount_of(bits: u64) -> i64 {
    if bits < TOP {
        return bits as i64;
    }
    let rest = 18446744073709551615 - bits;
    !(rest as i64)
}

// A space and bytes in hexadecimal.
pub fn print_bytes(out: &mut impl Write, part: &[u8]) -> io::Result<()> {
    out.write_all(b" ")?;
    for byte in part {
        write!(out, "{byte:02x}")?;
    }
    Ok(())
}

// Numbers, a space before each.
pub fn print_numbers(out: &mut impl Write, numbers: &[u32]) -> io::Result<()> {
    for number in numbers {
        day_print::number(out, *number as u64)?;
    }
    Ok(())
}
