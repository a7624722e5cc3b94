// Fields of 1, 2, 4 and 8 bytes, written into ten bytes of ee and read back: at 0, 1, all ones, and on both sides of the sign's bit.
use crate::text;
use std::io;
use std::io::Write;

// A line: the width, what was written, the ten bytes after it, and what was read back.
fn line(
    out: &mut impl Write,
    width: u64,
    written: u64,
    bytes: &[u8; 10],
    back: u64,
) -> io::Result<()> {
    text::write(out, b"field")?;
    text::number(out, width)?;
    text::number(out, written)?;
    text::bytes(out, bytes)?;
    text::number(out, back)?;
    text::end(out)
}

// A field of one byte, after the first of ten.
fn field_u8(out: &mut impl Write, v: u8) -> io::Result<()> {
    let mut bytes = [0xee; 10];
    fields::put_u8(&mut bytes, 1, v);
    let back = fields::get_u8(&bytes, 1);
    line(out, 1, v as u64, &bytes, back as u64)
}

// The same of two bytes.
fn field_u16(out: &mut impl Write, v: u16) -> io::Result<()> {
    let mut bytes = [0xee; 10];
    fields::put_u16(&mut bytes, 1, v);
    let back = fields::get_u16(&bytes, 1);
    line(out, 2, v as u64, &bytes, back as u64)
}

// The same of four bytes.
fn field_u32(out: &mut impl Write, v: u32) -> io::Result<()> {
    let mut bytes = [0xee; 10];
    fields::put_u32(&mut bytes, 1, v);
    let back = fields::get_u32(&bytes, 1);
    line(out, 4, v as u64, &bytes, back as u64)
}

// The same of eight bytes.
fn field_u64(out: &mut impl Write, v: u64) -> io::Result<()> {
    let mut bytes = [0xee; 10];
    fields::put_u64(&mut bytes, 1, v);
    let back = fields::get_u64(&bytes, 1);
    line(out, 8, v, &bytes, back)
}

// The vectors of the fields.
pub fn run(out: &mut impl Write) -> io::Result<()> {
    field_u8(out, 0)?;
    field_u8(out, 1)?;
    field_u8(out, 127)?;
    field_u8(out, 128)?;
    field_u8(out, 255)?;
    field_u16(out, 0)?;
    field_u16(out, 1)?;
    field_u16(out, 32767)?;
    field_u16(out, 32768)?;
    field_u16(out, 65535)?;
    field_u32(out, 0)?;
    field_u32(out, 1)?;
    field_u32(out, 2147483647)?;
    field_u32(out, 2147483648)?;
    field_u32(out, 4294967295)?;
    field_u64(out, 0)?;
    field_u64(out, 1)?;
    field_u64(out, 9223372036854775807)?;
    field_u64(out, 9223372036854775808)?;
    field_u64(out, 18446744073709551615)
}
