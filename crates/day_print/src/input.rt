// What the programs read, into a buffer that they give: no longer input than that is wanted. A read that fails ends the reading, and its
// error is returned.
ghost use Rattle.std.specs.Prelude.{◌≤◌, IfOk, length};

use std::fs::File;
use std::io;
use std::io::{Eprint, Read};
use std::rt::Files;

// Reads until the buffer is full or the input ends, and tells how many bytes stand at the buffer's start.
pub fn read_full(input: &mut impl Read, bytes: &mut [u8]) -> io::Result<usize>
    ensures { IfOk result (λ n. n ≤ length bytes.new) }
{
    let mut done = 0;
    // As many reads as it takes: how much one gives is up to the input.
    while done < bytes.len() {
        let n = input.read(&mut bytes[done..])?;
        if n == 0 {
            return Ok(done);
        }
        done += n;
    }
    Ok(done)
}

// The same of the file of a name. Where it does not open, a line on standard error says why, and nothing is read.
pub fn read_file(rt: &(impl Files + Eprint), name: &str, bytes: &mut [u8]) -> io::Result<usize>
    ensures { IfOk result (λ n. n ≤ length bytes.new) }
{
    match File::open(rt, name) {
        Ok(mut file) => read_full(&mut file, bytes),
        Err(e) => {
            eprintln!(rt; "{name}: {e}")?;
            Ok(0)
        }
    }
}
