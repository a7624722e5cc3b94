// Reads a book from standard input, runs it and prints its day. The longest book has 9,512 bytes: one byte more is all that has to be read
// of a longer input, which is refused. A read or a write that fails ends the program with its error.
#![tactic(auto)]

use std::io;

fn main(rt: HostRuntime) -> io::Result<()> {
    let mut book = [0u8; 9513];
    let n = day_print::read_full(&mut rt.stdin(), &mut book)?;
    day_print::day(&mut io::writer(&rt), &mut book[..n])
}
