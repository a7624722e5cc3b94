// Vectors: known values go through the calendar, the fields and the units, and what these answer is printed, a line each.
// The file stdout holds the program to it.
#![tactic(auto)]

mod amounts;
mod dates;
mod text;
mod widths;

use std::io;

fn main(rt: HostRuntime) -> io::Result<()> {
    let mut out = io::writer(&rt);
    dates::run(&mut out)?;
    widths::run(&mut out)?;
    amounts::run(&mut out)
}
