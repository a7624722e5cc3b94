// Returns of shrinkage and shares over 30 days: each goes through the module and is printed, a line each. The file stdout, made by another
// implementation, holds the program to it.
#![tactic(auto)]

ghost use Rattle.std.specs.Prelude.{◌<◌};

use shrinkage::Kwh;
use std::io;
use std::io::Write;

// A space, and a number in decimal.
fn number(out: &mut impl Write, n: u64) -> io::Result<()> {
    write!(out, " {n}")
}

// The return for balances: number, which is 0 where it is not refused, half, odd kWh and rest, and the shares and the remainders of two
// users by their places.
fn returned(out: &mut impl Write, balances: &[i64], first: usize, second: usize) -> io::Result<()>
    requires { (first < 64) × (second < 64) }
{
    match shrinkage::shrinkage_return(balances) {
        Ok(r) => {
            let one = r.shares[first].0;
            let other = r.shares[second].0;
            let one_left = r.remainders[first];
            let other_left = r.remainders[second];
            let (half, odd, rest) = (r.half.0, r.odd.0, r.rest.0);
            writeln!(
                out,
                "return 0 {half} {odd} {rest} {one} {one_left} {other} {other_left}"
            )
        }
        Err(refusal) => {
            let number = refusal.number();
            writeln!(out, "return {number} 0 0 0 0 0 0 0")
        }
    }
}

// A share over 30 days: the first day, two days in the middle, and the last.
fn spread(out: &mut impl Write, share: u64) -> io::Result<()> {
    let days = shrinkage::over_days(Kwh(share));
    out.write_all(b"days")?;
    number(out, days[0].0)?;
    number(out, days[14].0)?;
    number(out, days[15].0)?;
    number(out, days[29].0)?;
    out.write_all(b"\n")
}

fn main(rt: HostRuntime) -> io::Result<()> {
    let mut out = io::writer(&rt);
    // nobody, and totals of 0 and above
    returned(&mut out, &[], 0, 63)?;
    returned(&mut out, &[-5, 5], 0, 1)?;
    returned(&mut out, &[-5, 6], 0, 1)?;
    // one kWh below 0, two, and shares that leave a rest
    returned(&mut out, &[-1], 0, 1)?;
    returned(&mut out, &[-1, -1], 0, 1)?;
    returned(&mut out, &[-100, 50, -25], 0, 2)?;
    returned(&mut out, &[-7, -7, -7], 0, 1)?;
    // the largest balances
    let low: i64 = -500000000;
    returned(&mut out, &[low; 64], 0, 63)?;
    // out of range, and more than 64 users, which is asked first
    returned(&mut out, &[low - 1], 0, 1)?;
    returned(&mut out, &[500000001, -500000000], 0, 1)?;
    returned(&mut out, &[-9223372036854775808, 9223372036854775807], 0, 1)?;
    returned(&mut out, &[low; 65], 0, 63)?;
    returned(&mut out, &[low - 1; 65], 0, 63)?;
    // shares over 30 days
    spread(&mut out, 0)?;
    spread(&mut out, 29)?;
    spread(&mut out, 30)?;
    spread(&mut out, 45)?;
    spread(&mut out, 18446744073709551615)
}
