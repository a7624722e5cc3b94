// Signed amounts in two's complement, their ranges, the posting's sum, and the prices of the areas.
use crate::text;
use std::io;
use std::io::Write;
use units::{Area, Balance, Flow, Net, Prices};

// An energy with its sign.
fn energy(out: &mut impl Write, z: Net) -> io::Result<()> {
    text::signed(out, z.long().0, z.short().0)
}

// Money with its sign.
fn money(out: &mut impl Write, z: Balance) -> io::Result<()> {
    text::signed(out, z.owed().0, z.credit().0)
}

// 32 bits, the energy that they stand for, its bits again, and whether it is within the range of a physical entry.
fn net(out: &mut impl Write, bits: u32) -> io::Result<()> {
    let z = Net::of_bits(bits);
    text::write(out, b"net")?;
    text::number(out, bits as u64)?;
    energy(out, z)?;
    text::number(out, z.bits() as u64)?;
    text::answer(out, z.is_entry())?;
    text::end(out)
}

// 64 bits, the money that they stand for, its bits again, and whether it is within the range of charges.
fn balance(out: &mut impl Write, bits: u64) -> io::Result<()> {
    let z = Balance::of_bits(bits);
    text::write(out, b"balance")?;
    text::number(out, bits)?;
    money(out, z)?;
    text::number(out, z.bits())?;
    text::answer(out, z.is_charges())?;
    text::end(out)
}

// A posting: the entry before, the amount, whether it is accepted, and the entry after.
fn posting(out: &mut impl Write, bits: u32, amount: i64) -> io::Result<()> {
    let old = Net::of_bits(bits);
    let flow = Flow::of(amount);
    let posted = old.posted(amount);
    text::write(out, b"posting")?;
    energy(out, old)?;
    text::signed(out, flow.inflow.0, flow.outflow.0)?;
    text::answer(out, posted.is_some())?;
    energy(out, posted.unwrap_or(old))?;
    text::end(out)
}

// An area's tariff, reference price and selling tariff on a day with P 2000, Q 2100, L 300, X 100, I 50, S 1500 and U 900.
fn area(out: &mut impl Write, code: u8) -> io::Result<()> {
    let prices = Prices {
        p: 2000,
        q: 2100,
        l: 300,
        x: 100,
        i: 50,
        s: 1500,
        u: 900,
    };
    let tariff = Area(code).tariff(prices);
    let reference = Area(code).reference_price(prices);
    let selling = Area(code).selling_tariff(prices);
    text::write(out, b"area")?;
    text::number(out, code as u64)?;
    text::number(out, tariff.0 as u64)?;
    text::number(out, reference.0 as u64)?;
    text::number(out, selling.0 as u64)?;
    text::end(out)
}

// Energies: on both sides of 0, at the ends of 32 bits, and at the ends of the range and one past each.
fn nets(out: &mut impl Write) -> io::Result<()> {
    net(out, 0)?;
    net(out, 1)?;
    net(out, 4294967295)?;
    net(out, 2147483647)?;
    net(out, 2147483648)?;
    net(out, 1000000)?;
    net(out, 1000001)?;
    net(out, 4293967296)?;
    net(out, 4293967295)
}

// The same of money, at 64 bits.
fn balances(out: &mut impl Write) -> io::Result<()> {
    balance(out, 0)?;
    balance(out, 1)?;
    balance(out, 18446744073709551615)?;
    balance(out, 9223372036854775807)?;
    balance(out, 9223372036854775808)?;
    balance(out, 1000000000000)?;
    balance(out, 1000000000001)?;
    balance(out, 18446743073709551616)?;
    balance(out, 18446743073709551615)
}

// Postings: to the ends of the range and one past each, and the ends of 64 bits, from 0 and from both ends of 32 bits.
fn postings(out: &mut impl Write) -> io::Result<()> {
    posting(out, 0, 0)?;
    posting(out, 0, 1000000)?;
    posting(out, 0, 1000001)?;
    posting(out, 0, -1000000)?;
    posting(out, 0, -1000001)?;
    posting(out, 1000000, -2000000)?;
    posting(out, 1000000, -2000001)?;
    posting(out, 1000000, 1)?;
    posting(out, 4293967296, 2000000)?;
    posting(out, 4293967296, 2000001)?;
    posting(out, 4293967296, -1)?;
    posting(out, 0, 9223372036854775807)?;
    posting(out, 0, -9223372036854775808)?;
    posting(out, 2147483647, 9223372036854775807)?;
    posting(out, 2147483648, -9223372036854775808)
}

// The vectors of the units.
pub fn run(out: &mut impl Write) -> io::Result<()> {
    nets(out)?;
    balances(out)?;
    postings(out)?;
    area(out, Area::PVB)?;
    area(out, Area::TVB)?;
    area(out, Area::AVB)
}
