// The store of parameter sets, in any bytes: is it well formed, which of its sets is in force on a book's date, and the figures that a call
// takes from it.
#![tactic(auto)]

ghost use Rattle.std.specs.Prelude.{◌≡◌, ◌+◌, ◌*◌, ◌≤◌, length};
ghost use Rattle.std.proofs.Math.Option.{some};
ghost use Rattle.refusals.specs.Refusal.{number_in};
ghost use Rattle.store.specs.Store.{set_of, sets_from, store_formed, set_is_valid, sets_are_valid, set_in_force};
ghost use Rattle.store.specs.Asked.{as_set, figures_in, lent, ByForce, ByStore};

use refusals::Refusal;
use units::{Cents, Energy, Limits};

// A parameter set: its figures, and the first date on which they are in force. They are as the bytes have them: whether they are valid is
// asked apart.
#[derive(Clone, Copy)]
pub struct ParameterSet {
    pub first: u32,
    pub limits: Limits,
}

// ---- form

// Are mark, version and count as they should be, with as many bytes as the count asks for?
fn is_formed(s: &[u8]) -> bool
    ensures { result ≡ store_formed s.now }
{
    if s.len() < 6 {
        return false;
    }
    let mark = fields::get(s, 0, 3);
    let version = fields::get_u16(s, 3);
    let n = fields::get_u8(s, 5) as usize;
    (mark == 0x53_50_47) & ((version == 1) & ((n <= 32) & (s.len() == 6 + 24 * n)))
}

// ---- sets

// The set that 24 bytes hold.
fn read_set(c: &[u8]) -> ParameterSet
    requires { length c.now ≡ 24 }
    ensures { as_set result ≡ set_of c.now }
{
    ParameterSet {
        first: fields::get_u32(c, 0),
        limits: Limits {
            margin: Cents(fields::get_u64(c, 8)),
            floor: Cents(fields::get_u64(c, 16)),
            flag_mwh: Energy(fields::get_u32(c, 4) as u64),
        },
    }
}

// Is the first date a real day, and is each figure in its range?
fn set_valid(p: ParameterSet) -> bool
    ensures { result ≡ set_is_valid (as_set p) }
{
    let day = calendar::is_real_day(p.first);
    let limits = p.limits;
    day & ((limits.flag_mwh.0 <= 1000000)
        & ((limits.margin.0 <= 1000000000000) & (limits.floor.0 <= 1000000000000)))
}

// Do the first dates of the n sets strictly rise, and is each set valid?
fn sets_valid(s: &[u8], n: usize) -> bool
    requires { 6 + 24 * n ≤ length s.now }
    ensures { result ≡ sets_are_valid 0 (sets_from n s.now) }
{
    let mut last = 0;
    for i in 0..n {
        let a = 6 + 24 * i;
        let p = read_set(&s[a..a + 24]);
        if p.first <= last {
            return false;
        }
        if !set_valid(p) {
            return false;
        }
        last = p.first;
    }
    true
}

// ---- figures

// The figures of the set in force on a date: the sets are asked from the last one down, and the first that has begun by then is the one.
fn in_force(s: &[u8], n: usize, date: u32) -> Result<Limits, Refusal>
    requires { 6 + 24 * n ≤ length s.now }
    ensures { ByForce (set_in_force date (sets_from n s.now)) (number_in result) (figures_in result) }
{
    for i in (0..n).rev() {
        let a = 6 + 24 * i;
        let p = read_set(&s[a..a + 24]);
        if p.first <= date {
            return Ok(p.limits);
        }
    }
    Err(Refusal::NoSetInForce)
}

// The figures of a store on a date.
fn of_store(s: &[u8], date: u32) -> Result<Limits, Refusal>
    ensures { ByStore (some s.now) date (number_in result) (figures_in result) }
{
    if !is_formed(s) {
        return Err(Refusal::MalformedStore);
    }
    let n = fields::get_u8(s, 5) as usize;
    if !sets_valid(s, n) {
        return Err(Refusal::MalformedStore);
    }
    in_force(s, n, date)
}

// The figures of a call on a book of a date: those of its store, today's where it is given none.
pub fn figures_on(date: u32, store: Option<&[u8]>) -> Result<Limits, Refusal>
    ensures { ByStore (lent store.entry) date (number_in result) (figures_in result) }
{
    match store {
        Some(s) => of_store(s, date),
        None => Ok(Limits::today()),
    }
}
