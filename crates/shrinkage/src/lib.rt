// Return of retained shrinkage: half of a negative total of the users' balances goes back to the users whose own balance is negative, in
// proportion to it, over 30 days. A balance is a number of kWh with a sign. The public functions are `shrinkage_return` and `over_days`;
// they take any balances and any share, and no book.
#![tactic(auto)]

ghost use Rattle.std.specs.Prelude.{◌≡◌, ◌*◌, ◌≤◌, ◌<◌, ◌^◌, length, Ok};
ghost use Rattle.base.specs.Parts.{pos_part, neg_part};
ghost use Rattle.shrinkage.specs.Return.{returned, nothing};
ghost use Rattle.shrinkage.specs.Days.{value_on_day, values_over_days};
ghost use Rattle.shrinkage.specs.Answer.{kwh_of, as_returned, SumsOf, Divisible, SharesOf};

use refusals::Refusal;

// An energy, in kWh.
#[derive(Clone, Copy)]
pub struct Kwh(pub u64);

// ---- balances

// What a balance is above 0, and what it is below 0: one of the two is 0.
#[derive(Clone, Copy)]
struct Sides {
    above: Kwh,
    below: Kwh,
}

impl Sides {
    // The sides of a balance, in kWh.
    fn of(balance: i64) -> Sides
        ensures above_value { (result.above.0 ≡ pos_part balance) × (result.below.0 ≡ neg_part balance) }
        ensures above_bound { (result.above.0 < 2 ^ 63) × (result.below.0 ≤ 2 ^ 63) }
    {
        let size = Kwh(balance.unsigned_abs());
        if balance < 0 {
            Sides {
                above: Kwh(0),
                below: size,
            }
        } else {
            Sides {
                above: size,
                below: Kwh(0),
            }
        }
    }
}

// What balances sum to above 0 and below 0.
#[derive(Clone, Copy)]
struct Sums {
    above: Kwh,
    below: Kwh,
}

// The sums of balances, of which there are at most 64, unless one of them is out of range.
fn sums_of(balances: &[i64]) -> Result<Sums, Refusal>
    requires { length balances.now ≤ 64 }
    ensures { SumsOf balances.now result }
{
    let mut above = 0;
    let mut below = 0;
    for balance in balances {
        let sides = Sides::of(*balance);
        if 500000000 < sides.above.0 + sides.below.0 {
            return Err(Refusal::BalanceOutOfRange);
        }
        above += sides.above.0;
        below += sides.below.0;
    }
    Ok(Sums {
        above: Kwh(above),
        below: Kwh(below),
    })
}

// ---- shares

// The share and the remainder of each user, in the user's place, and what all shares give.
#[derive(Clone, Copy)]
struct Shares {
    shares: [Kwh; 64],
    remainders: [u64; 64],
    given: Kwh,
}

// half × own, in kWh times kWh: at most 8 × 10^18, which has 63 bits.
fn product(half: Kwh, own: Kwh) -> u64
    requires { (half.0 ≤ 16000000000) × (own.0 ≤ 500000000) }
    ensures { result ≡ half.0 * own.0 }
{
    half.0 * own.0
}

// The shares of users in a half, by what their balances are below 0.
fn shares_of(balances: &[i64], half: Kwh, sum: Kwh) -> Shares
    requires { Divisible balances.now half.0 sum.0 }
    ensures { SharesOf balances.now half.0 sum.0 result }
{
    let none = Kwh(0);
    let mut shares = [none; 64];
    let mut remainders = [0u64; 64];
    let mut given = 0;
    for (i, balance) in balances.iter().enumerate() {
        let own = Sides::of(*balance).below;
        let dividend = product(half, own);
        let share = dividend / sum.0;
        shares[i] = Kwh(share);
        remainders[i] = dividend % sum.0;
        given += share;
    }
    Shares {
        shares,
        remainders,
        given: Kwh(given),
    }
}

// ---- the return

// Half of the total's absolute value, the odd kWh, the users' shares with the remainders of their divisions, and the rest of the half,
// which stays in the system account; 0 in every field for a total of 0 or above.
#[derive(Clone, Copy)]
pub struct ShrinkageReturn {
    pub half: Kwh,
    pub odd: Kwh,
    pub shares: [Kwh; 64],
    pub remainders: [u64; 64],
    pub rest: Kwh,
}

impl ShrinkageReturn {
    // What a total of 0 or above returns.
    fn nothing() -> ShrinkageReturn
        ensures { as_returned (Ok result) ≡ nothing 0 }
    {
        let none = Kwh(0);
        ShrinkageReturn {
            half: none,
            odd: none,
            shares: [none; 64],
            remainders: [0; 64],
            rest: none,
        }
    }
}

// The return for the users' balances, in their order.
pub fn shrinkage_return(balances: &[i64]) -> Result<ShrinkageReturn, Refusal>
    ensures { as_returned result ≡ returned balances.now }
{
    if 64 < balances.len() {
        return Err(Refusal::TooManyUsers);
    }
    let Sums { above, below } = sums_of(balances)?;
    if below.0 <= above.0 {
        return Ok(ShrinkageReturn::nothing());
    }
    let negative = below.0 - above.0;
    let half = Kwh(negative / 2);
    let Shares {
        shares,
        remainders,
        given,
    } = shares_of(balances, half, below);
    Ok(ShrinkageReturn {
        half,
        odd: Kwh(negative % 2),
        shares,
        remainders,
        rest: Kwh(half.0 - given.0),
    })
}

// ---- 30 days

// One day of a share: the whole part, and one kWh more on as many days from the first as the remainder has.
fn on_day(whole: u64, left: u64, day: usize) -> Kwh
    requires { whole < 2 ^ 63 }
    ensures { result.0 ≡ value_on_day whole left day }
{
    if (day as u64) < left {
        Kwh(whole + 1)
    } else {
        Kwh(whole)
    }
}

// A share over 30 days.
pub fn over_days(share: Kwh) -> [Kwh; 30]
    ensures { kwh_of result ≡ values_over_days share.0 }
{
    let whole = share.0 / 30;
    let left = share.0 % 30;
    let none = Kwh(0);
    let mut days = [none; 30];
    for day in 0..30 {
        days[day] = on_day(whole, left, day);
    }
    days
}
