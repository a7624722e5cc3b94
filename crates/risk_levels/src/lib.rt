// The levels of a user, from its charges, its holdings, the prices and the limits; whether it is flagged, called in, and above the margin.
#![tactic(auto)]

ghost use Rattle.std.specs.Prelude.{◌||◌, ◌≡◌, ◌*◌, ◌≤◌, ◌^◌, min, pos, ◌+ℤ◌, ◌-ℤ◌};
ghost use Rattle.rules.specs.Book.{User};
ghost use Rattle.rules.specs.Levels.{exposure, credit, morning_sum, afternoon_sum, lowest_reference_price};
ghost use Rattle.rules.specs.Levels.{floored, flagged_from, exceeds_its_margin};
ghost use Rattle.units.specs.Amounts.{balance};
ghost use Rattle.units.specs.Prices.{as_prices, InRange};
ghost use Rattle.units.specs.Limits.{as_limits, LimitsInRange};
ghost use Rattle.risk_holdings.specs.Holdings.{held_in, HoldingsWithin, positioned};

use risk_holdings::Holdings;
use units::{Area, Balance, Cents, Limits, Net, Price, Prices};

// The sum over the areas of what short positions are worth.
pub fn exposure(prices: Prices, positions: [Net; 3]) -> Cents
    requires { InRange (as_prices prices) }
    ensures result_value { result.0 ≡ exposure (as_prices prices) (positioned positions) }
    ensures result_bound { result.0 ≤ 900000 * 2 ^ 42 }
{
    let pvb = risk_holdings::short_worth(prices, Area::PVB, positions[0]);
    let tvb = risk_holdings::short_worth(prices, Area::TVB, positions[1]);
    let avb = risk_holdings::short_worth(prices, Area::AVB, positions[2]);
    pvb.plus(tvb).plus(avb)
}

// The sum over the areas of what long positions are worth at the selling tariffs.
pub fn credit(prices: Prices, positions: [Net; 3]) -> Cents
    requires { InRange (as_prices prices) }
    ensures result_value { result.0 ≡ credit (as_prices prices) (positioned positions) }
    ensures result_bound { result.0 ≤ 900000 * 2 ^ 31 }
{
    let pvb = risk_holdings::long_worth(prices, Area::PVB, positions[0]);
    let tvb = risk_holdings::long_worth(prices, Area::TVB, positions[1]);
    let avb = risk_holdings::long_worth(prices, Area::AVB, positions[2]);
    pvb.plus(tvb).plus(avb)
}

// Charges and a worth together, less a credit, and never below the floor.
pub fn floored(limits: Limits, charges: Balance, worth: Cents, credit: Cents) -> Cents
    requires limits_in_range { LimitsInRange (as_limits limits) }
    requires worth_bound { (worth.0 ≤ 1800000 * 2 ^ 42) × (credit.0 ≤ 900000 * 2 ^ 31) }
    ensures { result.0 ≡ floored (as_limits limits) (balance charges +ℤ pos worth.0 -ℤ pos credit.0) }
{
    let due = charges.owed().plus(worth);
    let off = charges.credit().plus(credit);
    if off.plus(limits.floor).exceeds(due) {
        limits.floor
    } else {
        due.less(off)
    }
}

// The morning level of a user with these charges and holdings.
pub fn morning_level(limits: Limits, prices: Prices, charges: Balance, holdings: Holdings) -> Cents
    requires { LimitsInRange (as_limits limits) × InRange (as_prices prices) × HoldingsWithin (2 ^ 40) holdings }
    ensures { result.0 ≡ floored (as_limits limits) (morning_sum (as_prices prices) (held_in holdings) (balance charges)) }
{
    let pvb = risk_holdings::morning_worth(prices, Area::PVB, holdings.pvb);
    let tvb = risk_holdings::morning_worth(prices, Area::TVB, holdings.tvb);
    let avb = risk_holdings::morning_worth(prices, Area::AVB, holdings.avb);
    floored(limits, charges, pvb.plus(tvb).plus(avb), Cents(0))
}

// The afternoon level of a user with these charges and holdings.
pub fn afternoon_level(
    limits: Limits,
    prices: Prices,
    charges: Balance,
    holdings: Holdings,
) -> Cents
    requires { LimitsInRange (as_limits limits) × InRange (as_prices prices) × HoldingsWithin (2 ^ 40) holdings }
    ensures { result.0 ≡ floored (as_limits limits) (afternoon_sum (as_prices prices) (held_in holdings) (balance charges)) }
{
    let pvb = risk_holdings::afternoon_worth(prices, Area::PVB, holdings.pvb);
    let tvb = risk_holdings::afternoon_worth(prices, Area::TVB, holdings.tvb);
    let avb = risk_holdings::afternoon_worth(prices, Area::AVB, holdings.avb);
    let positions = holdings.positions();
    let short = exposure(prices, positions);
    let long = credit(prices, positions);
    floored(limits, charges, pvb.plus(tvb).plus(avb).plus(short), long)
}

// The lower of two prices.
fn lower(a: Price, b: Price) -> Price
    ensures { result.0 ≡ min a.0 b.0 }
{
    Price(a.0.min(b.0))
}

// The least reference price of the three areas.
pub fn least_reference_price(prices: Prices) -> Price
    requires { InRange (as_prices prices) }
    ensures result_value { result.0 ≡ lowest_reference_price (as_prices prices) }
    ensures le_result { (1 ≤ result.0) × (result.0 ≤ 300000) }
{
    let pvb = Area(Area::PVB).reference_price(prices);
    let tvb = Area(Area::TVB).reference_price(prices);
    let avb = Area(Area::AVB).reference_price(prices);
    lower(pvb, lower(tvb, avb))
}

// Do short positions, less the blocked guarantee, exceed the flag at the least reference price? For every user with this blocked guarantee.
pub fn flagged(limits: Limits, prices: Prices, blocked: Cents, positions: [Net; 3]) -> bool
    requires { LimitsInRange (as_limits limits) × InRange (as_prices prices) × (blocked.0 ≤ 1000000000000) }
    ensures { (u : User) → blocked.0 ≡ u.blocked → result ≡ flagged_from (as_limits limits) (as_prices prices) u (positioned positions) }
{
    let allowed = least_reference_price(prices).worth(limits.flag_mwh);
    let short = exposure(prices, positions);
    short.exceeds(allowed.plus(blocked))
}

// Is a user called in: flagged, or party to a trade standing below notified (`below_notified`)?
pub fn called_in(
    limits: Limits,
    prices: Prices,
    blocked: Cents,
    positions: [Net; 3],
    below_notified: bool,
) -> bool
    requires { LimitsInRange (as_limits limits) × InRange (as_prices prices) × (blocked.0 ≤ 1000000000000) }
    ensures { (u : User) → blocked.0 ≡ u.blocked → result ≡ flagged_from (as_limits limits) (as_prices prices) u (positioned positions) || below_notified }
{
    below_notified || flagged(limits, prices, blocked, positions)
}

// Does a level exceed the blocked guarantee by more than the margin? For every user with this blocked guarantee.
pub fn exceeds_margin(limits: Limits, level: Cents, blocked: Cents) -> bool
    requires { LimitsInRange (as_limits limits) × (blocked.0 ≤ 1000000000000) }
    ensures { (u : User) → blocked.0 ≡ u.blocked → result ≡ exceeds_its_margin (as_limits limits) level.0 u }
{
    level.exceeds(limits.margin.plus(blocked))
}
