// What a user holds in an area, the need that this leaves, and what the need, a short or a long position is worth. Only a price turns
// energy into money.
#![tactic(auto)]

ghost use Rattle.std.specs.Prelude.{[], ◌∷◌, ◌≡◌, ◌≤◌, ◌*◌, ◌<◌, ◌^◌};
ghost use Rattle.base.specs.Parts.{pos_part, neg_part};
ghost use Rattle.rules.specs.Areas.{reference_price_of, selling_tariff_of};
ghost use Rattle.rules.specs.Levels.{need_of_morning, stock, need_of_afternoon};
ghost use Rattle.units.specs.Amounts.{net};
ghost use Rattle.units.specs.Prices.{as_prices, InRange};
ghost use Rattle.risk_holdings.specs.Holdings.{as_holding, HoldingWithin};

use units::{Area, Cents, Energy, Net, Prices};

// What a user holds in one area: physical entry and position, sold and bought for d and for d+1.
#[derive(Clone, Copy)]
pub struct Holding {
    pub physical: Net,
    pub position: Net,
    pub sold: Energy,
    pub bought: Energy,
    pub sold_next: Energy,
    pub bought_next: Energy,
}

impl Holding {
    // The morning's need, over d and d+1, and never below 0.
    pub fn morning_need(self) -> Energy
        requires { HoldingWithin (2 ^ 40) self }
        ensures result_value { result.0 ≡ pos_part (need_of_morning (as_holding self)) }
        ensures result_bound { result.0 ≤ 2 ^ 42 }
    {
        let out = self.physical.short().plus(self.sold.plus(self.sold_next));
        let covered = self
            .physical
            .long()
            .plus(self.bought.plus(self.bought_next));
        out.less(covered)
    }

    // What a long position takes off the afternoon's need: nothing in PVB.
    pub fn stock(self, area: u8) -> Energy
        ensures result_value { result.0 ≡ stock area (as_holding self) }
        ensures result_bound { result.0 < 2 ^ 31 }
    {
        if area == Area::PVB {
            Energy(0)
        } else {
            self.position.long()
        }
    }

    // The afternoon's need in an area, for d+1, and never below 0.
    pub fn afternoon_need(self, area: u8) -> Energy
        requires { HoldingWithin (2 ^ 40) self }
        ensures result_value { result.0 ≡ pos_part (need_of_afternoon area (as_holding self)) }
        ensures result_bound { result.0 ≤ 2 ^ 42 }
    {
        self.sold_next.less(self.bought_next.plus(self.stock(area)))
    }
}

// What an energy is worth at the reference price of an area.
pub fn worth_in(prices: Prices, area: u8, energy: Energy) -> Cents
    requires in_range { InRange (as_prices prices) }
    requires energy_bound { energy.0 ≤ 2 ^ 42 }
    ensures result_value { result.0 ≡ energy.0 * reference_price_of (as_prices prices) area }
    ensures result_bound { result.0 ≤ 300000 * 2 ^ 42 }
{
    Area(area).reference_price(prices).worth(energy)
}

// What the morning's need in an area is worth.
pub fn morning_worth(prices: Prices, area: u8, holding: Holding) -> Cents
    requires { InRange (as_prices prices) × HoldingWithin (2 ^ 40) holding }
    ensures result_value { result.0 ≡ pos_part (need_of_morning (as_holding holding)) * reference_price_of (as_prices prices) area }
    ensures result_bound { result.0 ≤ 300000 * 2 ^ 42 }
{
    worth_in(prices, area, holding.morning_need())
}

// What the afternoon's need in an area is worth.
pub fn afternoon_worth(prices: Prices, area: u8, holding: Holding) -> Cents
    requires { InRange (as_prices prices) × HoldingWithin (2 ^ 40) holding }
    ensures result_value { result.0 ≡ pos_part (need_of_afternoon area (as_holding holding)) * reference_price_of (as_prices prices) area }
    ensures result_bound { result.0 ≤ 300000 * 2 ^ 42 }
{
    worth_in(prices, area, holding.afternoon_need(area))
}

// What a short position in an area is worth, at the reference price.
pub fn short_worth(prices: Prices, area: u8, position: Net) -> Cents
    requires { InRange (as_prices prices) }
    ensures result_value { result.0 ≡ neg_part (net position) * reference_price_of (as_prices prices) area }
    ensures result_bound { result.0 ≤ 300000 * 2 ^ 42 }
{
    worth_in(prices, area, position.short())
}

// What a long position in an area is worth, at the selling tariff.
pub fn long_worth(prices: Prices, area: u8, position: Net) -> Cents
    requires { InRange (as_prices prices) }
    ensures result_value { result.0 ≡ pos_part (net position) * selling_tariff_of (as_prices prices) area }
    ensures result_bound { result.0 ≤ 300000 * 2 ^ 31 }
{
    Area(area).selling_tariff(prices).worth(position.long())
}

// What a user holds in the three areas.
#[derive(Clone, Copy)]
pub struct Holdings {
    pub pvb: Holding,
    pub tvb: Holding,
    pub avb: Holding,
}

impl Holdings {
    // The positions, for each area.
    pub fn positions(self) -> [Net; 3]
        ensures { result ≡ self.pvb.position ∷ self.tvb.position ∷ self.avb.position ∷ [] }
    {
        [self.pvb.position, self.tvb.position, self.avb.position]
    }
}
