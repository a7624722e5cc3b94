// The worth of a tier, the running tally of a reduction and the totals of a run. Sales stand in two arrays: what stands of each, and its
// area. A part of them is named by where it starts and where it ends. `rates` has the tariff of each area that belongs to the tier, and 0
// for the others.
#![tactic(auto)]

ghost use Rattle.std.specs.Prelude.{◌≡◌, ◌+◌, ◌*◌, ◌-◌, ◌≤◌, ◌<◌, ◌^◌, get_or};
ghost use Rattle.rules.specs.Areas.{Prices, tariff};
ghost use Rattle.rules.specs.Book.{Trade};
ghost use Rattle.rules.specs.Calls.{answer_of_run};
ghost use Rattle.rules.specs.Shares.{tier_worth};
ghost use Rattle.rules.specs.Reduction.{nothing, tallied};
ghost use Rattle.cut_worth.specs.Rates.{lots_in, Sales, Rates};
ghost use Rattle.cut_worth.specs.Tallies.{as_tally};
ghost use Rattle.cut_worth.specs.Totals.{totals, Within};
ghost use Rattle.laws_sales.specs.Parts.{part};

use units::{Cents, Energy, Price};

// ---- the worth of a tier

// The rate of the sale at a place.
pub fn rate_at(areas: &[u8; 256], rates: &[u64; 3], i: usize) -> u64
    requires { (i < 256) × (get_or areas.now i 0 < 3) }
    ensures { result ≡ get_or rates.now (get_or areas.now i 0) 0 }
{
    rates[areas[i] as usize]
}

// The worth of the sales from..to in the tier: the first one's standing × t plus the worth of the rest. Recursive like its definition
// (`tier_worth`): the documents print this form.
fn worth_from(
    standing: &[u64; 256],
    areas: &[u8; 256],
    rates: &[u64; 3],
    from: usize,
    to: usize,
) -> u64
    requires { Sales standing.now areas.now from to × Rates rates.now }
    ensures value { result ≡ tier_worth (lots_in rates.now (part from to standing.now) (part from to areas.now)) }
    ensures upper_bound { result ≤ 10000000000 * (to - from) }
{
    if to <= from {
        return 0;
    }
    let first = standing[from] * rate_at(areas, rates, from);
    first + worth_from(standing, areas, rates, from + 1, to)
}

// The worth V of a tier of the sales from..to.
pub fn worth_of(
    standing: &[u64; 256],
    areas: &[u8; 256],
    rates: &[u64; 3],
    from: usize,
    to: usize,
) -> Cents
    requires { Sales standing.now areas.now from to × Rates rates.now }
    ensures result_value { result.0 ≡ tier_worth (lots_in rates.now (part from to standing.now) (part from to areas.now)) }
    ensures result_bound { result.0 ≤ 10000000000 * (to - from) }
{
    Cents(worth_from(standing, areas, rates, from, to))
}

// ---- the tally of a reduction

// The running tally of a reduction: the MWh cut and their worth, each cut × t.
#[derive(Clone, Copy)]
pub struct Tally {
    pub mwh: Energy,
    pub worth: Cents,
}

impl Tally {
    // The tally of no trade.
    pub fn none() -> Tally
        ensures result_value { as_tally result ≡ nothing }
        ensures mwh_value { (result.mwh.0 ≡ 0) × (result.worth.0 ≡ 0) }
    {
        Tally {
            mwh: Energy(0),
            worth: Cents(0),
        }
    }

    // The tally with one trade's cut, at the trade's tariff.
    pub fn with(mut self, cut: Energy, price: Price) -> Tally
        requires mwh_bound { (self.mwh.0 ≤ 2 ^ 50) × (self.worth.0 ≤ 2 ^ 50) }
        requires cut_bound { (cut.0 ≤ 100000) × (price.0 ≤ 100000) }
        ensures result_value { (f : Prices) (t : Trade) → price.0 ≡ tariff f t.terms.area → as_tally result ≡ tallied f cut.0 t (as_tally self) }
        ensures mwh_bound_2 { (result.mwh.0 ≤ self.mwh.0 + 100000) × (result.worth.0 ≤ self.worth.0 + 10000000000) }
    {
        let added = price.worth(cut);
        self.mwh = self.mwh.plus(cut);
        self.worth = self.worth.plus(added);
        self
    }
}

// ---- the totals of a run

// The totals of a run: the number of its reductions, the MWh cut and their worth.
#[derive(Clone, Copy)]
pub struct Totals {
    pub reductions: u64,
    pub mwh: Energy,
    pub worth: Cents,
}

impl Totals {
    // The totals of no reduction.
    pub fn none() -> Totals
        ensures { totals result ≡ answer_of_run 0 0 0 }
    {
        Totals {
            reductions: 0,
            mwh: Energy(0),
            worth: Cents(0),
        }
    }

    // The totals with one more reduction, by its tally.
    pub fn with(mut self, tally: Tally) -> Totals
        requires within { Within self }
        requires mwh_bound { (tally.mwh.0 ≤ 25600000) × (tally.worth.0 ≤ 2560000000000) }
        ensures { totals result ≡ answer_of_run (self.reductions + 1) (self.mwh.0 + tally.mwh.0) (self.worth.0 + tally.worth.0) }
    {
        self.reductions += 1;
        self.mwh = self.mwh.plus(tally.mwh);
        self.worth = self.worth.plus(tally.worth);
        self
    }
}
