// The cuts of a reduction on arrays: what stands of a seller's own sales and the areas of the sales, from..to. The cuts of both tiers are
// filled in; one is taken off, and tallied.
#![tactic(auto)]

ghost use Rattle.std.specs.Prelude.{Bool, cond, ◌≡◌, ℕ, ◌+◌, ◌-◌, ◌≤◌, ◌<◌, ◌^◌, length, get_or, set};
ghost use Rattle.std.proofs.lemmas.List.Edits.{sets};
ghost use Rattle.rules.specs.Areas.{tariff};
ghost use Rattle.rules.specs.Book as model;
ghost use Rattle.rules.specs.Reduction.{tallied};
ghost use Rattle.laws_sales.specs.Parts.{part};
ghost use Rattle.units.specs.Prices.{as_prices, InRange};
ghost use Rattle.cut_worth.specs.Rates.{Sales};
ghost use Rattle.cut_worth.specs.Tallies.{as_tally};
ghost use Rattle.cut_tiers.specs.Tiers.{short_by, rates_for, cuts_of, NoCuts};

use cut_worth::Tally;
use units::{Area, Cents, Energy, Prices};

// ---- the cuts of both tiers

// The rate of an area in a tier: its tariff where it belongs to the tier, else 0.
fn rate_in(area: u8, belongs: bool, prices: Prices) -> u64
    requires { InRange (as_prices prices) }
    ensures { result ≡ cond belongs (tariff (as_prices prices) area) 0 }
{
    if belongs {
        u64::from(Area(area).tariff(prices).0)
    } else {
        0
    }
}

// The rate of each area in a tier, by whether the area belongs to it.
pub fn rates_of(pvb: bool, tvb: bool, avb: bool, prices: Prices) -> [u64; 3]
    requires { InRange (as_prices prices) }
    ensures { (belongs : ℕ → Bool) → pvb ≡ belongs 0 → tvb ≡ belongs 1 → avb ≡ belongs 2 → result ≡ rates_for (as_prices prices) belongs }
{
    [
        rate_in(Area::PVB, pvb, prices),
        rate_in(Area::TVB, tvb, prices),
        rate_in(Area::AVB, avb, prices),
    ]
}

// Fills in what each sale loses where the seller is reduced for an amount; `short` says in which areas its position is negative. Tier one
// takes the amount, tier two what tier one's worth leaves of it. `rests` is room for remainders; what it holds at the end is of no use.
pub fn fill_cuts(
    standing: &[u64; 256],
    areas: &[u8; 256],
    short: &[bool; 3],
    prices: Prices,
    asked: Cents,
    from: usize,
    to: usize,
    cuts: &mut [u64; 256],
    rests: &mut [u64; 256],
)
    requires in_range { InRange (as_prices prices) × Sales standing.now areas.now from to }
    requires no_cuts { NoCuts cuts.old from to × (length rests.old ≡ 256) }
    ensures cuts_after { cuts.new ≡ sets cuts.old from
        (cuts_of (as_prices prices) (short_by short.now) asked.0 (part from to standing.now) (part from to areas.now)) }
    ensures rests_len { length rests.new ≡ 256 }
{
    let [pvb, tvb, avb] = *short;
    let one = rates_of(pvb, tvb, avb, prices);
    let worth = cut_worth::worth_of(standing, areas, &one, from, to);
    cut_shares::tier_cuts(standing, areas, &one, asked, worth, from, to, cuts, rests);
    if asked.0 <= worth.0 {
        return;
    }
    let two = rates_of(!pvb, !tvb, !avb, prices);
    let other = cut_worth::worth_of(standing, areas, &two, from, to);
    cut_shares::tier_cuts(
        standing,
        areas,
        &two,
        asked.less(worth),
        other,
        from,
        to,
        cuts,
        rests,
    );
}

// ---- a cut taken off

// The tally with the cut of a sale in an area, at the area's tariff. Most sales lose nothing.
pub fn tally_with(tally: Tally, cut: u64, area: u8, prices: Prices) -> Tally
    requires { InRange (as_prices prices) × (tally.mwh.0 ≤ 2 ^ 50) × (tally.worth.0 ≤ 2 ^ 50) × (cut ≤ 100000) }
    ensures result_value { (t : model.Trade) → t.terms.area ≡ area → as_tally result ≡ tallied (as_prices prices) cut t (as_tally tally) }
    ensures mwh_bound { (result.mwh.0 ≤ tally.mwh.0 + 100000) × (result.worth.0 ≤ tally.worth.0 + 10000000000) }
{
    if cut == 0 {
        tally
    } else {
        tally.with(Energy(cut), Area(area).tariff(prices))
    }
}

// Takes a cut off what stands at a place.
pub fn lower_sale(standing: &mut [u64; 256], place: usize, cut: u64)
    requires { (place < 256) × (cut ≤ get_or standing.old place 0) }
    ensures { standing.new ≡ set standing.old place (get_or standing.old place 0 - cut) }
{
    // Most sales lose nothing, and are not written.
    if 0 < cut {
        standing[place] -= cut;
    }
}
