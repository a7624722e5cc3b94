// The first of a seller's highest sales in a tier, by what is known of each area: whatever the tier, its sales are looked through only
// where none stands where it was thought to.
ghost use Rattle.std.specs.Prelude.{cond, ◌≡◌, ◌≤◌, min, ltb};
ghost use Rattle.cut_worth.specs.Rates.{Sales};
ghost use Rattle.cut_peaks.specs.Keeping.{Below, lowered_to, height_of_tier};
ghost use Rattle.cut_peaks.specs.Peaks.{Peaked};

use crate::{Heights, Peak};

// For each area what the highest of the sales from..to in it stands at, at least 1.
fn heights_of(standing: &[u64; 256], areas: &[u8; 256], from: usize, to: usize) -> Heights
    requires { Sales standing.now areas.now from to }
    ensures { Below result standing.now areas.now from to }
{
    let pvb = crate::highest(standing, areas, &[1, 0, 0], from, to);
    let tvb = crate::highest(standing, areas, &[0, 1, 0], from, to);
    let avb = crate::highest(standing, areas, &[0, 0, 1], from, to);
    Heights { pvb, tvb, avb }
}

// An amount of an area with a rate: 0 where it does not belong to the tier.
fn in_tier(mwh: u64, rate: u64) -> u64
    ensures { result ≡ cond (ltb 0 rate) mwh 0 }
{
    if rate == 0 { 0 } else { mwh }
}

// An amount that no sale of the tier stands above, at least 1.
fn tier_height(heights: Heights, rates: &[u64; 3]) -> u64
    ensures { result ≡ height_of_tier heights rates.now }
{
    let one = in_tier(heights.pvb, rates[0]).max(1);
    let two = one.max(in_tier(heights.tvb, rates[1]));
    two.max(in_tier(heights.avb, rates[2]))
}

// The lesser of two amounts where an area has a rate; else the first.
fn lowered_at(mwh: u64, rate: u64, most: u64) -> u64
    ensures { result ≡ cond (ltb 0 rate) (min mwh most) mwh }
{
    if rate == 0 { mwh } else { mwh.min(most) }
}

// Heights of which those of a tier's areas are at most an amount.
fn lowered(heights: Heights, rates: &[u64; 3], most: u64) -> Heights
    ensures { result ≡ lowered_to heights rates.now most }
{
    Heights {
        pvb: lowered_at(heights.pvb, rates[0], most),
        tvb: lowered_at(heights.tvb, rates[1], most),
        avb: lowered_at(heights.avb, rates[2], most),
    }
}

// The first of the highest sales from..to in the tier: at the height that is known; or where none of them stands at it, one below, since
// those that stood there have lost an MWh each; or else after a look through all of them.
pub fn first_peak(
    standing: &[u64; 256],
    areas: &[u8; 256],
    rates: &[u64; 3],
    from: usize,
    to: usize,
    heights: Heights,
) -> Peak
    requires { Sales standing.now areas.now from to × (from ≤ to) × Below heights standing.now areas.now from to }
    ensures { Peaked rates.now standing.now areas.now from to result.place result.mwh × Below result.heights standing.now areas.now from to }
{
    let height = tier_height(heights, rates);
    if let Some(place) = crate::next_peak(standing, areas, rates, height, from, to) {
        return Peak {
            mwh: height,
            place,
            heights,
        };
    }
    let lower = lowered(heights, rates, height - 1);
    let below = tier_height(lower, rates);
    if let Some(place) = crate::next_peak(standing, areas, rates, below, from, to) {
        return Peak {
            mwh: below,
            place,
            heights: lower,
        };
    }
    let seen = heights_of(standing, areas, from, to);
    let mwh = tier_height(seen, rates);
    let place = crate::next_peak(standing, areas, rates, mwh, from, to).unwrap_or(to);
    Peak {
        mwh,
        place,
        heights: seen,
    }
}
