// Reductions of a few MWh: where no share has a whole part, the sales that stand highest in the tier lose one MWh each, the earliest first.
// So a seller's next cuts are known from the place of the next of them, without asking every sale again: a pass over all of them is made
// once for each MWh that the highest lose, not once for each reduction.
#![tactic(auto)]

ghost use Rattle.std.specs.Prelude.{◌≡◌, ◌≤◌, ◌<◌, get_or, IfSome, MatchOption, true};
ghost use Rattle.std.specs.Option.{ForSome};
ghost use Rattle.cut_peaks.specs.Keeping.{Below, bounded, Chosen, KeptFor, SameShort, swept_to, tier_rates};
ghost use Rattle.units.specs.Prices.{as_prices, InRange};
ghost use Rattle.cut_worth.specs.Rates.{Sales, Rates};
ghost use Rattle.cut_peaks.specs.Peaks.{amount_at_place, Highest, NextPeak, NoneCut, PeakCuts};

use units::Prices;

mod peaks;

// ---- the highest sales

// What stands of the sale at a place in the tier: 0 where it does not belong to it.
fn amount_at(standing: &[u64; 256], areas: &[u8; 256], rates: &[u64; 3], i: usize) -> u64
    requires { (i < 256) × (get_or areas.now i 0 < 3) }
    ensures { result ≡ amount_at_place rates.now standing.now areas.now i }
{
    if cut_worth::rate_at(areas, rates, i) == 0 {
        0
    } else {
        standing[i]
    }
}

// What the highest of the sales from..to in the tier stands at, at least 1.
fn highest(
    standing: &[u64; 256],
    areas: &[u8; 256],
    rates: &[u64; 3],
    from: usize,
    to: usize,
) -> u64
    requires { Sales standing.now areas.now from to }
    ensures { Highest rates.now standing.now areas.now from to result }
{
    let mut most: u64 = 1;
    for i in from..to {
        most = most.max(amount_at(standing, areas, rates, i));
    }
    most
}

// The first place from a start on, before `to`, of a sale of the tier that stands at `mwh` or more.
fn next_peak(
    standing: &[u64; 256],
    areas: &[u8; 256],
    rates: &[u64; 3],
    mwh: u64,
    start: usize,
    to: usize,
) -> Option<usize>
    requires { Sales standing.now areas.now start to × (start ≤ to) }
    ensures { MatchOption result (NextPeak rates.now standing.now areas.now mwh start to to)
        (λ i. NextPeak rates.now standing.now areas.now mwh start to i × (i < to)) }
{
    (start..to).find(|&i| mwh <= amount_at(standing, areas, rates, i))
}

// ---- the highest sales by area

// For each area an amount that no sale of a seller in it stands above.
#[derive(Clone, Copy, Debug, PartialEq, Eq)]
pub struct Heights {
    pub pvb: u64,
    pub tvb: u64,
    pub avb: u64,
}

// The first of the highest sales in a tier, what they stand at, and amounts that no sale stands above.
#[derive(Clone, Copy, Debug, PartialEq, Eq)]
pub struct Peak {
    pub mwh: u64,
    pub place: usize,
    pub heights: Heights,
}

// ---- their cuts

// The next of the highest sales behind those that were cut, and what they lost.
#[derive(Clone, Copy, Debug, PartialEq, Eq)]
pub struct Sweep {
    pub end: usize,
    pub lost: u64,
}

// The sales of the tier that stand at `mwh`, from the one at a place on, lose one MWh each until the loss reaches what is asked, or none is
// left.
fn peak_cuts(
    standing: &[u64; 256],
    areas: &[u8; 256],
    rates: &[u64; 3],
    asked: u64,
    mwh: u64,
    place: usize,
    to: usize,
    cuts: &mut [u64; 256],
) -> Sweep
    requires sales { Sales standing.now areas.now place to × Rates rates.now × NoneCut cuts.old × (place ≤ to) × (asked ≤ 2560000000000) }
    requires highest { Highest rates.now standing.now areas.now place to mwh × (0 < asked) × (place < to → mwh ≤ amount_at_place rates.now standing.now areas.now place) }
    ensures { PeakCuts rates.now standing.now areas.now asked mwh place to cuts.new result.end result.lost }
{
    let mut lost = 0;
    let mut end = place;
    // Goes from one of the highest to the next, until the loss is enough.
    while lost < asked && end < to {
        cuts[end] += 1;
        lost += cut_worth::rate_at(areas, rates, end);
        end = next_peak(standing, areas, rates, mwh, end + 1, to).unwrap_or(to);
    }
    Sweep { end, lost }
}

// ---- what is kept of a seller

// What is kept of a seller: in which areas its position is negative; whether its sales lose from tier two, tier one being worth nothing;
// what that tier is worth, what its highest sales stand at, and the place of the next of them; and for each area what none of its sales
// stands above, whatever the tier. Where none of the highest is left, the place is the end of the seller's sales, and no Option: the cuts
// are cleared up to it.
#[derive(Clone, Copy, Debug, PartialEq, Eq)]
pub struct Kept {
    pub short: [bool; 3],
    pub second: bool,
    pub worth: u64,
    pub mwh: u64,
    pub place: usize,
    pub heights: Heights,
}

impl Kept {
    // After the highest sales up to the next one, at an end, have lost what they were cut by.
    pub fn swept(mut self, end: usize, lost: u64) -> Kept
        requires { lost ≤ self.worth }
        ensures { result ≡ swept_to self end lost }
    {
        self.worth -= lost;
        self.place = end;
        self
    }
}

// The rates of the tier that a seller's sales lose from.
fn rates_kept(kept: Kept, prices: Prices) -> [u64; 3]
    requires { InRange (as_prices prices) }
    ensures { result ≡ tier_rates (as_prices prices) kept }
{
    let [pvb, tvb, avb] = kept.short;
    if kept.second {
        cut_tiers::rates_of(!pvb, !tvb, !avb, prices)
    } else {
        cut_tiers::rates_of(pvb, tvb, avb, prices)
    }
}

// What is kept of the sales from..to of a seller whose position is negative where `short` says so, and of whose sales none stands above
// the heights.
fn keep(
    standing: &[u64; 256],
    areas: &[u8; 256],
    short: &[bool; 3],
    prices: Prices,
    from: usize,
    to: usize,
    heights: Heights,
) -> Kept
    requires { InRange (as_prices prices) × Sales standing.now areas.now from to × (from ≤ to) × Below heights standing.now areas.now from to }
    ensures { KeptFor (as_prices prices) result standing.now areas.now from to × SameShort result short.now }
{
    let [pvb, tvb, avb] = *short;
    let one = cut_tiers::rates_of(pvb, tvb, avb, prices);
    let worth = cut_worth::worth_of(standing, areas, &one, from, to);
    if 0 < worth.0 {
        let peak = peaks::first_peak(standing, areas, &one, from, to, heights);
        return Kept {
            short: *short,
            second: false,
            worth: worth.0,
            mwh: peak.mwh,
            place: peak.place,
            heights: peak.heights,
        };
    }
    let two = cut_tiers::rates_of(!pvb, !tvb, !avb, prices);
    let other = cut_worth::worth_of(standing, areas, &two, from, to);
    let peak = peaks::first_peak(standing, areas, &two, from, to, heights);
    Kept {
        short: *short,
        second: true,
        worth: other.0,
        mwh: peak.mwh,
        place: peak.place,
        heights: peak.heights,
    }
}

// Is it kept of a position that is negative where `short` says so, and is one of the highest sales left?
fn serves(kept: Kept, short: &[bool; 3], to: usize) -> bool
    ensures { result ≡ true → SameShort kept short.now }
{
    let known = kept.short;
    kept.place < to && known == *short
}

// What is kept, where it serves.
fn serving(kept: Option<Kept>, short: &[bool; 3], to: usize) -> Option<Kept>
    ensures { IfSome result (λ k. (kept ≡ Some k) × SameShort k short.now) }
{
    match kept {
        Some(known) if serves(known, short, to) => kept,
        _ => None,
    }
}

// Amounts that no sale stands above: those that are kept, or where nothing is known what every sale is bounded by.
fn bounds(kept: Option<Kept>) -> Heights
    ensures { MatchOption kept (result ≡ bounded) (λ k. result ≡ k.heights) }
{
    match kept {
        Some(known) => known.heights,
        None => Heights {
            pvb: 100000,
            tvb: 100000,
            avb: 100000,
        },
    }
}

// What is kept, where it serves; else what the sales are found to be.
fn current(
    standing: &[u64; 256],
    areas: &[u8; 256],
    short: &[bool; 3],
    prices: Prices,
    from: usize,
    to: usize,
    kept: Option<Kept>,
) -> Kept
    requires in_range { InRange (as_prices prices) × Sales standing.now areas.now from to × (from ≤ to) }
    requires kept_for { ForSome kept (λ k. KeptFor (as_prices prices) k standing.now areas.now from to) }
    ensures { KeptFor (as_prices prices) result standing.now areas.now from to × SameShort result short.now }
{
    match serving(kept, short, to) {
        Some(known) => known,
        None => keep(standing, areas, short, prices, from, to, bounds(kept)),
    }
}

// ---- the cuts of a reduction

// The cuts that were filled in for a reduction: all of it, of the highest sales from the kept place up to an end; or where those do not do,
// maybe some between two places, which must be cleared there.
#[derive(Clone, Copy, Debug, PartialEq, Eq)]
pub enum Choice {
    Filled { kept: Kept, sweep: Sweep },
    Partial { first: usize, end: usize },
}

// Fills in the cuts of the sales from..to of a seller that is reduced for an amount, where only the highest lose, one MWh each.
pub fn choose(
    standing: &[u64; 256],
    areas: &[u8; 256],
    short: &[bool; 3],
    prices: Prices,
    asked: u64,
    from: usize,
    to: usize,
    kept: Option<Kept>,
    cuts: &mut [u64; 256],
) -> Choice
    requires in_range { InRange (as_prices prices) × Sales standing.now areas.now from to × (from ≤ to) × NoneCut cuts.old × (0 < asked) }
    requires kept_for { ForSome kept (λ k. KeptFor (as_prices prices) k standing.now areas.now from to) }
    ensures { Chosen (as_prices prices) short.now asked standing.now areas.now from to cuts.old cuts.new result }
{
    let kept = current(standing, areas, short, prices, from, to, kept);
    let place = kept.place;
    // Where a share has a whole part, or all is asked for, others than the highest lose.
    if kept.worth <= asked || kept.worth <= kept.mwh * asked {
        return Choice::Partial {
            first: place,
            end: place,
        };
    }
    let rates = rates_kept(kept, prices);
    let sweep = peak_cuts(standing, areas, &rates, asked, kept.mwh, place, to, cuts);
    if asked <= sweep.lost {
        Choice::Filled { kept, sweep }
    } else {
        Choice::Partial {
            first: place,
            end: sweep.end,
        }
    }
}
