// One reduction on arrays, of a run and of a single user alike: the cuts of the sales from..to of the user at a place, taken off what
// stands, and the positions that they move.
#![tactic(auto)]

ghost use Rattle.std.specs.Prelude.{List, map, ◌≡◌, ◌+◌, ◌*◌, ◌-◌, ◌≤◌, ◌<◌, ◌^◌, get_or, length, set};
ghost use Rattle.std.proofs.lemmas.List.Edits.{sets};
ghost use Rattle.cut_tiers.specs.Tiers.{NoCuts, Takeable, cuts_of};
ghost use Rattle.cut_worth.specs.Rates.{Sales};
ghost use Rattle.cut_worth.specs.Tallies.{as_tally};
ghost use Rattle.rules.specs.Book.{Trade};
ghost use Rattle.rules.specs.Reduction.{nothing, tallied, tally_all};
ghost use Rattle.run_positions.specs.Moving.{Movable};
ghost use Rattle.run_state.specs.Asked.{moved_all, moved_one};
ghost use Rattle.laws_sales.specs.Parts.{part};
ghost use Rattle.laws_sales.specs.Sales.{less};
ghost use Rattle.units.specs.Prices.{as_prices, InRange};
ghost use Rattle.run_reduction.specs.Reductions.{Reducible, short_in};

use cut_worth::Tally;
use units::{Cents, Prices};

// ---- what the sales of a user lose, taken off

// Takes the cut of the sale i off what stands, moves the positions of its seller, at a place, and of its buyer, and adds it to the tally.
// Most sales lose nothing.
fn settle_sale(
    standing: &mut [u64; 256],
    positions: &mut [u32; 192],
    tally: Tally,
    i: usize,
    cut: u64,
    place: usize,
    buyer: u8,
    area: u8,
    prices: Prices,
) -> Tally
    requires i_bound { (i < 256) × (cut ≤ get_or standing.old i 0) }
    requires place_bound { (place < 64) × (buyer < 64) × (area < 3) × (length positions.old ≡ 192) }
    requires cut_bound { (get_or positions.old (3 * place + area) 0 + cut < 2 ^ 32) × (cut ≤ get_or positions.old (3 * buyer + area) 0) }
    requires in_range { InRange (as_prices prices) × (tally.mwh.0 ≤ 2 ^ 50) × (tally.worth.0 ≤ 2 ^ 50) × (cut ≤ 100000) }
    ensures standing_after { standing.new ≡ set standing.old i (get_or standing.old i 0 - cut) }
    ensures positions_after { positions.new ≡ moved_one place buyer area cut positions.old }
    ensures result_value { (t : Trade) → t.terms.area ≡ area → as_tally result ≡ tallied (as_prices prices) cut t (as_tally tally) }
    ensures mwh_bound { (result.mwh.0 ≤ tally.mwh.0 + 100000) × (result.worth.0 ≤ tally.worth.0 + 10000000000) }
{
    if cut == 0 {
        return tally;
    }
    cut_tiers::lower_sale(standing, i, cut);
    run_positions::move_sale(positions, place, buyer as usize, area as usize, cut);
    cut_tiers::tally_with(tally, cut, area, prices)
}

// Takes the cuts of the sales from..to of the user at a place off what stands, moves the positions of the user and of the buyers, and gives
// the tally of the cuts.
pub fn settle(
    standing: &mut [u64; 256],
    areas: &[u8; 256],
    sale_buyers: &[u8; 256],
    cuts: &[u64; 256],
    positions: &mut [u32; 192],
    place: usize,
    prices: Prices,
    from: usize,
    to: usize,
) -> Tally
    requires in_range { InRange (as_prices prices) × Sales standing.old areas.now from to × Takeable standing.old cuts.now from to }
    requires movable { Movable place from to areas.now sale_buyers.now cuts.now positions.old }
    ensures standing_after { standing.new ≡ sets standing.old from (less (part from to cuts.now) (part from to standing.old)) }
    ensures positions_after { positions.new ≡ moved_all place (part from to sale_buyers.now) (part from to areas.now) (part from to cuts.now) positions.old }
    ensures result_value { (ss : List Trade) → map (λ s. s.terms.area) ss ≡ part from to areas.now
        → as_tally result ≡ tally_all (as_prices prices) (part from to cuts.now) ss nothing }
{
    let mut tally = Tally::none();
    for i in from..to {
        let cut = cuts[i];
        tally = settle_sale(
            standing,
            positions,
            tally,
            i,
            cut,
            place,
            sale_buyers[i],
            areas[i],
            prices,
        );
    }
    tally
}

// ---- the reduction

// Reduces the user at a place for an amount. `cuts`, which has none from..to, has what its sales lose after it; what `rests` holds is of no
// use.
pub fn reduce(
    standing: &mut [u64; 256],
    areas: &[u8; 256],
    sale_buyers: &[u8; 256],
    positions: &mut [u32; 192],
    cuts: &mut [u64; 256],
    rests: &mut [u64; 256],
    place: usize,
    asked: Cents,
    prices: Prices,
    from: usize,
    to: usize,
) -> Tally
    requires in_range { InRange (as_prices prices) × Sales standing.old areas.now from to × Reducible place from to areas.now sale_buyers.now positions.old }
    requires no_cuts { NoCuts cuts.old from to × (length rests.old ≡ 256) }
    ensures cuts_after { cuts.new ≡ sets cuts.old from
        (cuts_of (as_prices prices) (short_in positions.old place) asked.0 (part from to standing.old) (part from to areas.now)) }
    ensures standing_after { standing.new ≡ sets standing.old from (less (part from to cuts.new) (part from to standing.old)) }
    ensures positions_after { positions.new ≡ moved_all place (part from to sale_buyers.now) (part from to areas.now) (part from to cuts.new) positions.old }
    ensures result_value { (ss : List Trade) → map (λ s. s.terms.area) ss ≡ part from to areas.now
        → as_tally result ≡ tally_all (as_prices prices) (part from to cuts.new) ss nothing }
    ensures rests_len { length rests.new ≡ 256 }
{
    let short = run_positions::shorts_at(positions, place);
    cut_tiers::fill_cuts(
        standing, areas, &short, prices, asked, from, to, cuts, rests,
    );
    settle(
        standing,
        areas,
        sale_buyers,
        cuts,
        positions,
        place,
        prices,
        from,
        to,
    )
}
