// Long runs: of each seller with many sales it is kept which of them are cut next, so that its reductions do not look through all of them.
ghost use Rattle.std.specs.Prelude.{◌≡◌, ◌+◌, ◌≤◌, ◌<◌, get_or, length, unwrap_or, IfSome};
ghost use Rattle.std.specs.Option.{ForSome};
ghost use Rattle.book_format.specs.Book.{book_of, count_of_users};
ghost use Rattle.rules.specs.Book.{Book};
ghost use Rattle.run_state.specs.Going.{Going};
ghost use Rattle.run_state.specs.Running.{whole_run};
ghost use Rattle.laws_sales.specs.Parts.{part};
ghost use Rattle.units.specs.Prices.{as_prices, InRange};
ghost use Rattle.units.specs.Limits.{as_limits};
ghost use Rattle.cut_peaks.specs.Keeping.{KeptFor};
ghost use Rattle.cut_peaks.specs.Peaks.{NoneCut};
ghost use Rattle.cut_worth.specs.Rates.{Sales};
ghost use Rattle.run_reduction.specs.Reductions.{RunOf};
ghost use Rattle.run_turns.specs.Turns.{Keeps, Ongoing, OthersStand, Ran, RunTo, Sweepable, Turned, TurnedSome};

use cut_peaks::{Choice, Kept, Sweep};
use cut_worth::{Tally, Totals};
use risk_user::Day;
use units::Prices;

// ---- one reduction

// What a reduction of a long run gives: its tally, a place before which nobody has become due, and what is kept for the next.
#[derive(Clone, Copy)]
pub struct LongTurn {
    pub tally: Tally,
    pub least: usize,
    pub kept: Option<Kept>,
}

// Fills in the cuts of the user at a place, which is due, where only the highest of its sales lose, one MWh each.
fn chosen(
    standing: &[u64; 256],
    areas: &[u8; 256],
    positions: &[u32; 192],
    prices: Prices,
    asked: u64,
    place: usize,
    from: usize,
    to: usize,
    kept: Option<Kept>,
    cuts: &mut [u64; 256],
) -> Choice
    requires in_range { InRange (as_prices prices) × Sales standing.now areas.now from to × (from ≤ to) × NoneCut cuts.old × (0 < asked) × (place < 64) }
    requires kept_for { ForSome kept (λ k. KeptFor (as_prices prices) k standing.now areas.now from to) }
    ensures { Sweepable (as_prices prices) asked standing.now areas.now positions.now place from to cuts.new result }
{
    let short = run_positions::shorts_at(positions, place);
    cut_peaks::choose(standing, areas, &short, prices, asked, from, to, kept, cuts)
}

// Reduces the user at a place by the cuts that were filled in between two places, and clears them.
fn sweep(
    book: &[u8],
    sums: &[u32; 768],
    starts: &[usize; 65],
    standing: &mut [u64; 256],
    areas: &[u8; 256],
    sale_buyers: &[u8; 256],
    positions: &mut [u32; 192],
    eligible: &mut [bool; 64],
    targets: &mut [u64; 64],
    cuts: &mut [u64; 256],
    place: usize,
    day: Day,
    kept: Kept,
    cut: Sweep,
) -> LongTurn
    requires run_of { RunOf (as_limits day.limits) (as_prices day.prices) book.now sums.now starts.now areas.now sale_buyers.now × (place < count_of_users book.now) × (0 < get_or targets.old place 0) }
    requires ongoing { Ongoing (as_limits day.limits) (book_of book.now) standing.old positions.old targets.old eligible.old }
    requires sweepable { Sweepable (as_prices day.prices) (get_or targets.old place 0) standing.old areas.now positions.old place (get_or starts.now place 0) (get_or starts.now (place + 1) 0) cuts.old (Choice.Filled kept cut) }
    ensures turned { (b : Book) → Going (as_limits day.limits) (book_of book.now) b standing.old positions.old targets.old eligible.old
        → Turned (as_limits day.limits) (book_of book.now) b place targets.old standing.new positions.new targets.new eligible.new
        (part (get_or starts.now place 0) (get_or starts.now (place + 1) 0) cuts.old) result.tally result.least }
    ensures none_cut { NoneCut cuts.new × OthersStand (count_of_users book.now) starts.now place standing.old standing.new
        × Keeps (as_prices day.prices) starts.now standing.new areas.now place result.kept }
{
    let from = starts[place];
    let to = starts[place + 1];
    let first = kept.place;
    let end = cut.end;
    let tally = run_reduction::settle(
        standing,
        areas,
        sale_buyers,
        cuts,
        positions,
        place,
        day.prices,
        first,
        end,
    );
    let least = run_targets::look_again(
        book,
        sums,
        positions,
        sale_buyers,
        cuts,
        eligible,
        targets,
        place,
        first,
        end,
        day,
    );
    crate::clear(cuts, first, end);
    let some = run_targets::any_left(standing, from, to);
    eligible[place] = some;
    let owed = run_targets::owed_at(book, sums, positions, place, some, true, day);
    targets[place] = owed.0;
    LongTurn {
        tally,
        least,
        kept: Some(kept.swept(end, cut.lost)),
    }
}

// Reduces the user at a place, which is due, for its target: by what is kept of it where that tells its cuts, else as any other.
fn next_turn(
    book: &[u8],
    sums: &[u32; 768],
    starts: &[usize; 65],
    standing: &mut [u64; 256],
    areas: &[u8; 256],
    sale_buyers: &[u8; 256],
    positions: &mut [u32; 192],
    eligible: &mut [bool; 64],
    targets: &mut [u64; 64],
    cuts: &mut [u64; 256],
    rests: &mut [u64; 256],
    place: usize,
    day: Day,
    kept: Option<Kept>,
) -> LongTurn
    requires run_of { RunOf (as_limits day.limits) (as_prices day.prices) book.now sums.now starts.now areas.now sale_buyers.now × (place < count_of_users book.now) × (0 < get_or targets.old place 0) }
    requires ongoing { Ongoing (as_limits day.limits) (book_of book.now) standing.old positions.old targets.old eligible.old × NoneCut cuts.old × (length rests.old ≡ 256) }
    requires keeps { Keeps (as_prices day.prices) starts.now standing.old areas.now place kept }
    ensures turned_some { (b : Book) → Going (as_limits day.limits) (book_of book.now) b standing.old positions.old targets.old eligible.old
        → TurnedSome (as_limits day.limits) (book_of book.now) b place targets.old standing.new positions.new targets.new eligible.new result.tally result.least }
    ensures none_cut { NoneCut cuts.new × (length rests.new ≡ 256) × OthersStand (count_of_users book.now) starts.now place standing.old standing.new
        × Keeps (as_prices day.prices) starts.now standing.new areas.now place result.kept }
{
    let from = starts[place];
    let to = starts[place + 1];
    let asked = targets[place];
    match chosen(
        standing, areas, positions, day.prices, asked, place, from, to, kept, cuts,
    ) {
        Choice::Filled { kept, sweep: cut } => sweep(
            book,
            sums,
            starts,
            standing,
            areas,
            sale_buyers,
            positions,
            eligible,
            targets,
            cuts,
            place,
            day,
            kept,
            cut,
        ),
        Choice::Partial { first, end } => {
            crate::clear(cuts, first, end);
            let turned = crate::plain_turn(
                book,
                sums,
                starts,
                standing,
                areas,
                sale_buyers,
                positions,
                eligible,
                targets,
                cuts,
                rests,
                place,
                day,
            );
            LongTurn {
                tally: turned.tally,
                least: turned.least,
                kept: None,
            }
        }
    }
}

// ---- all of them

// Goes on with a run of a book of n users until nobody is due; if a user is, the run is long and it has many sales.
pub fn run_long(
    book: &[u8],
    n: usize,
    sums: &[u32; 768],
    starts: &[usize; 65],
    standing: &mut [u64; 256],
    areas: &[u8; 256],
    sale_buyers: &[u8; 256],
    positions: &mut [u32; 192],
    eligible: &mut [bool; 64],
    targets: &mut [u64; 64],
    cuts: &mut [u64; 256],
    rests: &mut [u64; 256],
    day: Day,
    so_far: Totals,
    due: Option<usize>,
) -> Totals
    requires run_of { RunOf (as_limits day.limits) (as_prices day.prices) book.now sums.now starts.now areas.now sale_buyers.now × (n ≡ count_of_users book.now) }
    requires run_to { RunTo (as_limits day.limits) book.now n standing.old positions.old targets.old eligible.old cuts.old rests.old so_far (unwrap_or due n)
        × IfSome due (λ place. (place < n) × (64 ≤ so_far.reductions) × (get_or starts.now place 0 + 8 < get_or starts.now (place + 1) 0)) }
    ensures { Ran (whole_run (as_limits day.limits) (book_of book.now)) (book_of book.now) standing.new result }
{
    let mut kept: [Option<Kept>; 64] = [None; 64];
    let mut totals = so_far;
    let mut next = due;
    while let Some(place) = next {
        let was = kept[place];
        let turned = next_turn(
            book,
            sums,
            starts,
            standing,
            areas,
            sale_buyers,
            positions,
            eligible,
            targets,
            cuts,
            rests,
            place,
            day,
            was,
        );
        kept[place] = turned.kept;
        totals = totals.with(turned.tally);
        let first = crate::next_from(targets, turned.least, n);
        let stage = crate::run_plain(
            book,
            n,
            sums,
            starts,
            standing,
            areas,
            sale_buyers,
            positions,
            eligible,
            targets,
            cuts,
            rests,
            day,
            totals,
            first,
        );
        totals = stage.totals;
        next = stage.due;
    }
    totals
}
