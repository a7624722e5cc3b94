// The reductions of a run, one after another, on arrays: the book that the run has come to stands in them, and the bytes hold the opening
// book throughout.
#![tactic(auto)]

ghost use Rattle.std.specs.Prelude.{◌≡◌, ◌+◌, ◌≤◌, ◌<◌, get_or, length, true, false, unwrap_or, IfSome};
ghost use Rattle.book_format.specs.Book.{book_of, count_of_users};
ghost use Rattle.rules.specs.Book.{Book};
ghost use Rattle.run_state.specs.Going.{Going};
ghost use Rattle.run_state.specs.Running.{NextFrom, whole_run};
ghost use Rattle.laws_sales.specs.Parts.{part};
ghost use Rattle.units.specs.Prices.{as_prices};
ghost use Rattle.units.specs.Limits.{as_limits};
ghost use Rattle.cut_peaks.specs.Peaks.{NoneCut};
ghost use Rattle.run_turns.specs.Turns.{CutIn, ManyStand, Ongoing, OthersStand, Ran, RunTo, Turned, TurnedSome};
ghost use Rattle.run_reduction.specs.Reductions.{RunOf};

use cut_worth::{Tally, Totals};
use risk_user::Day;
use units::Cents;

mod long;

// ---- one reduction

// What a reduction of a run gives: its tally, and a place before which nobody has become due.
#[derive(Clone, Copy)]
pub struct Reduced {
    pub tally: Tally,
    pub least: usize,
}

// Reduces the user at a place, which is due, for its target. `cuts` has what its sales lose, and must be cleared after it; what `rests`
// holds is of no use.
pub fn turn(
    book: &[u8],
    sums: &[u32; 768],
    starts: &[usize; 65],
    standing: &mut [u64; 256],
    areas: &[u8; 256],
    sale_buyers: &[u8; 256],
    positions: &mut [u32; 192],
    eligible: &mut [bool; 64],
    targets: &mut [u64; 64],
    cuts: &mut [u64; 256],
    rests: &mut [u64; 256],
    place: usize,
    day: Day,
) -> Reduced
    requires run_of { RunOf (as_limits day.limits) (as_prices day.prices) book.now sums.now starts.now areas.now sale_buyers.now × (place < count_of_users book.now) × (0 < get_or targets.old place 0) }
    requires ongoing { Ongoing (as_limits day.limits) (book_of book.now) standing.old positions.old targets.old eligible.old × NoneCut cuts.old × (length rests.old ≡ 256) }
    ensures turned { (b : Book) → Going (as_limits day.limits) (book_of book.now) b standing.old positions.old targets.old eligible.old
        → Turned (as_limits day.limits) (book_of book.now) b place targets.old standing.new positions.new targets.new eligible.new
        (part (get_or starts.now place 0) (get_or starts.now (place + 1) 0) cuts.new) result.tally result.least }
    ensures cut_in { CutIn (get_or starts.now place 0) (get_or starts.now (place + 1) 0) cuts.new × (length rests.new ≡ 256)
        × OthersStand (count_of_users book.now) starts.now place standing.old standing.new }
{
    let from = starts[place];
    let to = starts[place + 1];
    let asked = Cents(targets[place]);
    let tally = run_reduction::reduce(
        standing,
        areas,
        sale_buyers,
        positions,
        cuts,
        rests,
        place,
        asked,
        day.prices,
        from,
        to,
    );
    let least = run_targets::look_again(
        book,
        sums,
        positions,
        sale_buyers,
        cuts,
        eligible,
        targets,
        place,
        from,
        to,
        day,
    );
    let left = run_targets::any_left(standing, from, to);
    eligible[place] = left;
    targets[place] = run_targets::owed_at(book, sums, positions, place, left, true, day).0;
    Reduced { tally, least }
}

// ---- cuts and places

// Clears the cuts from..to. A loop over the places, since `cuts[from..to].fill(0)` would ask that from is at most to.
pub fn clear(cuts: &mut [u64; 256], from: usize, to: usize)
    requires { CutIn from to cuts.old × (to ≤ 256) }
    ensures { NoneCut cuts.new }
{
    for i in from..to {
        cuts[i] = 0;
    }
}

// The first place from `least` on with a target, of n.
pub fn next_from(targets: &[u64; 64], least: usize, n: usize) -> Option<usize>
    requires { (least ≤ n) × (n ≤ 64) }
    ensures first { NextFrom targets.now least n (unwrap_or result n) }
    ensures inside { IfSome result (λ place. place < n) }
{
    for i in least..n {
        if 0 < targets[i] {
            return Some(i);
        }
    }
    None
}

// Reduces the user at a place, which is due, for its target, and clears its cuts.
fn plain_turn(
    book: &[u8],
    sums: &[u32; 768],
    starts: &[usize; 65],
    standing: &mut [u64; 256],
    areas: &[u8; 256],
    sale_buyers: &[u8; 256],
    positions: &mut [u32; 192],
    eligible: &mut [bool; 64],
    targets: &mut [u64; 64],
    cuts: &mut [u64; 256],
    rests: &mut [u64; 256],
    place: usize,
    day: Day,
) -> Reduced
    requires run_of { RunOf (as_limits day.limits) (as_prices day.prices) book.now sums.now starts.now areas.now sale_buyers.now × (place < count_of_users book.now) × (0 < get_or targets.old place 0) }
    requires ongoing { Ongoing (as_limits day.limits) (book_of book.now) standing.old positions.old targets.old eligible.old × NoneCut cuts.old × (length rests.old ≡ 256) }
    ensures turned_some { (b : Book) → Going (as_limits day.limits) (book_of book.now) b standing.old positions.old targets.old eligible.old
        → TurnedSome (as_limits day.limits) (book_of book.now) b place targets.old standing.new positions.new targets.new eligible.new result.tally result.least }
    ensures none_cut { NoneCut cuts.new × (length rests.new ≡ 256)
        × OthersStand (count_of_users book.now) starts.now place standing.old standing.new }
{
    let turned = turn(
        book,
        sums,
        starts,
        standing,
        areas,
        sale_buyers,
        positions,
        eligible,
        targets,
        cuts,
        rests,
        place,
        day,
    );
    let from = starts[place];
    let to = starts[place + 1];
    clear(cuts, from, to);
    turned
}

// ---- all of them

// From this reduction on a run is long: to look through the sales once more does not pay in a short one.
const LONG: u64 = 64;

// Is the user at a place reduced by what is kept of it: is the run long, and does the user have many sales?
fn is_kept(starts: &[usize; 65], place: usize, reductions: u64) -> bool
    requires { (place < 64) × (get_or starts.now place 0 ≤ get_or starts.now (place + 1) 0) }
    ensures { (result ≡ true → (64 ≤ reductions) × (get_or starts.now place 0 + 8 < get_or starts.now (place + 1) 0))
        × (result ≡ false → 64 ≤ reductions → get_or starts.now (place + 1) 0 ≤ get_or starts.now place 0 + 8) }
{
    LONG <= reductions && 8 < starts[place + 1] - starts[place]
}

// Where a run stands between two reductions: its totals so far, and the place of the user that is due next.
#[derive(Clone, Copy)]
pub struct Stage {
    pub totals: Totals,
    pub due: Option<usize>,
}

// Reduces the first user that is due in a book of n users, from a place on, until nobody is, or the run is long and one with many sales is.
fn run_plain(
    book: &[u8],
    n: usize,
    sums: &[u32; 768],
    starts: &[usize; 65],
    standing: &mut [u64; 256],
    areas: &[u8; 256],
    sale_buyers: &[u8; 256],
    positions: &mut [u32; 192],
    eligible: &mut [bool; 64],
    targets: &mut [u64; 64],
    cuts: &mut [u64; 256],
    rests: &mut [u64; 256],
    day: Day,
    so_far: Totals,
    due: Option<usize>,
) -> Stage
    requires run_of { RunOf (as_limits day.limits) (as_prices day.prices) book.now sums.now starts.now areas.now sale_buyers.now × (n ≡ count_of_users book.now) }
    requires run_to { RunTo (as_limits day.limits) book.now n standing.old positions.old targets.old eligible.old cuts.old rests.old so_far (unwrap_or due n) × IfSome due (λ place. place < n) }
    ensures run_to_2 { RunTo (as_limits day.limits) book.now n standing.new positions.new targets.new eligible.new cuts.new rests.new result.totals (unwrap_or result.due n) }
    ensures so_far_bound { (so_far.reductions ≤ result.totals.reductions) × (64 ≤ so_far.reductions → ManyStand n starts.now standing.old standing.new)
        × IfSome result.due (λ place. (place < n) × (64 ≤ result.totals.reductions) × (get_or starts.now place 0 + 8 < get_or starts.now (place + 1) 0)) }
{
    let mut totals = so_far;
    let mut next = due;
    while let Some(place) = next {
        if is_kept(starts, place, totals.reductions) {
            return Stage { totals, due: next };
        }
        let turned = plain_turn(
            book,
            sums,
            starts,
            standing,
            areas,
            sale_buyers,
            positions,
            eligible,
            targets,
            cuts,
            rests,
            place,
            day,
        );
        totals = totals.with(turned.tally);
        next = next_from(targets, turned.least, n);
    }
    Stage { totals, due: None }
}

// Runs a book of n users: reduces the first user that is due until nobody is. What stands of the own sales is then the rules' book.
pub fn run_on(
    book: &[u8],
    n: usize,
    sums: &[u32; 768],
    starts: &[usize; 65],
    standing: &mut [u64; 256],
    areas: &[u8; 256],
    sale_buyers: &[u8; 256],
    positions: &mut [u32; 192],
    eligible: &mut [bool; 64],
    targets: &mut [u64; 64],
    day: Day,
) -> Totals
    requires run_of { RunOf (as_limits day.limits) (as_prices day.prices) book.now sums.now starts.now areas.now sale_buyers.now × (n ≡ count_of_users book.now) }
    requires going { Going (as_limits day.limits) (book_of book.now) (book_of book.now) standing.old positions.old targets.old eligible.old }
    ensures { Ran (whole_run (as_limits day.limits) (book_of book.now)) (book_of book.now) standing.new result }
{
    let mut cuts = [0u64; 256];
    let mut rests = [0u64; 256];
    let first = next_from(targets, 0, n);
    let stage = run_plain(
        book,
        n,
        sums,
        starts,
        standing,
        areas,
        sale_buyers,
        positions,
        eligible,
        targets,
        &mut cuts,
        &mut rests,
        day,
        Totals::none(),
        first,
    );
    long::run_long(
        book,
        n,
        sums,
        starts,
        standing,
        areas,
        sale_buyers,
        positions,
        eligible,
        targets,
        &mut cuts,
        &mut rests,
        day,
        stage.totals,
        stage.due,
    )
}
