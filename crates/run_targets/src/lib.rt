// Who owes a guarantee in a run, and how much: the targets before the first reduction, and after each those of the users that it touched.
#![tactic(auto)]

ghost use Rattle.std.specs.Prelude.{false, cond, ◌≡◌, ◌≤◌, min, ltb, get_or, length, set};
ghost use Rattle.book_format.specs.Book.{book_of, users_of};
ghost use Rattle.book_format.specs.Places.{UserIn};
ghost use Rattle.base.specs.Lists.{any};
ghost use Rattle.run_state.specs.Asked.{LookedAgain};
ghost use Rattle.book_sums.specs.Twelve.{Low};
ghost use Rattle.risk_user.specs.UserAt.{flagged_at, target_of_place, DayOf};
ghost use Rattle.run_state.specs.Going.{OwedOf};
ghost use Rattle.laws_sales.specs.Parts.{part};
ghost use Rattle.units.specs.Prices.{as_prices};
ghost use Rattle.units.specs.Limits.{as_limits};
ghost use Rattle.run_targets.specs.Asking.{BuyersIn, Opening, owed_if};

use risk_user::Day;
use units::Cents;

// ---- before the first reduction

// Does one of the sales from..to stand above 0? A loop over the places, since `standing[from..to]` would ask that from is at most to.
pub fn any_left(standing: &[u64; 256], from: usize, to: usize) -> bool
    requires { (to ≤ 256) × (length standing.now ≡ 256) }
    ensures { result ≡ any (λ n. ltb 0 n) (part from to standing.now) }
{
    for i in from..to {
        if 0 < standing[i] {
            return true;
        }
    }
    false
}

// T where the user at a place is due, else 0. `left`: it has an eligible trade; `below_notified`: it is party to a trade standing below
// notified.
pub fn owed_at(
    book: &[u8],
    sums: &[u32; 768],
    positions: &[u32; 192],
    place: usize,
    left: bool,
    below_notified: bool,
    day: Day,
) -> Cents
    requires { DayOf (as_limits day.limits) (as_prices day.prices) book.now × UserIn book.now place × Low sums.now }
    ensures { result.0 ≡ owed_if (flagged_at (as_limits day.limits) (as_prices day.prices) (users_of book.now) positions.now place) left below_notified
        (target_of_place (as_limits day.limits) (as_prices day.prices) (users_of book.now) sums.now positions.now place) }
{
    if left && risk_user::called_at(book, positions, place, below_notified, day) {
        risk_user::target_at(book, sums, positions, place, day)
    } else {
        Cents(0)
    }
}

// Fills in who has an eligible trade, and T where a user is due.
pub fn fill_targets(
    book: &[u8],
    n: usize,
    sums: &[u32; 768],
    positions: &[u32; 192],
    starts: &[usize; 65],
    standing: &[u64; 256],
    below_notified: &[bool; 64],
    eligible: &mut [bool; 64],
    targets: &mut [u64; 64],
    day: Day,
)
    requires day_of { DayOf (as_limits day.limits) (as_prices day.prices) book.now }
    requires opening { Opening (as_limits day.limits) (as_prices day.prices) n book.now sums.now positions.now starts.now standing.now below_notified.now × (length targets.old ≡ 64) × (length eligible.old ≡ 64) }
    ensures { OwedOf (as_limits day.limits) (book_of book.now) targets.new eligible.new × (length targets.new ≡ 64) × (length eligible.new ≡ 64) }
{
    for i in 0..n {
        let left = any_left(standing, starts[i], starts[i + 1]);
        eligible[i] = left;
        targets[i] = owed_at(book, sums, positions, i, left, below_notified[i], day).0;
    }
}

// ---- after a reduction

// Asks the user at a place anew where it has an eligible trade: it is party to a trade standing below notified. Hands back the lesser of
// `least` and the place asked.
fn look_at(
    book: &[u8],
    sums: &[u32; 768],
    positions: &[u32; 192],
    eligible: &[bool; 64],
    targets: &mut [u64; 64],
    place: usize,
    least: usize,
    day: Day,
) -> usize
    requires { DayOf (as_limits day.limits) (as_prices day.prices) book.now × UserIn book.now place × Low sums.now }
    ensures { (targets.new ≡ cond (get_or eligible.now place false)
        (set targets.old place (target_of_place (as_limits day.limits) (as_prices day.prices) (users_of book.now) sums.now positions.now place))
        targets.old) × (result ≡ cond (get_or eligible.now place false) (min least place) least) }
{
    if eligible[place] {
        let target = risk_user::target_at(book, sums, positions, place, day);
        targets[place] = target.0;
        return indices::lesser(least, place);
    }
    least
}

// Asks each buyer of a sale from..to that lost something anew. Hands back the least place asked, or `least`.
pub fn look_again(
    book: &[u8],
    sums: &[u32; 768],
    positions: &[u32; 192],
    sale_buyers: &[u8; 256],
    cuts: &[u64; 256],
    eligible: &[bool; 64],
    targets: &mut [u64; 64],
    least: usize,
    from: usize,
    to: usize,
    day: Day,
) -> usize
    requires { DayOf (as_limits day.limits) (as_prices day.prices) book.now × BuyersIn book.now sale_buyers.now from to × Low sums.now × (length cuts.now ≡ 256) × (length targets.old ≡ 64) }
    ensures { LookedAgain (target_of_place (as_limits day.limits) (as_prices day.prices) (users_of book.now) sums.now positions.now) eligible.now
        (part from to sale_buyers.now) (part from to cuts.now) targets.old targets.new result × (result ≤ least) }
{
    let mut low = least;
    for i in from..to {
        if 0 < cuts[i] {
            let place = indices::index(sale_buyers[i]);
            low = look_at(book, sums, positions, eligible, targets, place, low, day);
        }
    }
    low
}
