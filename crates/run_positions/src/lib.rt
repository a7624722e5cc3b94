// The positions of a run's users in an array, three for each place: filled in from the bytes of the opening book, and moved by the cut of a
// sale.
#![tactic(auto)]

ghost use Rattle.std.specs.Prelude.{◌≡◌, ◌+◌, ◌*◌, ◌-◌, ◌≤◌, ◌<◌, ◌^◌, ltb, get_or, length, true};
ghost use Rattle.book_format.specs.Book.{count_of_users, users_of, version_of};
ghost use Rattle.book_format.specs.Held.{Accepted};
ghost use Rattle.risk_bearers.specs.Bearers.{users_in};
ghost use Rattle.rules.specs.Areas.{managers_in};
ghost use Rattle.book_format.specs.Places.{UserIn};
ghost use Rattle.book_format.specs.Questions.{Formed};
ghost use Rattle.base.specs.Parts.{neg_part};
ghost use Rattle.rules.specs.Book.{at, nobody};
ghost use Rattle.run_state.specs.Asked.{moved_one};
ghost use Rattle.risk_user.specs.UserAt.{PositionsOf};
ghost use Rattle.units.specs.Amounts.{net};
ghost use Rattle.run_positions.specs.Moving.{ShortIn};

use units::Net;

// ---- positions of the opening book

// The position of the user at a place in an area, kept as the position + 2^31.
fn position_in(book: &[u8], place: usize, area: usize) -> u32
    requires { UserIn book.now place × (area < 3) }
    ensures { net (record { 0 = result }) ≡ at (get_or (users_of book.now) place nobody).position area }
{
    let at = book_format::position_offset(book, place, area);
    Net::of_bits(fields::get_u32(book, at)).0
}

// Fills in the three positions of each of n users, as their records have them.
pub fn fill_own(book: &[u8], n: usize, positions: &mut [u32; 192])
    requires { Formed book.now × (n ≡ count_of_users book.now) × (length positions.old ≡ 192) }
    ensures { PositionsOf (users_of book.now) positions.new × (length positions.new ≡ 192) }
{
    for i in 0..n {
        let k = 3 * i;
        positions[k] = position_in(book, i, 0);
        positions[k + 1] = position_in(book, i, 1);
        positions[k + 2] = position_in(book, i, 2);
    }
}

// Fills in the three positions of each of n users in a version with managers: the sums over those whose risk it bears.
fn fill_borne(book: &[u8], n: usize, positions: &mut [u32; 192])
    requires { Accepted book.now × (managers_in (version_of book.now) ≡ true) × (n ≡ count_of_users book.now) × (length positions.old ≡ 192) }
    ensures { PositionsOf (users_in book.now) positions.new × (length positions.new ≡ 192) }
{
    let mut own = [0u32; 192];
    fill_own(book, n, &mut own);
    let mut bearers = [0u8; 192];
    risk_bearers::fill_bearers(book, n, &mut bearers);
    risk_bearers::bear_amounts(&own, &bearers, n, positions);
}

// Fills in the three positions of each of n users, as their risk is borne. In a version without managers each bears its own.
pub fn fill_positions(book: &[u8], n: usize, positions: &mut [u32; 192])
    requires { Accepted book.now × (n ≡ count_of_users book.now) × (length positions.old ≡ 192) }
    ensures { PositionsOf (users_in book.now) positions.new × (length positions.new ≡ 192) }
{
    if book_format::has_managers(book_format::version(book)) {
        fill_borne(book, n, positions)
    } else {
        fill_own(book, n, positions)
    }
}

// ---- tiers

// Is a position negative?
fn is_short(x: u32) -> bool
    ensures { result ≡ ltb 0 (neg_part (net (record { 0 = x }))) }
{
    x < Net::OFFSET
}

// Whether the position of the user at a place is negative, for each area.
pub fn shorts_at(positions: &[u32; 192], place: usize) -> [bool; 3]
    requires { place < 64 }
    ensures { ShortIn positions.now place result }
{
    let k = 3 * place;
    let pvb = is_short(positions[k]);
    let tvb = is_short(positions[k + 1]);
    let avb = is_short(positions[k + 2]);
    [pvb, tvb, avb]
}

// ---- moves

// A position that rises by a cut.
fn risen(x: u32, cut: u64) -> u32
    requires { x + cut < 2 ^ 32 }
    ensures { result ≡ x + cut }
{
    (x as u64 + cut) as u32
}

// A position that falls by a cut.
fn fallen(x: u32, cut: u64) -> u32
    requires { cut ≤ x }
    ensures { result ≡ x - cut }
{
    (x as u64 - cut) as u32
}

// Moves the positions of the seller and the buyer of a sale, at their places, by its cut: the seller's rises and the buyer's falls.
pub fn move_sale(positions: &mut [u32; 192], place: usize, buyer: usize, area: usize, cut: u64)
    requires place_bound { (place < 64) × (buyer < 64) × (area < 3) × (length positions.old ≡ 192) }
    requires cut_bound { (get_or positions.old (3 * place + area) 0 + cut < 2 ^ 32) × (cut ≤ get_or positions.old (3 * buyer + area) 0) }
    ensures { positions.new ≡ moved_one place buyer area cut positions.old }
{
    let up = 3 * place + area;
    positions[up] = risen(positions[up], cut);
    let down = 3 * buyer + area;
    positions[down] = fallen(positions[down], cut);
}
