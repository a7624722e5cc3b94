// What is read of one user: its record, its money, its holdings and positions; and its level, called in, target and state, asked of these.
// The money is read from the bytes of a book; positions, and what was sold and bought, from arrays with three positions and twelve sums for
// each place, so that a run asks it of the book that it has come to as well.
#![tactic(auto)]

ghost use Rattle.std.specs.Prelude.{◌≡◌, ◌≤◌, ◌<◌, ◌^◌, get_or, ◌||◌};
ghost use Rattle.rules.specs.Book.{at, nobody};
ghost use Rattle.rules.specs.Levels.{exceeds_its_margin};
ghost use Rattle.units.specs.Limits.{as_limits};
ghost use Rattle.book_records.specs.User.{as_amounts};
ghost use Rattle.book_format.specs.Book.{users_of};
ghost use Rattle.book_format.specs.Places.{UserIn};
ghost use Rattle.risk_holdings.specs.Holdings.{as_holding, HoldingWithin};
ghost use Rattle.book_sums.specs.Twelve.{Low};
ghost use Rattle.units.specs.Amounts.{balance};
ghost use Rattle.units.specs.Prices.{as_prices};
ghost use Rattle.risk_user.specs.UserAt.{DayOf, HeldWith, flagged_at, holding_by, level_of_place, positions_in, target_of_place, target_of};
ghost use Rattle.risk_user.specs.States.{state_by, state_of};

use risk_holdings::{Holding, Holdings};
use std::fmt;
use units::{Balance, Cents, Energy, Limits, Net, Prices};

// ---- its record

// The role: 0 is a shipper's.
pub fn role_at(book: &[u8], place: usize) -> u8
    requires { UserIn book.now place }
    ensures { result ≡ (get_or (users_of book.now) place nobody).party.role }
{
    fields::get_u8(
        book,
        book_format::user_offset(book, place) + book_records::ROLE,
    )
}

// The charges.
pub fn charges_at(book: &[u8], place: usize) -> Balance
    requires { UserIn book.now place }
    ensures { balance result ≡ (get_or (users_of book.now) place nobody).party.charges }
{
    Balance::of_bits(fields::get_u64(
        book,
        book_format::user_offset(book, place) + book_records::CHARGES,
    ))
}

// The assigned guarantee.
pub fn assigned_at(book: &[u8], place: usize) -> Cents
    requires { UserIn book.now place }
    ensures { result.0 ≡ (get_or (users_of book.now) place nobody).party.assigned }
{
    Cents(fields::get_u64(
        book,
        book_format::user_offset(book, place) + book_records::ASSIGNED,
    ))
}

// The blocked guarantee.
pub fn blocked_at(book: &[u8], place: usize) -> Cents
    requires { UserIn book.now place }
    ensures { result.0 ≡ (get_or (users_of book.now) place nobody).blocked }
{
    Cents(fields::get_u64(
        book,
        book_format::user_offset(book, place) + book_records::BLOCKED,
    ))
}

// ---- what it holds

// The positions of the user at a place, for each area.
fn positions_at(positions: &[u32; 192], place: usize) -> [Net; 3]
    requires { place < 64 }
    ensures { as_amounts result ≡ positions_in positions.now place }
{
    let k = 3 * place;
    [
        Net(positions[k]),
        Net(positions[k + 1]),
        Net(positions[k + 2]),
    ]
}

// A number of 32 bits as an energy.
fn energy(x: u32) -> Energy
    ensures { result.0 ≡ x }
{
    Energy(x as u64)
}

// One of the twelve sums.
fn sum_at(sums: &[u32; 768], k: usize) -> Energy
    requires { Low sums.now × (k < 768) }
    ensures { (result.0 ≡ get_or sums.now k 0) × (result.0 ≤ 25600000) }
{
    energy(sums[k])
}

// What the user at a place holds in an area, with its physical entries and its positions.
fn holding_at(
    sums: &[u32; 768],
    place: usize,
    area: usize,
    physical: [Net; 3],
    position: [Net; 3],
) -> Holding
    requires { Low sums.now × (place < 64) × (area < 3) }
    ensures result_value { as_holding result ≡ holding_by sums.now place area (at (as_amounts physical) area) (at (as_amounts position) area) }
    ensures holding_within { HoldingWithin (2 ^ 40) result }
{
    let k = 12 * place + area;
    let sold = sum_at(sums, k);
    let sold_next = sum_at(sums, k + 3);
    let bought = sum_at(sums, k + 6);
    let bought_next = sum_at(sums, k + 9);
    Holding {
        physical: physical[area],
        position: position[area],
        sold,
        bought,
        sold_next,
        bought_next,
    }
}

// What the user at a place holds, with its physical entries and its positions.
pub fn holdings_at(
    sums: &[u32; 768],
    place: usize,
    physical: [Net; 3],
    position: [Net; 3],
) -> Holdings
    requires { Low sums.now × (place < 64) }
    ensures { HeldWith sums.now place (as_amounts physical) (as_amounts position) result }
{
    let pvb = holding_at(sums, place, 0, physical, position);
    let tvb = holding_at(sums, place, 1, physical, position);
    let avb = holding_at(sums, place, 2, physical, position);
    Holdings { pvb, tvb, avb }
}

// ---- level, called in and target

// The limits and the prices of a day.
#[derive(Clone, Copy)]
pub struct Day {
    pub limits: Limits,
    pub prices: Prices,
}

// The afternoon level of the user at a place.
pub fn level_at(
    book: &[u8],
    sums: &[u32; 768],
    positions: &[u32; 192],
    place: usize,
    day: Day,
) -> Cents
    requires { DayOf (as_limits day.limits) (as_prices day.prices) book.now × UserIn book.now place × Low sums.now }
    ensures { result.0 ≡ level_of_place (as_limits day.limits) (as_prices day.prices) (users_of book.now) sums.now positions.now place }
{
    let charges = charges_at(book, place);
    let position = positions_at(positions, place);
    let holdings = holdings_at(sums, place, [Net::ZERO; 3], position);
    risk_levels::afternoon_level(day.limits, day.prices, charges, holdings)
}

// Is the user at a place called in: flagged, or party to a trade standing below notified (`below_notified`)?
pub fn called_at(
    book: &[u8],
    positions: &[u32; 192],
    place: usize,
    below_notified: bool,
    day: Day,
) -> bool
    requires { DayOf (as_limits day.limits) (as_prices day.prices) book.now × UserIn book.now place }
    ensures { result ≡ flagged_at (as_limits day.limits) (as_prices day.prices) (users_of book.now) positions.now place || below_notified }
{
    let blocked = blocked_at(book, place);
    let position = positions_at(positions, place);
    risk_levels::called_in(day.limits, day.prices, blocked, position, below_notified)
}

// Does a level of the user at a place exceed its blocked guarantee by more than the margin?
fn exceeds_margin(book: &[u8], place: usize, level: Cents, day: Day) -> bool
    requires { DayOf (as_limits day.limits) (as_prices day.prices) book.now × UserIn book.now place }
    ensures { result ≡ exceeds_its_margin (as_limits day.limits) level.0 (get_or (users_of book.now) place nobody) }
{
    risk_levels::exceeds_margin(day.limits, level, blocked_at(book, place))
}

// T where the shipper at a place, of this level and called in, is short of cover; else 0.
pub fn target_of(book: &[u8], place: usize, level: Cents, day: Day) -> Cents
    requires { DayOf (as_limits day.limits) (as_prices day.prices) book.now × UserIn book.now place }
    ensures { result.0 ≡ target_of (as_limits day.limits) (get_or (users_of book.now) place nobody) level.0 }
{
    if exceeds_margin(book, place, level, day) {
        level.less(assigned_at(book, place))
    } else {
        Cents(0)
    }
}

// T where the user at a place, who is called in, is short of cover; else 0.
pub fn target_at(
    book: &[u8],
    sums: &[u32; 768],
    positions: &[u32; 192],
    place: usize,
    day: Day,
) -> Cents
    requires { DayOf (as_limits day.limits) (as_prices day.prices) book.now × UserIn book.now place × Low sums.now }
    ensures { result.0 ≡ target_of_place (as_limits day.limits) (as_prices day.prices) (users_of book.now) sums.now positions.now place }
{
    if role_at(book, place) != 0 {
        return Cents(0);
    }
    let level = level_at(book, sums, positions, place, day);
    target_of(book, place, level, day)
}

// ---- the state

// What a user is: a clearing house, short of cover, called in with a guarantee that suffices, or none of these.
#[derive(Clone, Copy, Debug, PartialEq, Eq)]
pub enum State {
    Clear,
    Short,
    Call,
    Quiet,
}

// The word that is printed of a state.
impl fmt::Display for State {
    fn fmt<W: fmt::Write>(&self, f: &mut fmt::Formatter<W>) -> fmt::Result {
        f.write_str(match self {
            State::Clear => "clear",
            State::Short => "short",
            State::Call => "call",
            State::Quiet => "quiet",
        })
    }
}

// The state of the user at a place, of this level.
pub fn state_of(book: &[u8], place: usize, level: Cents, called: bool, day: Day) -> State
    requires { DayOf (as_limits day.limits) (as_prices day.prices) book.now × UserIn book.now place }
    ensures { state_of result ≡ state_by (as_limits day.limits) (get_or (users_of book.now) place nobody) level.0 called }
{
    if role_at(book, place) != 0 {
        return State::Clear;
    }
    if !called {
        return State::Quiet;
    }
    let target = target_of(book, place, level, day);
    if 0 < target.0 {
        return State::Short;
    }
    if exceeds_margin(book, place, level, day) {
        return State::Call;
    }
    State::Quiet
}
