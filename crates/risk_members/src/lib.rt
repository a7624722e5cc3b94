// What one user holds with its members, as its risk is borne, for who asks it of one user alone: the sums over those whose risk it bears.
// In a version without managers they are those of its record and its own sums.
#![tactic(auto)]

ghost use Rattle.std.specs.Prelude.{true, ◌≡◌, ℕ, ◌+◌, ◌-◌, ◌≤◌, ◌<◌, ◌^◌, eqb, get_or};
ghost use Rattle.book_format.specs.Book.{trades_of, count_of_users, users_of, version_of};
ghost use Rattle.book_format.specs.Held.{Accepted};
ghost use Rattle.book_format.specs.Places.{UserIn};
ghost use Rattle.book_records.specs.User.{alone, as_amounts, as_user};
ghost use Rattle.book_sums.specs.Twelve.{Low, SumsOf};
ghost use Rattle.risk_bearers.specs.Bearers.{users_in};
ghost use Rattle.rules.specs.Areas.{managers_in};
ghost use Rattle.rules.specs.Bearers.{bearer, borne_sum};
ghost use Rattle.rules.specs.Book.{nobody};
ghost use Rattle.units.specs.Amounts.{net};
ghost use Rattle.risk_members.specs.Members.{HoldingsOf};
ghost use Rattle.risk_members.specs.Sums.{AmountRoom, HeldTo, HoldingRoom, SumTo};

use book_records::User;
use risk_holdings::{Holding, Holdings};
use units::{Energy, Net};

// ---- who bears the risk

// The id of who bears the risk of the user at a place in an area: of its manager there, or where it has none its own.
pub fn bearer_of(book: &[u8], place: usize, area: usize) -> u32
    requires { UserIn book.now place × (managers_in (version_of book.now) ≡ true) × (area < 3) }
    ensures { result ≡ bearer (get_or (users_of book.now) place nobody) area }
{
    let at = book_format::user_offset(book, place);
    let id = fields::get_u32(book, at + (book_records::MANAGERS + 4 * area));
    if id == 0 {
        fields::get_u32(book, at)
    } else {
        id
    }
}

// ---- the sums over itself and its members

// A sum, kept as the sum + 2^31, with an amount more.
fn with_amount(sum: Net, amount: Net) -> Net
    requires { (2 ^ 31 ≤ sum.0 + amount.0) × (sum.0 + amount.0 < 2 ^ 32 + 2 ^ 31) }
    ensures { result.0 ≡ sum.0 + amount.0 - 2 ^ 31 }
{
    Net((sum.0 as u64 + amount.0 as u64 - Net::OFFSET as u64) as u32)
}

// An energy with a number of 32 bits more.
fn with_energy(sum: Energy, energy: u32) -> Energy
    requires { sum.0 ≤ 2 ^ 40 }
    ensures { result.0 ≡ sum.0 + energy }
{
    sum.plus(Energy(energy as u64))
}

// An energy with one of the twelve sums more.
fn with_sum(sums: &[u32; 768], k: usize, sum: Energy) -> Energy
    requires { (k < 768) × (sum.0 ≤ 2 ^ 40) }
    ensures { result.0 ≡ sum.0 + get_or sums.now k 0 }
{
    with_energy(sum, sums[k])
}

// What is held in an area with what the user at a place has there more.
fn with_member(book: &[u8], sums: &[u32; 768], place: usize, area: usize, held: Holding) -> Holding
    requires { Accepted book.now × SumsOf (users_of book.now) (trades_of book.now) sums.now × (place < count_of_users book.now) × (area < 3) × HoldingRoom held }
    ensures { (id : ℕ) → eqb (bearer (get_or (users_of book.now) place nobody) area) id ≡ true → HeldTo book.now id area place held → HeldTo book.now id area (place + 1) result }
{
    let user = book_format::user_at(book, place);
    let physical = with_amount(held.physical, user.physical[area]);
    let position = with_amount(held.position, user.position[area]);
    let k = 12 * place + area;
    let sold = with_sum(sums, k, held.sold);
    let sold_next = with_sum(sums, k + 3, held.sold_next);
    let bought = with_sum(sums, k + 6, held.bought);
    let bought_next = with_sum(sums, k + 9, held.bought_next);
    Holding {
        physical,
        position,
        sold,
        bought,
        sold_next,
        bought_next,
    }
}

// What is held in an area by those of the n users whose risk the user of an id bears there.
fn held_in(book: &[u8], sums: &[u32; 768], n: usize, id: u32, area: usize) -> Holding
    requires { Accepted book.now × (managers_in (version_of book.now) ≡ true) × (n ≡ count_of_users book.now) × (area < 3) × SumsOf (users_of book.now) (trades_of book.now) sums.now }
    ensures { HeldTo book.now id area n result }
{
    let mut held = Holding {
        physical: Net::ZERO,
        position: Net::ZERO,
        sold: Energy(0),
        bought: Energy(0),
        sold_next: Energy(0),
        bought_next: Energy(0),
    };
    for i in 0..n {
        if bearer_of(book, i, area) == id {
            held = with_member(book, sums, i, area, held);
        }
    }
    held
}

// What the user at a place, of an id, holds with its members, in a version with managers.
fn held_by(book: &[u8], sums: &[u32; 768], place: usize, id: u32) -> Holdings
    requires { Accepted book.now × (managers_in (version_of book.now) ≡ true) × SumsOf (users_of book.now) (trades_of book.now) sums.now × (place < count_of_users book.now) × (id ≡ (get_or (users_of book.now) place nobody).party.id) }
    ensures { HoldingsOf book.now place result }
{
    let n = book_format::user_count(book) as usize;
    let pvb = held_in(book, sums, n, id, 0);
    let tvb = held_in(book, sums, n, id, 1);
    let avb = held_in(book, sums, n, id, 2);
    Holdings { pvb, tvb, avb }
}

// What the user at a place, whose record was read, holds as its risk is borne, given the sums of each user.
pub fn holdings_of(book: &[u8], sums: &[u32; 768], place: usize, user: User) -> Holdings
    requires { Accepted book.now × SumsOf (users_of book.now) (trades_of book.now) sums.now × (place < count_of_users book.now) × (as_user user ≡ alone (get_or (users_of book.now) place nobody)) }
    ensures { HoldingsOf book.now place result }
{
    if book_format::has_managers(book_format::version(book)) {
        held_by(book, sums, place, user.id)
    } else {
        risk_user::holdings_at(sums, place, user.physical, user.position)
    }
}

// ---- positions alone

// The position of the user at a place in an area, with a sum before it.
fn with_position(book: &[u8], place: usize, area: usize, sum: Net) -> Net
    requires { Accepted book.now × (place < count_of_users book.now) × (area < 3) × AmountRoom sum.0 }
    ensures { (id : ℕ) → eqb (bearer (get_or (users_of book.now) place nobody) area) id ≡ true → SumTo (users_of book.now) id area (λ v. v.position) place sum.0 → SumTo (users_of book.now) id area (λ v. v.position) (place + 1) result.0 }
{
    let user = book_format::user_at(book, place);
    with_amount(sum, user.position[area])
}

// The sum of the positions in an area over those of the n users whose risk the user of an id bears there.
fn position_in(book: &[u8], n: usize, id: u32, area: usize) -> Net
    requires { Accepted book.now × (managers_in (version_of book.now) ≡ true) × (n ≡ count_of_users book.now) × (area < 3) }
    ensures { net result ≡ borne_sum (λ v. v.position) (users_of book.now) id area }
{
    let mut position = Net::ZERO;
    for i in 0..n {
        if bearer_of(book, i, area) == id {
            position = with_position(book, i, area, position);
        }
    }
    position
}

// The positions of the user at a place, of an id, with its members, in a version with managers.
fn positions_by(book: &[u8], place: usize, id: u32) -> [Net; 3]
    requires { Accepted book.now × (managers_in (version_of book.now) ≡ true) × (place < count_of_users book.now) × (id ≡ (get_or (users_of book.now) place nobody).party.id) }
    ensures { as_amounts result ≡ (get_or (users_in book.now) place nobody).position }
{
    let n = book_format::user_count(book) as usize;
    let pvb = position_in(book, n, id, 0);
    let tvb = position_in(book, n, id, 1);
    let avb = position_in(book, n, id, 2);
    [pvb, tvb, avb]
}

// The positions of the user at a place, whose record was read, as its risk is borne.
pub fn positions_of(book: &[u8], place: usize, user: User) -> [Net; 3]
    requires { Accepted book.now × (place < count_of_users book.now) × (as_user user ≡ alone (get_or (users_of book.now) place nobody)) }
    ensures { as_amounts result ≡ (get_or (users_in book.now) place nobody).position }
{
    if book_format::has_managers(book_format::version(book)) {
        positions_by(book, place, user.id)
    } else {
        user.position
    }
}
