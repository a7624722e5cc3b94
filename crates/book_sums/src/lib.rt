// What each user sold and bought in each area for each day, counted trade by trade, and question 7: is every position as defined by it?
#![tactic(auto)]

ghost use Rattle.std.specs.Prelude.{◌≡◌, ◌+◌, ◌*◌, ◌≤◌, ◌<◌, length};
ghost use Rattle.units.specs.Amounts.{net};
ghost use Rattle.book_records.specs.User.{as_user};
ghost use Rattle.book_records.specs.Trade.{as_trade};
ghost use Rattle.book_parties.specs.Ids.{users_from};
ghost use Rattle.book_sums.specs.Positions.{position_as, positions_from, PositionsAsked};
ghost use Rattle.book_sums.specs.Twelve.{added, Addable};

use book_records::{Trade, User};
use units::Net;

// ---- the sums of both sides and days: twelve for each user, in the order of the users

// Counts a trade that is valid for its party at a place, on the side of the sellers (0) or of the buyers (1): what stands is added in its
// area and day.
pub fn add_trade(sums: &mut [u32; 768], place: usize, side: usize, t: Trade)
    requires { Addable side place (as_trade t) sums.old }
    ensures { sums.new ≡ added side place (as_trade t) sums.old }
{
    let k = 12 * place + 6 * side + 3 * (t.day as usize) + t.area as usize;
    sums[k] += t.standing.0;
}

// ---- the positions

// Is a position its physical entry + bought − sold?
fn is_position(position: Net, physical: Net, sold: u32, bought: u32) -> bool
    ensures { result ≡ position_as (net position) (net physical) bought sold }
{
    position.0 as u64 + sold as u64 == physical.0 as u64 + bought as u64
}

// Are the three positions of the user at place i as the sums have them?
fn user_positions_valid(u: User, sums: &[u32; 768], i: usize) -> bool
    requires { i < 64 }
    ensures { result ≡ positions_from (as_user u) sums.now i }
{
    let k = 12 * i;
    let pvb = is_position(u.position[0], u.physical[0], sums[k], sums[k + 6]);
    let tvb = is_position(u.position[1], u.physical[1], sums[k + 1], sums[k + 7]);
    let avb = is_position(u.position[2], u.physical[2], sums[k + 2], sums[k + 8]);
    pvb & (tvb & avb)
}

// Are all positions of the n users, in records of a size, from byte `at` on as defined, over trades of which these sums have what each user
// sold and bought?
pub fn positions_valid(s: &[u8], at: usize, size: usize, n: usize, sums: &[u32; 768]) -> bool
    requires { (n ≤ 64) × (56 ≤ size) × (at + size * n ≤ length s.now) }
    ensures { PositionsAsked (users_from size at n s.now) sums.now result }
{
    // `a` is where the user at hand begins, as the walks of `book_tables` have it.
    let mut a = at;
    for i in 0..n {
        let u = book_records::read_user(&s[a..a + book_records::USER_SIZE]);
        if !user_positions_valid(u, sums, i) {
            return false;
        }
        a += size;
    }
    true
}
