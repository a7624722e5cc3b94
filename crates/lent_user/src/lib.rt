// One user record changed in place: the record is lent by `&mut`, and its blocked guarantee is raised to a level.
#![tactic(auto)]

ghost use Rattle.lent_user.specs.Raising.{RaisedTo, BlockedTo};

use book_records::User;
use units::Cents;

// A blocked guarantee that was raised, and what was added to it.
#[derive(Clone, Copy)]
pub struct Raised {
    pub blocked: Cents,
    pub added: Cents,
}

// A blocked guarantee raised to a level. One that has reached the level stays.
pub fn raise(blocked: Cents, level: Cents) -> Raised
    ensures { RaisedTo level.0 blocked.0 result }
{
    let added = level.less(blocked);
    Raised {
        blocked: blocked.plus(added),
        added,
    }
}

// The record is changed where it is: its blocked guarantee is raised to the level. Gives back what was added.
pub fn block(user: &mut User, level: Cents) -> Cents
    ensures { BlockedTo level.0 user.old user.new result }
{
    let next = raise(user.blocked, level);
    user.blocked = next.blocked;
    next.added
}

// A user whose blocked guarantee was raised, and what was added to it.
#[derive(Clone, Copy)]
pub struct Blocking {
    pub user: User,
    pub added: Cents,
}

// A record by value is lent to `block`.
pub fn blocked_user(mut user: User, level: Cents) -> Blocking
    ensures { BlockedTo level.0 user result.user result.added }
{
    let added = block(&mut user, level);
    Blocking { user, added }
}
