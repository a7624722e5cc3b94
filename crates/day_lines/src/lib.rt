// What is printed of a user after the run: id, state, afternoon level and the three positions of its record. A line is told from the book's
// bytes, and from the sums and the positions of its users as their risk is borne, which are gathered once for all lines.
#![tactic(auto)]

ghost use Rattle.std.specs.Prelude.{cond, ◌≡◌};
ghost use Rattle.rules.specs.Levels.{shipper};
ghost use Rattle.book_records.specs.User.{as_user};
ghost use Rattle.book_format.specs.Book.{book_of};
ghost use Rattle.units.specs.Prices.{as_prices};
ghost use Rattle.units.specs.Limits.{as_limits};
ghost use Rattle.day_lines.specs.Lines.{LineAsked, as_line, line_in};

use book_records::User;
use risk_user::{Day, State};
use units::{Cents, Net};

// The level that is printed of a user whose afternoon level is given: that level, and 0 of a clearing house.
fn printed_level(user: User, level: Cents) -> Cents
    ensures { result.0 ≡ cond (shipper (as_user user)) level.0 0 }
{
    if user.role == 0 {
        return level;
    }
    Cents(0)
}

// A line of the printed day.
#[derive(Clone, Copy)]
pub struct Line {
    pub id: u32,
    pub state: State,
    pub level: Cents,
    pub position: [Net; 3],
}

// The line of the user at a place of an accepted book. `below_notified`: as the risk is borne, the user is party to a trade standing below
// notified.
pub fn line_at(
    book: &[u8],
    sums: &[u32; 768],
    positions: &[u32; 192],
    place: usize,
    below_notified: bool,
    day: Day,
) -> Line
    requires { LineAsked (as_limits day.limits) (as_prices day.prices) book.now sums.now positions.now place below_notified }
    ensures { as_line result ≡ line_in (as_limits day.limits) (book_of book.now) place }
{
    let user = book_format::user_at(book, place);
    let position = user.position;
    let level = risk_user::level_at(book, sums, positions, place, day);
    let called = risk_user::called_at(book, positions, place, below_notified, day);
    let state = risk_user::state_of(book, place, level, called, day);
    let printed = printed_level(user, level);
    Line {
        id: user.id,
        state,
        level: printed,
        position,
    }
}
