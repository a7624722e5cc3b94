// What a reduction and a whole cancellation ask of a user before they look at its sales: the questions 9, 11 and 13 on its state, and the
// target T where none of them refuses.
#![tactic(auto)]

ghost use Rattle.std.specs.Prelude.{◌≡◌, ◌<◌, get_or, length};
ghost use Rattle.refusals.specs.Refusal.{number_in};
ghost use Rattle.book_format.specs.Book.{book_of, count_of_users, users_of};
ghost use Rattle.units.specs.Limits.{as_limits};
ghost use Rattle.risk_bearers.specs.Bearers.{users_in};
ghost use Rattle.risk_user.specs.UserAt.{PositionsOf};
ghost use Rattle.risk_user.specs.States.{state_of};
ghost use Rattle.rules.specs.Book.{nobody};
ghost use Rattle.run_reduction.specs.Books.{Runnable};
ghost use Rattle.units.specs.Prices.{as_prices};
ghost use Rattle.call_questions.specs.Asked.{ShortfallOf, refused_by_state, target_in};

use refusals::Refusal;
use risk_user::{Day, State};
use units::Cents;

// Asks the questions 9, 11 and 13 of a user in this state.
fn refused_by(state: State) -> Result<(), Refusal>
    ensures { number_in result ≡ refused_by_state (state_of state) }
{
    match state {
        State::Clear => Err(Refusal::NoShipper),
        State::Short => Ok(()),
        State::Call => Err(Refusal::AssignedSuffices),
        State::Quiet => Err(Refusal::NotDue),
    }
}

// Asks the questions 9, 11 and 13 of the user at a place, and fills in the positions of all users. Gives the target.
pub fn shortfall_at(
    book: &[u8],
    bearing_sellers: &[u8; 256],
    bearing_buyers: &[u8; 256],
    sums: &[u32; 768],
    positions: &mut [u32; 192],
    place: usize,
    day: Day,
) -> Result<Cents, Refusal>
    requires { Runnable (as_limits day.limits) (as_prices day.prices) book.now bearing_sellers.now bearing_buyers.now sums.now × (place < count_of_users book.now) × (length positions.old ≡ 192) }
    ensures shortfall_of { ShortfallOf (as_limits day.limits) (book_of book.now) (get_or (users_of book.now) place nobody) (number_in result) (target_in result) }
    ensures positions_of { PositionsOf (users_in book.now) positions.new × (length positions.new ≡ 192) }
{
    let n = book_format::user_count(book) as usize;
    let m = book_format::trade_count(book) as usize;
    run_positions::fill_positions(book, n, positions);
    let below_notified = cut_parties::below_notified_at(
        book,
        n,
        m,
        bearing_sellers,
        bearing_buyers,
        place,
    );
    let called = risk_user::called_at(book, positions, place, below_notified, day);
    let level = risk_user::level_at(book, sums, positions, place, day);
    refused_by(risk_user::state_of(book, place, level, called, day))?;
    Ok(risk_user::target_of(book, place, level, day))
}
