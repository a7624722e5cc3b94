// The levels of all users as numbers in a lent part, for the C interface: four for each of 64 users, in a fixed order.
#![tactic(auto)]

ghost use Rattle.std.specs.Prelude.{map, ◌≡◌, length};
ghost use Rattle.risk_user.specs.States.{state_of};
ghost use Rattle.call_answers.specs.Levels.{as_row, levels_told};
ghost use Rattle.exports_users.specs.Numbers.{row_numbers, rows_numbers, number_of_state, users_numbers};

use call_answers::UserLevels;
use refusals::Refusal;
use risk_user::State;

// The number of a state.
fn state_number(state: State) -> u64
    ensures { result ≡ number_of_state (state_of state) }
{
    match state {
        State::Clear => 0,
        State::Short => 1,
        State::Call => 2,
        State::Quiet => 3,
    }
}

// The numbers of a user: its id, its state, its morning and its afternoon level.
#[tactic(auto, unfolding(crate::specs::Numbers::row_numbers, call_answers::specs::Levels::as_row))]
fn numbers_of(row: UserLevels) -> [u64; 4]
    ensures { result ≡ row_numbers (as_row row) }
{
    [
        row.id as u64,
        state_number(row.state),
        row.morning.0,
        row.afternoon.0,
    ]
}

// Stores the numbers of 64 users.
fn store_rows(answer: &mut [u64], users: [UserLevels; 64])
    requires { length answer.old ≡ 256 }
    ensures { answer.new ≡ rows_numbers (map as_row users) }
{
    for i in 0..64 {
        answer[4 * i..4 * i + 4].copy_from_slice(&numbers_of(users[i]));
    }
}

// Stores the levels of all users, 0 everywhere where the call is refused, and passes the number on.
#[tactic(auto, unfolding(crate::specs::Numbers::users_numbers, crate::specs::Numbers::rows_numbers, crate::specs::Numbers::row_numbers, crate::specs::Numbers::number_of_state, user_levels::specs::Levels::no_levels))]
pub fn store_levels(answer: &mut [u64], levels: Result<[UserLevels; 64], Refusal>) -> u32
    requires { length answer.old ≡ 256 }
    ensures number { result ≡ (levels_told levels).number }
    ensures numbers { answer.new ≡ users_numbers (levels_told levels) }
{
    match levels {
        Ok(users) => {
            store_rows(answer, users);
            0
        }
        Err(refusal) => exports_answers::store_refusal(answer, refusal),
    }
}
