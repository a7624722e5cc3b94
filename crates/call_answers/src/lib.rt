// What the public calls give where they are carried out: what a call found, made or cut. A call that is refused gives a `Refusal` in place
// of it. A level is `Cents`, a warning and a flag are a `bool`, a count of trades is a number, a withdrawal is the `Tally` of what it gave
// back; the others have a type of their own here.
#![tactic(auto)]

ghost use Rattle.std.specs.Prelude.{◌≡◌, Ok};
ghost use Rattle.rules.specs.Calls.{answer_of_cuts};
ghost use Rattle.cut_worth.specs.Tallies.{as_tally};
ghost use Rattle.call_answers.specs.Reduction as reduction;

use cut_worth::{Tally, Totals};
use risk_user::State;
use units::{Cents, Energy};

// A user's id, its state, and its morning and its afternoon level, which are 0 of a clearing house.
#[derive(Clone, Copy)]
pub struct UserLevels {
    pub id: u32,
    pub state: State,
    pub morning: Cents,
    pub afternoon: Cents,
}

// A guarantee call: the level, and what was added to the blocked guarantee.
#[derive(Clone, Copy)]
pub struct GuaranteeCall {
    pub level: Cents,
    pub added: Cents,
}

// A reduction: the MWh cut and their worth, the target, and what the worth falls short of it or exceeds it by.
#[derive(Clone, Copy)]
pub struct Reduction {
    pub mwh: Energy,
    pub worth: Cents,
    pub target: Cents,
    pub short: Cents,
    pub over: Cents,
}

impl Reduction {
    // The reduction for an amount, by the tally of its cuts.
    pub fn of_cuts(target: Cents, tally: Tally) -> Reduction
        ensures { reduction.answer_of (Ok result) ≡ answer_of_cuts target.0 (as_tally tally) }
    {
        let worth = tally.worth;
        Reduction {
            mwh: tally.mwh,
            worth,
            target,
            short: target.less(worth),
            over: worth.less(target),
        }
    }
}

// A run: the totals of its reductions, and whether it stopped with one more due, since the log that it was given is full.
#[derive(Clone, Copy)]
pub struct Run {
    pub totals: Totals,
    pub log_is_full: bool,
}

// A whole cancellation: the marks of the trades to cancel, by trade place, what their worth exceeds the target by, the tries made, and
// whether the search is complete.
#[derive(Clone, Copy)]
pub struct Cancellation {
    pub marks: [bool; 256],
    pub excess: Cents,
    pub tries: u32,
    pub complete: bool,
}
