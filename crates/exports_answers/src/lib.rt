// The answers of the calls as numbers in a lent part, for the C interface: each kind of answer has its numbers in a fixed order, which are
// 0 where the call is refused, and its number is passed on.
#![tactic(auto)]

ghost use Rattle.std.specs.Prelude.{◌≡◌, length, replicate};
ghost use Rattle.refusals.specs.Refusal.{number_of};
ghost use Rattle.call_answers.specs.Level as levels;
ghost use Rattle.call_answers.specs.Warning as warnings;
ghost use Rattle.call_answers.specs.Call as calls;
ghost use Rattle.call_answers.specs.Reduction as reducing;
ghost use Rattle.call_answers.specs.Run as running;
ghost use Rattle.call_answers.specs.Withdrawal.{withdrawal_of};
ghost use Rattle.call_answers.specs.Told.{count_told, flag_told};
ghost use Rattle.exports_answers.specs.Numbers.{level_numbers, warning_numbers, flag_numbers, count_numbers};
ghost use Rattle.exports_answers.specs.Numbers.{call_numbers, reduction_numbers, run_numbers, withdrawal_numbers};

use call_answers::{GuaranteeCall, Reduction, Run};
use cut_worth::Tally;
use refusals::Refusal;
use units::Cents;

// Stores 0 in every place of a part, and gives the number of the refusal.
pub fn store_refusal(answer: &mut [u64], refusal: Refusal) -> u32
    ensures number { result ≡ number_of refusal }
    ensures numbers { answer.new ≡ replicate (length answer.old) 0 }
{
    answer.fill(0);
    refusal.number()
}

// Stores a level, and passes its number on.
#[tactic(auto, unfolding(crate::specs::Numbers::level_numbers))]
pub fn store_level(answer: &mut [u64], level: Result<Cents, Refusal>) -> u32
    requires { length answer.old ≡ 1 }
    ensures number { result ≡ (levels.reply_of level).number }
    ensures numbers { answer.new ≡ level_numbers (levels.reply_of level) }
{
    match level {
        Ok(level) => {
            answer.copy_from_slice(&[level.0]);
            0
        }
        Err(refusal) => store_refusal(answer, refusal),
    }
}

// Stores whether a user is warned, and passes the number on.
#[tactic(auto, unfolding(crate::specs::Numbers::warning_numbers, crate::specs::Numbers::bit))]
pub fn store_warning(answer: &mut [u64], warned: Result<bool, Refusal>) -> u32
    requires { length answer.old ≡ 1 }
    ensures number { result ≡ (warnings.reply_of warned).number }
    ensures numbers { answer.new ≡ warning_numbers (warnings.reply_of warned) }
{
    match warned {
        Ok(warned) => {
            answer.copy_from_slice(&[warned as u64]);
            0
        }
        Err(refusal) => store_refusal(answer, refusal),
    }
}

// Stores whether a user is flagged, and passes the number on.
#[tactic(auto, unfolding(crate::specs::Numbers::flag_numbers, crate::specs::Numbers::bit))]
pub fn store_flag(answer: &mut [u64], flagged: Result<bool, Refusal>) -> u32
    requires { length answer.old ≡ 1 }
    ensures number { result ≡ (flag_told flagged).number }
    ensures numbers { answer.new ≡ flag_numbers (flag_told flagged) }
{
    match flagged {
        Ok(flagged) => {
            answer.copy_from_slice(&[flagged as u64]);
            0
        }
        Err(refusal) => store_refusal(answer, refusal),
    }
}

// Stores how many trades a user may see, and passes the number on.
#[tactic(auto, unfolding(crate::specs::Numbers::count_numbers))]
pub fn store_count(answer: &mut [u64], count: Result<u32, Refusal>) -> u32
    requires { length answer.old ≡ 1 }
    ensures number { result ≡ (count_told count).number }
    ensures numbers { answer.new ≡ count_numbers (count_told count) }
{
    match count {
        Ok(count) => {
            answer.copy_from_slice(&[count as u64]);
            0
        }
        Err(refusal) => store_refusal(answer, refusal),
    }
}

// Stores a guarantee call's level and what it added, and passes its number on.
#[tactic(auto, unfolding(crate::specs::Numbers::call_numbers, rules::specs::Calls::only))]
pub fn store_call(answer: &mut [u64], call: Result<GuaranteeCall, Refusal>) -> u32
    requires { length answer.old ≡ 2 }
    ensures number { result ≡ (calls.answer_of call).number }
    ensures numbers { answer.new ≡ call_numbers (calls.answer_of call) }
{
    match call {
        Ok(call) => {
            answer.copy_from_slice(&[call.level.0, call.added.0]);
            0
        }
        Err(refusal) => store_refusal(answer, refusal),
    }
}

// Stores a reduction's MWh, worth, target, short and over, and passes its number on.
#[tactic(auto, unfolding(crate::specs::Numbers::reduction_numbers, rules::specs::Calls::only))]
pub fn store_reduction(answer: &mut [u64], reduction: Result<Reduction, Refusal>) -> u32
    requires { length answer.old ≡ 5 }
    ensures number { result ≡ (reducing.answer_of reduction).number }
    ensures numbers { answer.new ≡ reduction_numbers (reducing.answer_of reduction) }
{
    match reduction {
        Ok(reduction) => {
            answer.copy_from_slice(&[
                reduction.mwh.0,
                reduction.worth.0,
                reduction.target.0,
                reduction.short.0,
                reduction.over.0,
            ]);
            0
        }
        Err(refusal) => store_refusal(answer, refusal),
    }
}

// Stores the MWh and the worth of a reduction that was withdrawn, and passes the number on.
#[tactic(auto, unfolding(crate::specs::Numbers::withdrawal_numbers, rules::specs::Calls::only))]
pub fn store_withdrawal(answer: &mut [u64], withdrawal: Result<Tally, Refusal>) -> u32
    requires { length answer.old ≡ 2 }
    ensures number { result ≡ (withdrawal_of withdrawal).number }
    ensures numbers { answer.new ≡ withdrawal_numbers (withdrawal_of withdrawal) }
{
    match withdrawal {
        Ok(tally) => {
            answer.copy_from_slice(&[tally.mwh.0, tally.worth.0]);
            0
        }
        Err(refusal) => store_refusal(answer, refusal),
    }
}

// Stores a run's number of reductions, MWh and worth, and passes its number on: 20 where the log became full with one more due.
#[tactic(auto, unfolding(crate::specs::Numbers::run_numbers, rules::specs::Calls::only))]
pub fn store_run(answer: &mut [u64], run: Result<Run, Refusal>) -> u32
    requires { length answer.old ≡ 3 }
    ensures number { result ≡ (running.answer_of run).number }
    ensures numbers { answer.new ≡ run_numbers (running.answer_of run) }
{
    match run {
        Ok(run) => {
            let totals = run.totals;
            answer.copy_from_slice(&[totals.reductions, totals.mwh.0, totals.worth.0]);
            if run.log_is_full {
                Refusal::FullLog.number()
            } else {
                0
            }
        }
        Err(refusal) => store_refusal(answer, refusal),
    }
}
