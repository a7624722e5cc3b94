// A return of shrinkage and the days of a share as numbers in a lent part, for the C interface: each in a fixed order.
#![tactic(auto)]

ghost use Rattle.std.specs.Prelude.{◌≡◌, length};
ghost use Rattle.shrinkage.specs.Answer.{as_returned, kwh_of};
ghost use Rattle.exports_shrinkage.specs.Numbers.{return_numbers, table_numbers};

use refusals::Refusal;
use shrinkage::{Kwh, ShrinkageReturn};

// The three amounts of a return, then the table of its users: the 64 shares and the 64 remainders.
fn table(half: Kwh, odd: Kwh, rest: Kwh, shares: [Kwh; 64], remainders: [u64; 64]) -> [u64; 131]
    ensures { result ≡ table_numbers half.0 odd.0 rest.0 (kwh_of shares) remainders }
{
    let mut numbers = [0u64; 131];
    numbers[0] = half.0;
    numbers[1] = odd.0;
    numbers[2] = rest.0;
    for i in 0..64 {
        numbers[3 + i] = shares[i].0;
        numbers[67 + i] = remainders[i];
    }
    numbers
}

// Stores a return, 0 everywhere where it is refused, and passes its number on.
#[tactic(auto, unfolding(crate::specs::Numbers::return_numbers, crate::specs::Numbers::table_numbers, shrinkage::specs::Return::nothing, shrinkage::specs::Answer::kwh_of))]
pub fn store_return(answer: &mut [u64], returned: Result<ShrinkageReturn, Refusal>) -> u32
    requires { length answer.old ≡ 131 }
    ensures number { result ≡ (as_returned returned).number }
    ensures numbers { answer.new ≡ return_numbers (as_returned returned) }
{
    match returned {
        Ok(r) => {
            answer.copy_from_slice(&table(r.half, r.odd, r.rest, r.shares, r.remainders));
            0
        }
        Err(refusal) => exports_answers::store_refusal(answer, refusal),
    }
}

// Stores the days of a share.
pub fn store_days(answer: &mut [u64], days: [Kwh; 30])
    requires { length answer.old ≡ 30 }
    ensures { answer.new ≡ kwh_of days }
{
    for i in 0..30 {
        answer[i] = days[i].0;
    }
}
