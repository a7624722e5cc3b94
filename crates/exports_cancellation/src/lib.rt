// The marks and the numbers of a whole cancellation in two lent parts, for the C interface: each in a fixed order.
#![tactic(auto)]

ghost use Rattle.std.specs.Prelude.{map, ◌≡◌, length};
ghost use Rattle.call_answers.specs.Cancellation.{cancellation_of};
ghost use Rattle.exports_answers.specs.Numbers.{bit};
ghost use Rattle.exports_cancellation.specs.Numbers.{cancellation_numbers, mark_numbers};

use call_answers::Cancellation;
use refusals::Refusal;

// Stores a number for each trade place: 1 where the trade is marked, else 0.
fn store_marks(part: &mut [u8], marks: [bool; 256])
    requires { length part.old ≡ 256 }
    ensures { part.new ≡ map bit marks }
{
    for i in 0..256 {
        part[i] = marks[i] as u8;
    }
}

// Stores the marks of a cancellation, and its excess, its tries and whether it is complete, 0 everywhere where the call is refused; passes
// its number on.
#[tactic(auto, unfolding(crate::specs::Numbers::mark_numbers, crate::specs::Numbers::cancellation_numbers, exports_answers::specs::Numbers::bit, requests::specs::Cancellation::not_cancelled))]
pub fn store_cancellation(
    part: &mut [u8],
    answer: &mut [u64],
    cancellation: Result<Cancellation, Refusal>,
) -> u32
    requires { (length part.old ≡ 256) × (length answer.old ≡ 3) }
    ensures number { result ≡ (cancellation_of cancellation).number }
    ensures marks { part.new ≡ mark_numbers (cancellation_of cancellation) }
    ensures numbers { answer.new ≡ cancellation_numbers (cancellation_of cancellation) }
{
    match cancellation {
        Ok(found) => {
            store_marks(part, found.marks);
            answer.copy_from_slice(&[found.excess.0, found.tries as u64, found.complete as u64]);
            0
        }
        Err(refusal) => {
            part.fill(0);
            exports_answers::store_refusal(answer, refusal)
        }
    }
}
