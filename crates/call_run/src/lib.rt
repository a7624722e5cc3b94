// The run of a lent book in bytes: while some user that is short of cover has an eligible trade, the one of the lowest id is reduced.
#![tactic(auto)]

ghost use Rattle.std.specs.Prelude.{◌≡◌, is_ok, IfOk};
ghost use Rattle.refusals.specs.Refusal.{number_in};
ghost use Rattle.store.specs.Asked.{figures_in};
ghost use Rattle.book_format.specs.After.{CalledAfter};
ghost use Rattle.units.specs.Limits.{as_limits};
ghost use Rattle.book_questions.specs.Opened.{Opened};
ghost use Rattle.call_answers.specs.Run.{answer_of};
ghost use Rattle.call_run.specs.Call.{run_call};

use call_answers::Run;
use refusals::Refusal;
use risk_user::Day;
use units::Limits;

// Runs the book that the bytes hold, in the bytes, after the opening questions, whose refusal or figures are given with the places of
// the trades' parties and the sums of the users. It is refused only where they were.
pub fn run(
    book: &mut [u8],
    opened: Result<Limits, Refusal>,
    sellers: &[u8; 256],
    buyers: &[u8; 256],
    sums: &mut [u32; 768],
) -> Result<Run, Refusal>
    requires { IfOk opened (λ limits. Opened (as_limits limits) book.old sellers.now buyers.now sums.old) }
    ensures called { CalledAfter (number_in opened) (figures_in opened) book.old run_call (answer_of result) book.new }
    ensures carried_out { is_ok result ≡ is_ok opened }
{
    let limits = opened?;
    let day = Day {
        limits,
        prices: book_header::read_prices(book),
    };
    let mut bearing_sellers = [0u8; 256];
    let mut bearing_buyers = [0u8; 256];
    call_parties::bear(
        book,
        sellers,
        buyers,
        &mut bearing_sellers,
        &mut bearing_buyers,
        sums,
    );
    let totals = run_book::run_book(
        book,
        sellers,
        buyers,
        &bearing_sellers,
        &bearing_buyers,
        sums,
        day,
    );
    Ok(Run {
        totals,
        log_is_full: false,
    })
}
