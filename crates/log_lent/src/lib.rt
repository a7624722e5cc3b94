// A lent log that a call is given or not: question 19 of it, the room for one more entry, a reduction noted, and the log emptied after an
// accepted posting, list or guarantee call. `with_log` says whether it is given: an `Option<&mut [u8]>` that is asked first and changed
// afterwards got no proof where a call may be refused in between.
#![tactic(auto)]

ghost use Rattle.std.specs.Prelude.{true, ◌≡◌, length};
ghost use Rattle.book_format.specs.Questions.{Formed};
ghost use Rattle.log_format.specs.Fits.{log_number};
ghost use Rattle.log_format.specs.Noted.{emptied_by};
ghost use Rattle.store.specs.Store.{given};
ghost use Rattle.log_lent.specs.Lent.{Emptiable, NotableIn, NotedLent, room_in};
ghost use Rattle.refusals.specs.Refusal.{number_in};

use refusals::Refusal;

// Question 19, asked of a log that is given: is it one for the book?
pub fn check(book: &[u8], with_log: bool, log: &[u8]) -> Result<(), Refusal>
    requires { Formed book.now }
    ensures { number_in result ≡ log_number (given with_log log.now) book.now }
{
    if with_log && !log_questions::fits(log, book) {
        return Err(Refusal::OtherLog);
    }
    Ok(())
}

// Empties a log that is given, after a call with this outcome that left the book: the log then holds that book, and has no entry. A refused
// call leaves it.
pub fn empty(book: &[u8], with_log: bool, log: &mut [u8], outcome: Result<(), Refusal>)
    requires { with_log ≡ true → number_in outcome ≡ 0 → Emptiable log.old book.now }
    ensures { log.new ≡ emptied_by with_log (number_in outcome) book.now log.old }
{
    if !with_log || outcome.is_err() {
        return;
    }
    let count = fields::get_u32(log, 4) as usize;
    log_entries::drop_entries(log, count);
    log_entries::seal(log, book, 0);
}

// Whether a log that is given has room for one more entry; yes where none is given.
pub fn has_room(with_log: bool, log: &[u8]) -> bool
    requires { with_log ≡ true → length log.now ≡ 271668 }
    ensures { result ≡ room_in with_log log.now }
{
    !with_log || fields::get_u32(log, 4) < 256
}

// Notes the cuts from..to of a reduction in a log that is given, as its last entry; the log then holds the book that the reduction left.
pub fn note(
    book: &[u8],
    with_log: bool,
    log: &mut [u8],
    origins: &[u8; 256],
    cuts: &[u64; 256],
    from: usize,
    to: usize,
)
    requires { with_log ≡ true → NotableIn log.old book.now origins.now cuts.now from to }
    ensures { NotedLent with_log log.old book.now origins.now cuts.now from to log.new }
{
    if !with_log {
        return;
    }
    let count = fields::get_u32(log, 4);
    log_entries::note(log, count as usize, origins, cuts, from, to);
    log_entries::seal(log, book, count + 1);
}
