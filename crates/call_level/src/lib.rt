// The morning or the afternoon level of a user, on a lent book in bytes. Both times of the day go one way, with the level of the time.
#![tactic(auto)]

ghost use Rattle.std.specs.Prelude.{◌≡◌, get_or, ◌<◌, IfOk};
ghost use Rattle.units.specs.Limits.{as_limits};
ghost use Rattle.rules.specs.Book.{nobody};
ghost use Rattle.book_records.specs.User.{alone, as_user};
ghost use Rattle.book_format.specs.Book.{book_of, count_of_users, users_of};
ghost use Rattle.rules.specs.Queries.{reply_after};
ghost use Rattle.call_answers.specs.Level.{reply_of};
ghost use Rattle.risk_members.specs.Members.{HoldingsOf};
ghost use Rattle.refusals.specs.Refusal.{number_in};
ghost use Rattle.store.specs.Asked.{figures_in};
ghost use Rattle.book_questions.specs.Opened.{OpenedFigures, OpenedSums};
ghost use Rattle.call_level.specs.Times.{level_of_user, query_of};

use book_records::User;
use refusals::Refusal;
use risk_holdings::Holdings;
use units::{Cents, Limits};

// The level of the user whose record was read at a place, the afternoon's or the morning's, by what it holds as its risk is borne.
pub fn level_of(
    book: &[u8],
    place: usize,
    user: User,
    holdings: Holdings,
    limits: Limits,
    afternoon: bool,
) -> Cents
    requires opened_figures { OpenedFigures (as_limits limits) book.now × (place < count_of_users book.now) }
    requires user_value { (as_user user ≡ alone (get_or (users_of book.now) place nobody)) × HoldingsOf book.now place holdings }
    ensures { result.0 ≡ level_of_user afternoon (as_limits limits) (book_of book.now) (get_or (users_of book.now) place nobody) }
{
    let prices = book_header::read_prices(book);
    if afternoon {
        risk_levels::afternoon_level(limits, prices, user.charges, holdings)
    } else {
        risk_levels::morning_level(limits, prices, user.charges, holdings)
    }
}

// The level of the user of an id, at one time of the day, after the opening questions, with the sums of the users.
pub fn level(
    book: &[u8],
    opened: Result<Limits, Refusal>,
    sums: &[u32; 768],
    id: u32,
    afternoon: bool,
) -> Result<Cents, Refusal>
    requires { IfOk opened (λ limits. OpenedSums (as_limits limits) book.now sums.now) }
    ensures { reply_of result ≡ reply_after (number_in opened) (figures_in opened) (book_of book.now) (query_of afternoon id) }
{
    let entry = call_entry::seek(book, opened, id)?;
    let place = entry.place;
    let user = book_format::user_at(book, place);
    if user.role != 0 {
        return Err(Refusal::NoShipper);
    }
    let holdings = risk_members::holdings_of(book, sums, place, user);
    Ok(level_of(book, place, user, holdings, entry.limits, afternoon))
}
