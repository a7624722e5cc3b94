// The guarantee calls on a lent book in bytes: a user's blocked guarantee is raised to its morning or its afternoon level. Both times of
// the day go one way, with the level of the time.
#![tactic(auto)]

ghost use Rattle.std.specs.Prelude.{true, ◌≡◌, ◌<◌, get_or, IfOk};
ghost use Rattle.refusals.specs.Refusal.{number_in};
ghost use Rattle.store.specs.Asked.{figures_in};
ghost use Rattle.units.specs.Limits.{as_limits};
ghost use Rattle.book_records.specs.User.{alone, as_amounts, as_user};
ghost use Rattle.book_format.specs.After.{CalledAfter};
ghost use Rattle.book_format.specs.Book.{book_of, count_of_users, users_of};
ghost use Rattle.risk_bearers.specs.Bearers.{BorneIn, users_in};
ghost use Rattle.risk_members.specs.Members.{HoldingsOf};
ghost use Rattle.rules.specs.Book.{nobody};
ghost use Rattle.book_format.specs.Places.{UserIn};
ghost use Rattle.call_answers.specs.Call.{answer_of};
ghost use Rattle.book_questions.specs.Opened.{Opened, OpenedFigures};
ghost use Rattle.call_guarantee.specs.Times.{due_of, call_of};
ghost use Rattle.call_guarantee.specs.Raised.{called_at, raised};

use book_records::User;
use call_answers::GuaranteeCall;
use call_entry::Entry;
use refusals::Refusal;
use risk_holdings::Holdings;
use units::{Cents, Limits, Net};

// Question 11 of a user whose record was read at a place of an accepted book: does the level exceed blocked by more than the margin, and in
// the afternoon, which has the places of those who bear the risk of the trades' parties, is the user called in, with its positions as its
// risk is borne?
fn is_due(
    book: &[u8],
    bearing_sellers: &[u8; 256],
    bearing_buyers: &[u8; 256],
    place: usize,
    user: User,
    position: [Net; 3],
    limits: Limits,
    level: Cents,
    afternoon: bool,
) -> bool
    requires opened_figures { OpenedFigures (as_limits limits) book.now × (afternoon ≡ true → BorneIn book.now bearing_sellers.now bearing_buyers.now) × (place < count_of_users book.now) }
    requires user_value { (as_user user ≡ alone (get_or (users_of book.now) place nobody)) × (as_amounts position ≡ (get_or (users_in book.now) place nobody).position) }
    ensures { result ≡ due_of afternoon (as_limits limits) (book_of book.now) level.0 (get_or (users_of book.now) place nobody) }
{
    if !risk_levels::exceeds_margin(limits, level, user.blocked) {
        return false;
    }
    if afternoon {
        let prices = book_header::read_prices(book);
        let n = book_format::user_count(book) as usize;
        let m = book_format::trade_count(book) as usize;
        let below_notified = cut_parties::below_notified_at(
            book,
            n,
            m,
            bearing_sellers,
            bearing_buyers,
            place,
        );
        risk_levels::called_in(limits, prices, user.blocked, position, below_notified)
    } else {
        true
    }
}

// The end of a call on the user at a place, with its level and the answer to question 11: asks question 12, and raises the user's record in
// the book.
fn raise(
    book: &mut [u8],
    place: usize,
    user: User,
    level: Cents,
    due: bool,
) -> Result<GuaranteeCall, Refusal>
    requires { UserIn book.old place }
    ensures result_value { answer_of result ≡ (raised book.old place (as_user user) level.0 due).answer }
    ensures book_after { book.new ≡ (raised book.old place (as_user user) level.0 due).book }
{
    if !due {
        return Err(Refusal::NotDue);
    }
    if user.assigned.0 < level.0 {
        return Err(Refusal::AssignedTooLow);
    }
    let blocking = lent_user::blocked_user(user, level);
    book_format::put_user(book, place, blocking.user);
    Ok(GuaranteeCall {
        level,
        added: blocking.added,
    })
}

// The guarantee call on the shipper at a place, whose record was read, by what it holds as its risk is borne; in the afternoon with the
// places of those who bear the risk of the trades' parties.
fn call_at(
    book: &mut [u8],
    bearing_sellers: &[u8; 256],
    bearing_buyers: &[u8; 256],
    place: usize,
    user: User,
    holdings: Holdings,
    limits: Limits,
    afternoon: bool,
) -> Result<GuaranteeCall, Refusal>
    requires opened_figures { OpenedFigures (as_limits limits) book.old × (afternoon ≡ true → BorneIn book.old bearing_sellers.now bearing_buyers.now) × (place < count_of_users book.old) }
    requires user_value { (as_user user ≡ alone (get_or (users_of book.old) place nobody)) × HoldingsOf book.old place holdings }
    ensures result_value { answer_of result ≡ (called_at afternoon (as_limits limits) book.old place).answer }
    ensures book_after { book.new ≡ (called_at afternoon (as_limits limits) book.old place).book }
{
    let level = call_level::level_of(book, place, user, holdings, limits, afternoon);
    let due = is_due(
        book,
        bearing_sellers,
        bearing_buyers,
        place,
        user,
        holdings.positions(),
        limits,
        level,
        afternoon,
    );
    raise(book, place, user, level, due)
}

// The guarantee call on the user of an id, at one time of the day, after the opening questions, whose refusal or figures are given with the
// places of the trades' parties and the sums of the users.
pub fn call(
    book: &mut [u8],
    opened: Result<Limits, Refusal>,
    sellers: &[u8; 256],
    buyers: &[u8; 256],
    sums: &mut [u32; 768],
    id: u32,
    afternoon: bool,
) -> Result<GuaranteeCall, Refusal>
    requires { IfOk opened (λ limits. Opened (as_limits limits) book.old sellers.now buyers.now sums.old) }
    ensures { CalledAfter (number_in opened) (figures_in opened) book.old (call_of afternoon id) (answer_of result) book.new }
{
    let Entry { limits, place } = call_entry::seek(book, opened, id)?;
    let user = book_format::user_at(book, place);
    if user.role != 0 {
        return Err(Refusal::NoShipper);
    }
    let holdings = risk_members::holdings_of(book, sums, place, user);
    let managed = book_format::has_managers(book_format::version(book));
    if afternoon & managed {
        let mut bearing_sellers = [0u8; 256];
        let mut bearing_buyers = [0u8; 256];
        call_parties::bear_managed(
            book,
            sellers,
            buyers,
            &mut bearing_sellers,
            &mut bearing_buyers,
            sums,
        );
        call_at(
            book,
            &bearing_sellers,
            &bearing_buyers,
            place,
            user,
            holdings,
            limits,
            afternoon,
        )
    } else {
        call_at(
            book, sellers, buyers, place, user, holdings, limits, afternoon,
        )
    }
}
