// The levels and the state of every user of a lent book in bytes, after one asking of its questions: user by user what the calls for its
// id tell. It changes no book.
#![tactic(auto)]

ghost use Rattle.std.specs.Prelude.{false, map, ◌≡◌, ◌<◌, get_or, replicate, IfOk};
ghost use Rattle.refusals.specs.Refusal.{number_in};
ghost use Rattle.rules.specs.Book.{nobody};
ghost use Rattle.rules.specs.Day as day;
ghost use Rattle.rules.specs.Levels.{afternoon_level};
ghost use Rattle.units.specs.Limits.{as_limits};
ghost use Rattle.book_records.specs.User.{alone, as_user};
ghost use Rattle.book_format.specs.Book.{book_of, count_of_users, users_of};
ghost use Rattle.book_parties.specs.Ids.{BookIn};
ghost use Rattle.book_questions.specs.Opened.{Opened, OpenedFigures, OpenedSums};
ghost use Rattle.cut_parties.specs.Flags.{CutFlags};
ghost use Rattle.risk_bearers.specs.Bearers.{trades_in, users_in};
ghost use Rattle.laws_sales.specs.Parties.{cut_before};
ghost use Rattle.risk_members.specs.Members.{HoldingsOf};
ghost use Rattle.risk_user.specs.States.{state_of};
ghost use Rattle.user_levels.specs.Levels.{levels_after, levels_of, no_levels, user_rows};
ghost use Rattle.store.specs.Asked.{figures_in};
ghost use Rattle.call_answers.specs.Levels.{as_row, levels_told};

use book_records::User;
use call_answers::UserLevels;
use refusals::Refusal;
use risk_holdings::Holdings;
use risk_user::{Day, State};
use units::{Cents, Limits};

// 64 places without a user.
fn no_users() -> [UserLevels; 64]
    ensures { map as_row result ≡ (no_levels 0).users }
{
    let nobody = UserLevels {
        id: 0,
        state: State::Clear,
        morning: Cents(0),
        afternoon: Cents(0),
    };
    [nobody; 64]
}

// ---- one user

// The state of the shipper at a place, whose record was read, by what it holds as its risk is borne and its afternoon level.
// `below_notified`: it is then party to a trade standing below notified.
fn state_at(
    book: &[u8],
    place: usize,
    user: User,
    holdings: Holdings,
    limits: Limits,
    level: Cents,
    below_notified: bool,
) -> State
    requires opened_figures { OpenedFigures (as_limits limits) book.now × (place < count_of_users book.now) }
    requires user_value { (as_user user ≡ alone (get_or (users_of book.now) place nobody)) × HoldingsOf book.now place holdings }
    requires level_value { (level.0 ≡ afternoon_level (as_limits limits) (book_of book.now) (get_or (users_of book.now) place nobody)) × (below_notified ≡ cut_before (get_or (users_of book.now) place nobody).party.id (trades_in book.now)) }
    ensures { state_of result ≡ day.state (as_limits limits) (book_of book.now) (get_or (users_of book.now) place nobody) }
{
    let prices = book_header::read_prices(book);
    let position = holdings.positions();
    let called = risk_levels::called_in(limits, prices, user.blocked, position, below_notified);
    risk_user::state_of(book, place, level, called, Day { limits, prices })
}

// The levels and the state of the user at a place, given the sums of each user.
fn levels_at(
    book: &[u8],
    sums: &[u32; 768],
    place: usize,
    limits: Limits,
    below_notified: bool,
) -> UserLevels
    requires opened_sums { OpenedSums (as_limits limits) book.now sums.now × (place < count_of_users book.now) }
    requires below_notified_value { below_notified ≡ cut_before (get_or (users_of book.now) place nobody).party.id (trades_in book.now) }
    ensures { as_row result ≡ levels_of (as_limits limits) (book_of book.now) (get_or (users_of book.now) place nobody) }
{
    let user = book_format::user_at(book, place);
    if user.role != 0 {
        return UserLevels {
            id: user.id,
            state: State::Clear,
            morning: Cents(0),
            afternoon: Cents(0),
        };
    }
    let holdings = risk_members::holdings_of(book, sums, place, user);
    let morning = call_level::level_of(book, place, user, holdings, limits, false);
    let afternoon = call_level::level_of(book, place, user, holdings, limits, true);
    let state = state_at(
        book,
        place,
        user,
        holdings,
        limits,
        afternoon,
        below_notified,
    );
    UserLevels {
        id: user.id,
        state,
        morning,
        afternoon,
    }
}

// ---- all users

// The levels and the state of each of n users; `below_notified` says which of them are, as the risk is borne, party to a trade standing
// below notified.
fn rows_of(
    book: &[u8],
    n: usize,
    sums: &[u32; 768],
    below_notified: &[bool; 64],
    limits: Limits,
) -> [UserLevels; 64]
    requires { OpenedSums (as_limits limits) book.now sums.now × (n ≡ count_of_users book.now) × CutFlags (users_in book.now) (trades_in book.now) below_notified.now }
    ensures { map as_row result ≡ user_rows (as_limits limits) (book_of book.now) }
{
    let mut rows = no_users();
    for i in 0..n {
        rows[i] = levels_at(book, sums, i, limits, below_notified[i]);
    }
    rows
}

// Fills in a flag for each user that is, as the risk is borne, party to a trade standing below notified, given the places of the trades'
// sellers and buyers.
fn fill_below_notified(
    book: &[u8],
    sellers: &[u8; 256],
    buyers: &[u8; 256],
    below_notified: &mut [bool; 64],
)
    requires { BookIn book.now sellers.now buyers.now × (below_notified.old ≡ replicate 64 false) }
    ensures { CutFlags (users_in book.now) (trades_in book.now) below_notified.new }
{
    let n = book_format::user_count(book) as usize;
    let m = book_format::trade_count(book) as usize;
    if book_format::has_managers(book_format::version(book)) {
        let mut bearing_sellers = [0u8; 256];
        let mut bearing_buyers = [0u8; 256];
        let mut borne = [0u32; 768];
        call_parties::bear_managed(
            book,
            sellers,
            buyers,
            &mut bearing_sellers,
            &mut bearing_buyers,
            &mut borne,
        );
        cut_parties::fill_below_notified(
            book,
            n,
            m,
            &bearing_sellers,
            &bearing_buyers,
            below_notified,
        );
    } else {
        cut_parties::fill_below_notified(book, n, m, sellers, buyers, below_notified);
    }
}

// The levels and the state of every user, after the opening questions, with the places of the trades' parties and the sums of the users.
pub fn levels(
    book: &[u8],
    opened: Result<Limits, Refusal>,
    sellers: &[u8; 256],
    buyers: &[u8; 256],
    sums: &[u32; 768],
) -> Result<[UserLevels; 64], Refusal>
    requires { IfOk opened (λ limits. Opened (as_limits limits) book.now sellers.now buyers.now sums.now) }
    ensures { levels_told result ≡ levels_after (number_in opened) (figures_in opened) book.now }
{
    let limits = opened?;
    let n = book_format::user_count(book) as usize;
    let mut below_notified = [false; 64];
    fill_below_notified(book, sellers, buyers, &mut below_notified);
    Ok(rows_of(book, n, sums, &below_notified, limits))
}
