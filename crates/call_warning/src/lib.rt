// The midday warning of a user: is it flagged, or buyer of a bilateral trade of the day that stands, whose seller is a flagged shipper?
#![tactic(auto)]

ghost use Rattle.std.specs.Prelude.{◌≡◌, T, IfOk};
ghost use Rattle.refusals.specs.Refusal.{number_in};
ghost use Rattle.rules.specs.Book.{find};
ghost use Rattle.rules.specs.Levels.{seller_of};
ghost use Rattle.rules.specs.Queries.{reply_after};
ghost use Rattle.rules.specs.Questions.{known, trade_is_valid};
ghost use Rattle.base.specs.Lists.{any};
ghost use Rattle.units.specs.Limits.{as_limits, LimitsInRange};
ghost use Rattle.book_records.specs.Trade.{as_trade};
ghost use Rattle.book_format.specs.Book.{book_of, users_of};
ghost use Rattle.book_format.specs.Held.{Accepted};
ghost use Rattle.book_questions.specs.Opened.{OpenedFigures};
ghost use Rattle.store.specs.Asked.{figures_in};
ghost use Rattle.call_answers.specs.Warning.{reply_of};
ghost use Rattle.call_warning.specs.Warned.{Priced, flagged_shipper, buyer_is_warned, warning_of};

use book_records::Trade;
use refusals::Refusal;
use risk_user::Day;
use units::Limits;

// Is the user of an id, who is in the book, a flagged shipper?
fn is_flagged_shipper(book: &[u8], day: Day, id: u32) -> bool
    requires priced { Priced book.now day.prices × T (known (users_of book.now) id) }
    requires limits_in_range { LimitsInRange (as_limits day.limits) }
    ensures { result ≡ flagged_shipper (as_limits day.limits) (book_of book.now) (find (book_of book.now).users id) }
{
    let place = call_entry::place_of(book, id);
    let seller = book_format::user_at(book, place);
    if seller.role != 0 {
        return false;
    }
    let position = risk_members::positions_of(book, place, seller);
    risk_levels::flagged(day.limits, day.prices, seller.blocked, position)
}

// The id of who bears the risk of the seller of a trade of the book: "at midday the manager's flag stands for a managed seller's". In a
// version without managers it is the seller.
fn bearer_of(book: &[u8], t: Trade) -> u32
    requires { Accepted book.now × T (trade_is_valid (users_of book.now) (as_trade t)) }
    ensures { (find (book_of book.now).users result ≡ seller_of (book_of book.now) (as_trade t)) × T (known (users_of book.now) result) }
{
    if !book_format::has_managers(book_format::version(book)) {
        return t.seller;
    }
    let place = call_entry::place_of(book, t.seller);
    risk_members::bearer_of(book, place, t.area as usize)
}

// Is the user of an id the buyer of the trade, and does the trade warn its buyer?
fn warns_buyer(book: &[u8], day: Day, t: Trade, id: u32) -> bool
    requires priced { Priced book.now day.prices × T (trade_is_valid (users_of book.now) (as_trade t)) }
    requires limits_in_range { LimitsInRange (as_limits day.limits) }
    ensures { result ≡ buyer_is_warned (as_limits day.limits) (book_of book.now) id (as_trade t) }
{
    if t.buyer != id {
        return false;
    }
    if !book_records::is_bilateral_for_day(t) {
        return false;
    }
    if t.standing.0 == 0 {
        return false;
    }
    let seller = bearer_of(book, t);
    is_flagged_shipper(book, day, seller)
}

// Does one of the trades warn the user of an id?
fn any_warns(book: &[u8], day: Day, id: u32) -> bool
    requires priced { Priced book.now day.prices }
    requires limits_in_range { LimitsInRange (as_limits day.limits) }
    ensures { result ≡ any (buyer_is_warned (as_limits day.limits) (book_of book.now) id) (book_of book.now).trades }
{
    let n = book_format::user_count(book) as usize;
    let m = book_format::trade_count(book) as usize;
    let at = book_format::trades_offset(book, n);
    for i in 0..m {
        let t = book_format::trade_at(book, at, i);
        if warns_buyer(book, day, t, id) {
            return true;
        }
    }
    false
}

// The warning of the user of an id, after the opening questions.
pub fn warning(book: &[u8], opened: Result<Limits, Refusal>, id: u32) -> Result<bool, Refusal>
    requires { IfOk opened (λ limits. OpenedFigures (as_limits limits) book.now) }
    ensures { reply_of result ≡ reply_after (number_in opened) (figures_in opened) (book_of book.now) (warning_of id) }
{
    let entry = call_entry::seek(book, opened, id)?;
    let user = book_format::user_at(book, entry.place);
    if user.role != 0 {
        return Err(Refusal::NoShipper);
    }
    let prices = book_header::read_prices(book);
    let position = risk_members::positions_of(book, entry.place, user);
    if risk_levels::flagged(entry.limits, prices, user.blocked, position) {
        return Ok(true);
    }
    let day = Day {
        limits: entry.limits,
        prices,
    };
    Ok(any_warns(book, day, user.id))
}
