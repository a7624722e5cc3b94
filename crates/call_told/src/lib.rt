// What a shipper is told of itself beside its record and its levels: whether it is flagged, how many trades it may see, and each of them by
// ordinal, as that part of the lent book.
#![tactic(auto)]

ghost use Rattle.std.specs.Prelude.{◌≡◌, ◌+◌, ◌*◌, ◌<◌, ◌≤◌, get_or, length, IfOk, IfSome, Ok, unwrap_or};
ghost use Rattle.refusals.specs.Refusal.{number_in};
ghost use Rattle.rules.specs.Book.{no_trade, nobody};
ghost use Rattle.rules.specs.Levels.{flagged, Limits as Figures};
ghost use Rattle.rules.specs.Questions.{first_of, refusal};
ghost use Rattle.units.specs.Limits.{as_limits};
ghost use Rattle.book_format.specs.Book.{book_of, count_of_trades, trades_at, trades_of, count_of_users, users_of};
ghost use Rattle.book_format.specs.Places.{TradeIn, UserIn};
ghost use Rattle.book_format.specs.Questions.{Formed, book_number};
ghost use Rattle.call_entry.specs.Entered.{Found};
ghost use Rattle.book_parties.specs.Ids.{BookIn};
ghost use Rattle.book_questions.specs.Opened.{OpenedFigures, OpenedParties};
ghost use Rattle.views.specs.Kept.{place_kept};
ghost use Rattle.views.specs.Views.{sees_trade, trades_seen};
ghost use Rattle.rights.specs.Trades.{about_user, count_of, flag_of, told_after};
ghost use Rattle.store.specs.Asked.{figures_in};
ghost use Rattle.call_answers.specs.Told.{count_told, flag_told};
ghost use Rattle.call_told.specs.Seen.{sees_at, stands_for};
ghost use Rattle.call_told.specs.Told.{TradeAfter, bytes_of, place_in};

use call_entry::Entry;
use refusals::Refusal;
use units::Limits;

// ---- the user

// Questions 8 and 9, after the opening questions: what one of them refused stays refused.
fn seek_shipper(book: &[u8], opened: Result<Limits, Refusal>, id: u32) -> Result<Entry, Refusal>
    requires { IfOk opened (λ limits. book_number book.now ≡ 0) }
    ensures asked { number_in result ≡ first_of (number_in opened) (refusal (about_user (book_of book.now) id)) }
    ensures found { IfOk result (λ entry. (opened ≡ Ok entry.limits) × Found book.now id entry.place) }
{
    let entry = call_entry::seek(book, opened, id)?;
    let user = book_format::user_at(book, entry.place);
    if user.role != 0 {
        return Err(Refusal::NoShipper);
    }
    Ok(entry)
}

// Is the user at a place flagged, by its positions as its risk is borne?
fn is_flagged(book: &[u8], limits: Limits, place: usize) -> bool
    requires { OpenedFigures (as_limits limits) book.now × (place < count_of_users book.now) }
    ensures { result ≡ flagged (as_limits limits) (book_of book.now) (get_or (users_of book.now) place nobody) }
{
    let user = book_format::user_at(book, place);
    let prices = book_header::read_prices(book);
    let position = risk_members::positions_of(book, place, user);
    risk_levels::flagged(limits, prices, user.blocked, position)
}

// ---- the trades that it may see

// Is the user at a place of this id, or its risk in an area borne by who is? No id is 0, so that a manager's 0 for none is not it.
fn stands_for(book: &[u8], place: usize, area: u8, id: u32) -> bool
    requires { UserIn book.now place × (area < 3) × (0 < id) }
    ensures { result ≡ stands_for id area (get_or (users_of book.now) place nobody) }
{
    let a = book_format::user_offset(book, place);
    if fields::get_u32(book, a) == id {
        return true;
    }
    if !book_format::has_managers(book_format::version(book)) {
        return false;
    }
    fields::get_u32(book, a + (book_records::MANAGERS + 4 * (area as usize))) == id
}

// May the user of an id see the trade at a place, whose parties stand at two places?
fn sees(book: &[u8], at: usize, i: usize, seller: u8, buyer: u8, id: u32) -> bool
    requires { TradeIn book.now at i × UserIn book.now seller × UserIn book.now buyer × ((get_or (trades_of book.now) i no_trade).terms.area < 3) × (0 < id) }
    ensures { result ≡ sees_at (users_of book.now) id seller buyer (get_or (trades_of book.now) i no_trade) }
{
    let t = book_format::trade_at(book, at, i);
    if stands_for(book, seller as usize, t.area, id) {
        return true;
    }
    stands_for(book, buyer as usize, t.area, id)
}

// How many of the trades the user of an id may see.
fn count_seen(book: &[u8], sellers: &[u8; 256], buyers: &[u8; 256], id: u32) -> u32
    requires { BookIn book.now sellers.now buyers.now × (0 < id) }
    ensures { result ≡ length (trades_seen (book_of book.now) id) }
{
    let n = book_format::user_count(book) as usize;
    let m = book_format::trade_count(book) as usize;
    let at = book_format::trades_offset(book, n);
    let mut count = 0;
    for i in 0..m {
        if sees(book, at, i, sellers[i], buyers[i], id) {
            count += 1;
        }
    }
    count
}

// The place of the trade of an ordinal, from 0, among those that the user of an id may see, if there is one.
fn place_seen(
    book: &[u8],
    sellers: &[u8; 256],
    buyers: &[u8; 256],
    id: u32,
    ordinal: u32,
) -> Option<usize>
    requires { BookIn book.now sellers.now buyers.now × (0 < id) }
    ensures seen { unwrap_or result (count_of_trades book.now) ≡ place_kept (sees_trade (users_of book.now) id) (trades_of book.now) ordinal }
    ensures inside { IfSome result (λ place. place < count_of_trades book.now) }
{
    let n = book_format::user_count(book) as usize;
    let m = book_format::trade_count(book) as usize;
    let at = book_format::trades_offset(book, n);
    let mut left = ordinal;
    for i in 0..m {
        if sees(book, at, i, sellers[i], buyers[i], id) {
            if left == 0 {
                return Some(i);
            }
            left -= 1;
        }
    }
    None
}

// Where the trade at a place begins.
fn trade_offset(book: &[u8], place: usize) -> usize
    requires { Formed book.now × (place < count_of_trades book.now) }
    ensures { (result ≡ trades_at book.now + 20 * place) × (result + 20 ≤ length book.now) }
{
    let n = book_format::user_count(book) as usize;
    book_format::trades_offset(book, n) + book_records::TRADE_SIZE * place
}

// ---- after the opening questions

// Whether the user of an id is flagged.
pub fn flag(book: &[u8], opened: Result<Limits, Refusal>, id: u32) -> Result<bool, Refusal>
    requires { IfOk opened (λ limits. OpenedFigures (as_limits limits) book.now) }
    ensures { flag_told result ≡ told_after (number_in opened) (figures_in opened) book.now (flag_of id) }
{
    let entry = seek_shipper(book, opened, id)?;
    Ok(is_flagged(book, entry.limits, entry.place))
}

// How many trades the user of an id may see.
pub fn count(
    book: &[u8],
    opened: Result<Limits, Refusal>,
    sellers: &[u8; 256],
    buyers: &[u8; 256],
    id: u32,
) -> Result<u32, Refusal>
    requires { IfOk opened (λ limits. OpenedParties book.now sellers.now buyers.now) }
    ensures { (limits : Figures) → count_told result ≡ told_after (number_in opened) limits book.now (count_of id) }
{
    seek_shipper(book, opened, id)?;
    Ok(count_seen(book, sellers, buyers, id))
}

// The 20 bytes of the trade of an ordinal among those that the user of an id may see, as that part of the book; none past the last.
pub fn trade<'a>(
    book: &'a [u8],
    opened: Result<Limits, Refusal>,
    sellers: &[u8; 256],
    buyers: &[u8; 256],
    id: u32,
    ordinal: u32,
) -> Result<Option<&'a [u8]>, Refusal>
    requires { IfOk opened (λ limits. OpenedParties book.now sellers.now buyers.now) }
    ensures told { TradeAfter (number_in opened) book.now id ordinal (number_in result) (bytes_of result) book.entry.ref_ptr (place_in book.entry.ref_ptr result) }
    ensures whole { IfOk result (λ shown. IfSome shown (λ part. length part.now ≡ 20)) }
{
    seek_shipper(book, opened, id)?;
    let Some(place) = place_seen(book, sellers, buyers, id, ordinal) else {
        return Ok(None);
    };
    let a = trade_offset(book, place);
    Ok(Some(&book[a..a + book_records::TRADE_SIZE]))
}
