// Those who bear the risk of the trades' parties, after the opening questions: their places, and the twelve sums of what stands at these.
// In a version without managers each user bears its own risk.
#![tactic(auto)]

ghost use Rattle.std.specs.Prelude.{true, ◌≡◌, length};
ghost use Rattle.book_format.specs.Book.{trades_of, users_of, version_of};
ghost use Rattle.book_parties.specs.Ids.{BookIn};
ghost use Rattle.book_questions.specs.Opened.{OpenedParties};
ghost use Rattle.book_sums.specs.Twelve.{SumsOf};
ghost use Rattle.risk_bearers.specs.Bearers.{BorneIn, trades_in, users_in};
ghost use Rattle.rules.specs.Areas.{managers_in};

// Lists the places of those who bear the risk of the sellers and of the buyers of a book's trades, given those of the sellers and the
// buyers, with the sums of what stands at these, in a version with managers: the trades are walked once more.
pub fn bear_managed(
    book: &[u8],
    sellers: &[u8; 256],
    buyers: &[u8; 256],
    bearing_sellers: &mut [u8; 256],
    bearing_buyers: &mut [u8; 256],
    sums: &mut [u32; 768],
)
    requires book_in { BookIn book.now sellers.now buyers.now × (managers_in (version_of book.now) ≡ true) }
    requires bearing_sellers_len { (length bearing_sellers.old ≡ 256) × (length bearing_buyers.old ≡ 256) }
    ensures borne_in { BorneIn book.now bearing_sellers.new bearing_buyers.new }
    ensures sums_of { SumsOf (users_in book.now) (trades_in book.now) sums.new }
{
    let n = book_format::user_count(book) as usize;
    let m = book_format::trade_count(book) as usize;
    let at = book_format::trades_offset(book, n);
    let mut bearers = [0u8; 192];
    risk_bearers::fill_bearers(book, n, &mut bearers);
    *sums = [0; 768];
    risk_bearers::bear_trades(
        book,
        at,
        m,
        &bearers,
        sellers,
        buyers,
        bearing_sellers,
        bearing_buyers,
        sums,
    );
}

// Lists the places of those who bear the risk of the sellers and of the buyers of a book's trades, given those of the sellers and the
// buyers, and makes of the sums of each user those of what stands at these.
pub fn bear(
    book: &[u8],
    sellers: &[u8; 256],
    buyers: &[u8; 256],
    bearing_sellers: &mut [u8; 256],
    bearing_buyers: &mut [u8; 256],
    sums: &mut [u32; 768],
)
    requires opened_parties { OpenedParties book.now sellers.now buyers.now × SumsOf (users_of book.now) (trades_of book.now) sums.old }
    requires bearing_sellers_len { (length bearing_sellers.old ≡ 256) × (length bearing_buyers.old ≡ 256) }
    ensures borne_in { BorneIn book.now bearing_sellers.new bearing_buyers.new }
    ensures sums_of { SumsOf (users_in book.now) (trades_in book.now) sums.new }
{
    if book_format::has_managers(book_format::version(book)) {
        bear_managed(book, sellers, buyers, bearing_sellers, bearing_buyers, sums);
    } else {
        *bearing_sellers = *sellers;
        *bearing_buyers = *buyers;
    }
}
