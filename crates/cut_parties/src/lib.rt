// Who is party to a trade standing below notified, by the places of the trades' parties: flags for all users, or the answer for one.
// Everywhere `book` has n users and m trades, and `bearing_sellers` and `bearing_buyers` have the places of those who bear the risk of the
// sellers and the buyers of its trades: "A member's trade there calls in the manager in place of the member".
#![tactic(auto)]

ghost use Rattle.std.specs.Prelude.{false, ◌&&◌, ◌||◌, ◌≡◌, ◌<◌, eqb, ltb, get_or, replicate};
ghost use Rattle.book_format.specs.Book.{count_of_trades, trades_of, count_of_users};
ghost use Rattle.book_format.specs.Places.{TradeIn};
ghost use Rattle.book_parties.specs.Ids.{id_at};
ghost use Rattle.risk_bearers.specs.Bearers.{BorneIn, trades_in, users_in};
ghost use Rattle.laws_sales.specs.Parties.{cut_before};
ghost use Rattle.rules.specs.Book.{no_trade};
ghost use Rattle.cut_parties.specs.Flags.{CutFlags};

// Fills in a flag for each user that is party to a trade standing below notified, of a book of n users and m trades.
pub fn fill_below_notified(
    book: &[u8],
    n: usize,
    m: usize,
    bearing_sellers: &[u8; 256],
    bearing_buyers: &[u8; 256],
    below_notified: &mut [bool; 64],
)
    requires borne_in { BorneIn book.now bearing_sellers.now bearing_buyers.now × (n ≡ count_of_users book.now) × (m ≡ count_of_trades book.now) }
    requires below_notified_value { below_notified.old ≡ replicate 64 false }
    ensures { CutFlags (users_in book.now) (trades_in book.now) below_notified.new }
{
    let at = book_format::trades_offset(book, n);
    for i in 0..m {
        let t = book_format::trade_at(book, at, i);
        let below = t.standing.0 < t.notified.0;
        let seller = indices::index(bearing_sellers[i]);
        below_notified[seller] |= below;
        let buyer = indices::index(bearing_buyers[i]);
        below_notified[buyer] |= below;
    }
}

// Is the user at a place one of the parties of the trade i, at their places, and does the trade stand below notified?
fn is_below_notified(book: &[u8], at: usize, i: usize, seller: u8, buyer: u8, place: usize) -> bool
    requires { TradeIn book.now at i }
    ensures { result ≡ (eqb seller place || eqb buyer place) && ltb (get_or (trades_of book.now) i no_trade).standing (get_or (trades_of book.now) i no_trade).terms.notified }
{
    let party = (indices::index(seller) == place) | (indices::index(buyer) == place);
    if !party {
        return false;
    }
    let t = book_format::trade_at(book, at, i);
    t.standing.0 < t.notified.0
}

// Is the user at a place party to a trade standing below notified? The same of one user alone.
pub fn below_notified_at(
    book: &[u8],
    n: usize,
    m: usize,
    bearing_sellers: &[u8; 256],
    bearing_buyers: &[u8; 256],
    place: usize,
) -> bool
    requires { BorneIn book.now bearing_sellers.now bearing_buyers.now × (n ≡ count_of_users book.now) × (m ≡ count_of_trades book.now) × (place < n) }
    ensures { result ≡ cut_before (id_at (users_in book.now) place) (trades_in book.now) }
{
    let at = book_format::trades_offset(book, n);
    (0..m).any(|i| is_below_notified(book, at, i, bearing_sellers[i], bearing_buyers[i], place))
}
