// The cuts of a log's entry given back in the bytes of a book: what stands of each trade rises by its cut, the seller's position falls and
// the buyer's rises by it.
#![tactic(auto)]

ghost use Rattle.std.specs.Prelude.{◌≡◌, ◌≤◌, T, length};
ghost use Rattle.book_format.specs.Book.{book_of, count_of_trades, trades_at, users_of};
ghost use Rattle.book_format.specs.Held.{Accepted, HeldAs};
ghost use Rattle.book_parties.specs.Ids.{BookIn};
ghost use Rattle.book_records.specs.Trade.{as_trade};
ghost use Rattle.cut_worth.specs.Tallies.{as_tally};
ghost use Rattle.rules.specs.Changes.{with_users};
ghost use Rattle.rules.specs.Reduction.{nothing, tally_all};
ghost use Rattle.units.specs.Prices.{as_prices, InRange};
ghost use Rattle.log_format.specs.Fits.{raises_within};
ghost use Rattle.log_format.specs.Withdrawal.{raise_by, withdrawn};
ghost use Rattle.log_questions.specs.Form.{cuts_from};
ghost use Rattle.log_withdrawal.specs.Back.{BackIn, PartiesBack, back_at, back_to};

use book_records::Trade;
use cut_worth::Tally;
use units::{Energy, Prices};

// The trade, standing higher by a cut.
fn raised(t: Trade, cut: u32) -> Trade
    requires t_bound { (as_trade t).standing ≤ 100000 }
    requires cut_bound { cut ≤ 100000 }
    ensures { as_trade result ≡ raise_by cut (as_trade t) }
{
    Trade {
        standing: t.standing.plus(Energy(cut as u64)),
        ..t
    }
}

// The seller's position falls by a cut in an area, and the buyer's rises.
fn return_parties(book: &mut [u8], seller: usize, buyer: usize, area: usize, energy: u32)
    requires { PartiesBack book.old seller buyer area energy }
    ensures { HeldAs (with_users (book_of book.old) (back_at seller buyer area energy (users_of book.old))) book.new }
{
    cut_apply::lower(book, seller, area, energy);
    cut_apply::raise(book, buyer, area, energy);
}

// Gives back the cut of the trade at a place, of those that begin at `at`, between users at two places.
fn give_back_at(book: &mut [u8], at: usize, seller: usize, buyer: usize, place: usize, cut: u32)
    requires { BackIn book.old at seller buyer place cut }
    ensures { HeldAs (back_to (book_of book.old) seller buyer place cut) book.new }
{
    let t = book_format::trade_at(book, at, place);
    let area = indices::index(t.area);
    return_parties(book, seller, buyer, area, cut);
    book_format::put_trade(book, at, place, raised(t, cut));
}

// Gives back the cuts of an entry, trade by trade, of a book of m trades, which begin at `at`.
pub fn give_back(
    book: &mut [u8],
    at: usize,
    m: usize,
    sellers: &[u8; 256],
    buyers: &[u8; 256],
    entry: &[u8],
)
    requires book_in { BookIn book.old sellers.now buyers.now × (at ≡ trades_at book.old) × (m ≡ count_of_trades book.old) }
    requires in_bounds { (1024 ≤ length entry.now) × T (raises_within (cuts_from m 0 entry.now) (book_of book.old).trades) }
    ensures { HeldAs (withdrawn (book_of book.old) (cuts_from m 0 entry.now)) book.new }
{
    for k in 0..m {
        let cut = fields::get_u32(entry, 4 * k);
        let seller = indices::index(sellers[k]);
        let buyer = indices::index(buyers[k]);
        give_back_at(book, at, seller, buyer, k, cut);
    }
}

// The MWh and the worth of an entry's cuts, of a book of m trades, which begin at `at`.
pub fn tally(book: &[u8], at: usize, m: usize, entry: &[u8], prices: Prices) -> Tally
    requires accepted { Accepted book.now × (at ≡ trades_at book.now) × (m ≡ count_of_trades book.now) × InRange (as_prices prices) }
    requires in_bounds { (1024 ≤ length entry.now) × T (raises_within (cuts_from m 0 entry.now) (book_of book.now).trades) }
    ensures { as_tally result ≡ tally_all (as_prices prices) (cuts_from m 0 entry.now) (book_of book.now).trades nothing }
{
    let mut so_far = Tally::none();
    for k in 0..m {
        let cut = fields::get_u32(entry, 4 * k) as u64;
        let t = book_format::trade_at(book, at, k);
        so_far = cut_tiers::tally_with(so_far, cut, t.area, prices);
    }
    so_far
}
