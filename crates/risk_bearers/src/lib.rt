// Who bears whose risk, by places, and what follows from it for the trades of a book: the places of those who bear the risk of the trades'
// parties, and the twelve sums of what stands at these.
#![tactic(auto)]

ghost use Rattle.std.specs.Prelude.{true, List, ◌≡◌, ◌+◌, ◌-◌, ◌≤◌, ◌<◌, ◌^◌, get_or, length, replicate, set};
ghost use Rattle.book_format.specs.Book.{count_of_trades, trades_at, trades_of, count_of_users, users_of, version_of};
ghost use Rattle.book_format.specs.Held.{Accepted};
ghost use Rattle.book_parties.specs.Ids.{BookIn, ids_of, place_in};
ghost use Rattle.book_sums.specs.Twelve.{Low};
ghost use Rattle.rules.specs.Areas.{managers_in};
ghost use Rattle.rules.specs.Bearers.{bearer};
ghost use Rattle.rules.specs.Book.{Trade, nobody};
ghost use Rattle.risk_bearers.specs.Bearers.{AllBorne, BearersOf, Bearing, IdsOf, SummedAt, bearer_in};
ghost use Rattle.risk_bearers.specs.Rows.{Bearable, Cleared, NextBorne, Rows, RowsTo};

// The place of who bears the risk of the user at a place in an area.
pub fn bearer_of(bearers: &[u8; 192], place: u8, area: u8) -> u8
    requires { (place < 64) × (area < 3) }
    ensures { result ≡ bearer_in bearers.now place area }
{
    bearers[3 * place as usize + area as usize]
}

// Lists the places of those who bear the risk of the sellers and of the buyers of the m trades of a book, which begin at `at`, and sums
// what stands at each.
pub fn bear_trades(
    book: &[u8],
    at: usize,
    m: usize,
    bearers: &[u8; 192],
    sellers: &[u8; 256],
    buyers: &[u8; 256],
    bearing_sellers: &mut [u8; 256],
    bearing_buyers: &mut [u8; 256],
    sums: &mut [u32; 768],
)
    requires book_in { BookIn book.now sellers.now buyers.now × (at ≡ trades_at book.now) × (m ≡ count_of_trades book.now) × Bearing book.now bearers.now }
    requires bearing_sellers_len { (length bearing_sellers.old ≡ 256) × (length bearing_buyers.old ≡ 256) × (sums.old ≡ replicate 768 0) }
    ensures summed_at { (rs : List Trade) → AllBorne (ids_of (users_of book.now)) bearers.now (trades_of book.now) rs → SummedAt (users_of book.now) rs bearing_sellers.new bearing_buyers.new sums.new }
    ensures low { Low sums.new }
{
    for i in 0..m {
        let t = book_format::trade_at(book, at, i);
        let seller = bearer_of(bearers, sellers[i], t.area);
        let buyer = bearer_of(bearers, buyers[i], t.area);
        bearing_sellers[i] = seller;
        bearing_buyers[i] = buyer;
        book_sums::add_trade(sums, indices::index(seller), 0, t);
        book_sums::add_trade(sums, indices::index(buyer), 1, t);
    }
}

// ---- amounts of users

// Adds an amount, kept as the amount + 2^31, to the one at a place of a list.
fn add_amount(rows: &mut [u32; 192], k: usize, amount: u32)
    requires { (k < 192) × (2 ^ 31 ≤ get_or rows.old k 0 + amount) × (get_or rows.old k 0 + amount < 2 ^ 32 + 2 ^ 31) }
    ensures { rows.new ≡ set rows.old k (get_or rows.old k 0 + amount - 2 ^ 31) }
{
    rows[k] = (rows[k] as u64 + amount as u64 - 2147483648) as u32;
}

// Adds the amount of the user at place i in an area to that of who bears its risk there.
fn bear_amount(own: &[u32; 192], bearers: &[u8; 192], rows: &mut [u32; 192], i: usize, area: usize)
    requires { RowsTo i area own.now bearers.now rows.old × NextBorne i area own.now bearers.now }
    ensures { RowsTo i (area + 1) own.now bearers.now rows.new }
{
    let k = 3 * i + area;
    let place = indices::index(bearers[k]);
    add_amount(rows, 3 * place + area, own[k]);
}

// Puts 0, kept as 2^31, at all places.
fn clear_amounts(rows: &mut [u32; 192])
    requires { length rows.old ≡ 192 }
    ensures { Cleared rows.new }
{
    rows.fill(2147483648);
}

// Sums the amounts of n users in each area over those whose risk each bears.
pub fn bear_amounts(own: &[u32; 192], bearers: &[u8; 192], n: usize, rows: &mut [u32; 192])
    requires { Bearable n own.now bearers.now × (length rows.old ≡ 192) }
    ensures { Rows n own.now bearers.now rows.new }
{
    clear_amounts(rows);
    for i in 0..n {
        for area in 0..3 {
            bear_amount(own, bearers, rows, i, area);
        }
    }
}

// ---- the table

// Lists the ids of the n users of a book.
fn fill_ids(book: &[u8], n: usize, ids: &mut [u32; 64])
    requires { Accepted book.now × (n ≡ count_of_users book.now) × (ids.old ≡ replicate 64 4294967295) }
    ensures { IdsOf (users_of book.now) n ids.new }
{
    for i in 0..n {
        ids[i] = fields::get_u32(book, book_format::user_offset(book, i));
    }
}

// The place of who bears the risk of the user at place i in an area: of its manager there, or where it has none its own.
fn bearer_at(book: &[u8], ids: &[u32; 64], n: usize, i: usize, area: usize) -> u8
    requires { Accepted book.now × (managers_in (version_of book.now) ≡ true) × IdsOf (users_of book.now) n ids.now × (n ≡ count_of_users book.now) × (i < n) × (area < 3) }
    ensures { result ≡ place_in (ids_of (users_of book.now)) (bearer (get_or (users_of book.now) i nobody) area) }
{
    let id = fields::get_u32(
        book,
        book_format::user_offset(book, i) + (book_records::MANAGERS + 4 * area),
    );
    if id == 0 {
        return i as u8;
    }
    book_parties::place_of(ids, n, id).unwrap_or(n) as u8
}

// Fills in the place of who bears each user's risk in each area, of a book of n users in a version with managers.
pub fn fill_bearers(book: &[u8], n: usize, bearers: &mut [u8; 192])
    requires { Accepted book.now × (managers_in (version_of book.now) ≡ true) × (n ≡ count_of_users book.now) × (length bearers.old ≡ 192) }
    ensures { BearersOf (users_of book.now) bearers.new }
{
    let mut ids = [0xffff_ffffu32; 64];
    fill_ids(book, n, &mut ids);
    for i in 0..n {
        let k = 3 * i;
        bearers[k] = bearer_at(book, &ids, n, i, 0);
        bearers[k + 1] = bearer_at(book, &ids, n, i, 1);
        bearers[k + 2] = bearer_at(book, &ids, n, i, 2);
    }
}
