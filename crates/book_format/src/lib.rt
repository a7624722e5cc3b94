// A book in bytes: what the bytes are, which questions they are asked, what a call does with them, and what they hold after a part of one
// record is set in place. The definitions are in specs/, what follows from them (both round trips, one record changed) in proofs/. The code
// is one record's: where it stands, read, and written, by its place.
#![tactic(auto)]

ghost use Rattle.std.specs.Prelude.{◌≡◌, ◌+◌, ◌*◌, ◌≤◌, ◌<◌, length, get_or, set};
ghost use Rattle.std.proofs.lemmas.List.Edits.{sets};
ghost use Rattle.rules.specs.Book.{nobody, no_trade};
ghost use Rattle.book_records.specs.User.{alone, as_user, user_bytes};
ghost use Rattle.book_records.specs.Trade.{as_trade};
ghost use Rattle.rules.specs.Areas.{managers_in, selling_in};
ghost use Rattle.rules.specs.Questions.{version_known};
ghost use Rattle.book_format.specs.Book.{book_of, size_of_header, length_by, version_of, count_of_users, count_of_trades};
ghost use Rattle.book_format.specs.Book.{place_of_user, size_of_user, users_of, trades_at, trades_of};
ghost use Rattle.book_format.specs.Questions.{Formed};
ghost use Rattle.book_format.specs.Held.{HeldAs, trades_replaced};
ghost use Rattle.book_format.specs.Places.{UserIn, TradeIn, position_at};

use book_records::{Trade, User};

// ---- versions and their sizes

// Is a book of this version read? Here and below the tests stand as the definition has them: `matches!` takes a proof for each of its arms.
pub fn is_known(version: u16) -> bool
    ensures { result ≡ version_known version }
{
    (version == 1) | ((version == 2) | (version == 3))
}

// Has a version selling tariffs?
pub fn has_selling(version: u16) -> bool
    ensures { result ≡ selling_in version }
{
    (version == 2) | (version == 3)
}

// Has a version managers?
pub fn has_managers(version: u16) -> bool
    ensures { result ≡ managers_in version }
{
    version == 3
}

// The bytes of a header.
pub fn header_size(version: u16) -> usize
    ensures value { result ≡ size_of_header version }
    ensures lower_bound { (32 ≤ result) × (result ≤ 40) }
{
    if has_selling(version) { 40 } else { 32 }
}

// The bytes of a user's record.
pub fn user_size(version: u16) -> usize
    ensures value { result ≡ size_of_user version }
    ensures lower_bound { (56 ≤ result) × (result ≤ 68) }
{
    if has_managers(version) {
        book_records::MANAGED_SIZE
    } else {
        book_records::USER_SIZE
    }
}

// The length of a book of n users and m trades.
pub fn book_length(version: u16, n: usize, m: usize) -> usize
    requires { (n ≤ 255) × (m ≤ 65535) }
    ensures { result ≡ length_by version n m }
{
    header_size(version) + user_size(version) * n + book_records::TRADE_SIZE * m
}

// ---- the version and the counts of a header

// The version.
pub fn version(s: &[u8]) -> u16
    requires { 32 ≤ length s.now }
    ensures { result ≡ version_of s.now }
{
    fields::get_u16(s, book_records::VERSION)
}

// The number of users.
pub fn user_count(s: &[u8]) -> u8
    requires { 32 ≤ length s.now }
    ensures { result ≡ count_of_users s.now }
{
    fields::get_u8(s, book_records::USER_COUNT)
}

// The number of trades.
pub fn trade_count(s: &[u8]) -> u16
    requires { 32 ≤ length s.now }
    ensures { result ≡ count_of_trades s.now }
{
    fields::get_u16(s, book_records::TRADE_COUNT)
}

// ---- users

// Where the users begin, behind the header.
pub fn users_offset(s: &[u8]) -> usize
    requires { 32 ≤ length s.now }
    ensures value { result ≡ size_of_header (version_of s.now) }
    ensures lower_bound { (32 ≤ result) × (result ≤ 40) }
{
    header_size(version(s))
}

// The bytes of each user's record.
pub fn users_size(s: &[u8]) -> usize
    requires { 32 ≤ length s.now }
    ensures value { result ≡ size_of_user (version_of s.now) }
    ensures lower_bound { (56 ≤ result) × (result ≤ 68) }
{
    user_size(version(s))
}

// Where the record of the user at a place begins, of those of a size that begin at `at`.
pub fn user_offset_from(s: &[u8], at: usize, size: usize, place: usize) -> usize
    requires { UserIn s.now place × (at ≡ size_of_header (version_of s.now)) × (size ≡ size_of_user (version_of s.now)) }
    ensures { (result ≡ place_of_user s.now place) × (result + 56 ≤ length s.now) }
{
    at + size * place
}

// The same, for a caller that has neither where the users begin nor their size.
pub fn user_offset(s: &[u8], place: usize) -> usize
    requires { UserIn s.now place }
    ensures { (result ≡ place_of_user s.now place) × (result + 56 ≤ length s.now) }
{
    user_offset_from(s, users_offset(s), users_size(s), place)
}

// The user at a place, its managers apart.
pub fn user_at(s: &[u8], place: usize) -> User
    requires { UserIn s.now place }
    ensures { as_user result ≡ alone (get_or (users_of s.now) place nobody) }
{
    let a = user_offset(s, place);
    book_records::read_user(&s[a..a + book_records::USER_SIZE])
}

// Writes a user over the one at a place, whose managers stay.
pub fn put_user(s: &mut [u8], place: usize, u: User)
    requires { UserIn s.old place }
    ensures { s.new ≡ sets s.old (place_of_user s.old place) (user_bytes (as_user u)) }
{
    let a = user_offset(s, place);
    book_records::write_user(&mut s[a..a + book_records::USER_SIZE], u);
}

// Where the position of the user at a place begins, of an area.
pub fn position_offset(s: &[u8], place: usize, area: usize) -> usize
    requires { UserIn s.now place × (area < 3) }
    ensures { (result ≡ position_at s.now place area) × (result + 4 ≤ length s.now) }
{
    user_offset(s, place) + (book_records::POSITION + 4 * area)
}

// ---- trades

// Where the trades of a book of n users begin.
pub fn trades_offset(s: &[u8], n: usize) -> usize
    requires { Formed s.now × (n ≡ count_of_users s.now) }
    ensures { result ≡ trades_at s.now }
{
    users_offset(s) + users_size(s) * n
}

// Where the 20 bytes of the trade at a place begin, of those that begin at `at`.
fn trade_offset(s: &[u8], at: usize, place: usize) -> usize
    requires { TradeIn s.now at place }
    ensures { (result ≡ at + 20 * place) × (result + 20 ≤ length s.now) }
{
    at + book_records::TRADE_SIZE * place
}

// The trade at a place, of those that begin at `at`.
pub fn trade_at(s: &[u8], at: usize, place: usize) -> Trade
    requires { TradeIn s.now at place }
    ensures { as_trade result ≡ get_or (trades_of s.now) place no_trade }
{
    let a = trade_offset(s, at, place);
    book_records::read_trade(&s[a..a + book_records::TRADE_SIZE])
}

// Writes a trade over the one at a place, of those that begin at `at`, in bytes that hold a book.
pub fn put_trade(s: &mut [u8], at: usize, place: usize, t: Trade)
    requires held_as { HeldAs (book_of s.old) s.old }
    requires trade_in { TradeIn s.old at place }
    ensures { HeldAs (trades_replaced (book_of s.old) (set (trades_of s.old) place (as_trade t))) s.new }
{
    let a = trade_offset(s, at, place);
    book_records::write_trade(&mut s[a..a + book_records::TRADE_SIZE], t);
}
