// The whole book as a struct by value: its users and trades are arrays of records. It is read from bytes that pass the questions 1 to 3,
// and written to bytes of its length.
#![tactic(auto)]

ghost use Rattle.std.specs.Prelude.{◌≡◌, ◌+◌, ◌*◌, ◌≤◌, length, take, drop, eqb};
ghost use Rattle.std.proofs.lemmas.List.Edits.{sets};
ghost use Rattle.fields.specs.Layout.{bytes_of_records};
ghost use Rattle.book_records.specs.User.{managers_at, record_bytes, record_size, user_of};
ghost use Rattle.book_tables.specs.Record.{as_managers, as_record, blank_record, SizeOfRecord};
ghost use Rattle.book_records.specs.Trade.{trade_of, trade_bytes, as_trade, blank_trade};
ghost use Rattle.book_tables.specs.Filled.{Filled};
ghost use Rattle.book_format.specs.Book.{length_by};
ghost use Rattle.book_format.specs.Questions.{Formed};
ghost use Rattle.book_tables.specs.Book.{BookRead, BookWritten, blank_book};

use book_records::{Trade, User};
use units::Prices;

// ---- users and trades

// The ids of a user's managers, one per area, 0 for none.
#[derive(Clone, Copy, Default)]
pub struct Managers {
    pub pvb: u32,
    pub tvb: u32,
    pub avb: u32,
}

// A user with its managers: all that its record holds.
#[derive(Clone, Copy)]
pub struct Record {
    pub user: User,
    pub managers: Managers,
}

// The managers that a record holds, none where it has no bytes for them.
fn read_managers(c: &[u8], managed: bool) -> Managers
    requires { length c.now ≡ record_size managed }
    ensures { as_managers result ≡ managers_at 56 c.now }
{
    if managed {
        Managers {
            pvb: fields::get_u32(c, book_records::MANAGERS),
            tvb: fields::get_u32(c, book_records::MANAGER_TVB),
            avb: fields::get_u32(c, book_records::MANAGER_AVB),
        }
    } else {
        Managers::default()
    }
}

// The record that 56 bytes hold, or 68 with managers.
fn read_record(c: &[u8], managed: bool) -> Record
    requires { length c.now ≡ record_size managed }
    ensures { as_record result ≡ user_of c.now }
{
    Record {
        user: book_records::read_user(&c[..book_records::USER_SIZE]),
        managers: read_managers(c, managed),
    }
}

// Writes a record, without its managers where there are no bytes for them.
fn write_record(c: &mut [u8], r: Record, managed: bool)
    requires { length c.old ≡ record_size managed }
    ensures { c.new ≡ record_bytes managed (as_record r) }
{
    let managers = r.managers;
    book_records::write_user(&mut c[..book_records::USER_SIZE], r.user);
    if managed {
        fields::put_u32(c, book_records::MANAGERS, managers.pvb);
        fields::put_u32(c, book_records::MANAGER_TVB, managers.tvb);
        fields::put_u32(c, book_records::MANAGER_AVB, managers.avb);
    }
}

// The record whose every field is 0.
fn no_record() -> Record
    ensures { result ≡ blank_record }
{
    Record {
        user: book_records::no_user(),
        managers: Managers::default(),
    }
}

// Users and trades have a function each, here and where they are written: what a user's record asks for (its size, and whether it has
// managers) a trade's does not.

// The n users that stand from `at` in records of a size, and blank ones past them.
pub fn read_users(s: &[u8], at: usize, size: usize, n: usize) -> [Record; 64]
    requires { (n ≤ 64) × SizeOfRecord size × (at + size * n ≤ length s.now) }
    ensures { Filled as_record size user_of 64 blank_record n (drop at s.now) result }
{
    let blank = no_record();
    let mut users = [blank; 64];
    let managed = size == book_records::MANAGED_SIZE;
    // Here and below `a` is where the next record begins: pieces by `chunks_exact` would be a second place that knows the size.
    let mut a = at;
    for i in 0..n {
        users[i] = read_record(&s[a..a + size], managed);
        a += size;
    }
    users
}

// The n trades that stand from `at`, and blank ones past them.
pub fn read_trades(s: &[u8], at: usize, n: usize) -> [Trade; 256]
    requires { (n ≤ 256) × (at + 20 * n ≤ length s.now) }
    ensures { Filled as_trade 20 trade_of 256 blank_trade n (drop at s.now) result }
{
    let blank = book_records::no_trade();
    let mut trades = [blank; 256];
    let mut a = at;
    for i in 0..n {
        trades[i] = book_records::read_trade(&s[a..a + book_records::TRADE_SIZE]);
        a += book_records::TRADE_SIZE;
    }
    trades
}

// Writes the first n users from `at`, in records of a size.
pub fn write_users(out: &mut [u8], at: usize, size: usize, users: [Record; 64], n: usize)
    requires { (n ≤ 64) × SizeOfRecord size × (at + size * n ≤ length out.old) }
    ensures { (out.new ≡ sets out.old at (bytes_of_records (λ u. record_bytes (eqb size 68) (as_record u)) (take n users))) × (length users ≡ 64) }
{
    let managed = size == book_records::MANAGED_SIZE;
    let mut a = at;
    for i in 0..n {
        write_record(&mut out[a..a + size], users[i], managed);
        a += size;
    }
}

// Writes the first n trades from `at`.
pub fn write_trades(out: &mut [u8], at: usize, trades: [Trade; 256], n: usize)
    requires { (n ≤ 256) × (at + 20 * n ≤ length out.old) }
    ensures { (out.new ≡ sets out.old at (bytes_of_records (λ t. trade_bytes (as_trade t)) (take n trades))) × (length trades ≡ 256) }
{
    let mut a = at;
    for i in 0..n {
        book_records::write_trade(&mut out[a..a + book_records::TRADE_SIZE], trades[i]);
        a += book_records::TRADE_SIZE;
    }
}

// ---- the book

// A book: the header's fields, the users up to `user_count` and the trades up to `trade_count`; what stands past the counts is not of the
// book. Selling tariffs are 0 when a book of version 1 is read, managers when one of version 1 or 2 is, and not looked at when it is
// written.
#[derive(Clone, Copy)]
pub struct Book {
    pub version: u16,
    pub user_count: u8,
    pub trade_count: u16,
    pub date: u32,
    pub prices: Prices,
    pub users: [Record; 64],
    pub trades: [Trade; 256],
}

// The book that bytes of the right form hold.
pub fn read_book(s: &[u8]) -> Book
    requires { Formed s.now }
    ensures { BookRead s.now result }
{
    let user_count = book_format::user_count(s);
    let trade_count = book_format::trade_count(s);
    let n = user_count as usize;
    let users = read_users(
        s,
        book_format::users_offset(s),
        book_format::users_size(s),
        n,
    );
    let trades = read_trades(s, book_format::trades_offset(s, n), trade_count as usize);
    Book {
        version: book_format::version(s),
        user_count,
        trade_count,
        date: fields::get_u32(s, book_records::DATE),
        prices: book_header::read_prices(s),
        users,
        trades,
    }
}

// The book whose every field is 0.
pub fn no_book() -> Book
    ensures { result ≡ blank_book }
{
    Book {
        version: 0,
        user_count: 0,
        trade_count: 0,
        date: 0,
        prices: Prices::default(),
        users: [no_record(); 64],
        trades: [book_records::no_trade(); 256],
    }
}

// Writes a book over bytes of its length.
pub fn write_book(out: &mut [u8], b: Book)
    requires { (b.user_count ≤ 64) × (b.trade_count ≤ 256) × (length out.old ≡ length_by b.version b.user_count b.trade_count) }
    ensures { BookWritten b out.new }
{
    let n = b.user_count as usize;
    let m = b.trade_count as usize;
    let at = book_format::header_size(b.version);
    let size = book_format::user_size(b.version);
    book_header::write_start(out, b.version, b.user_count, b.trade_count, b.date);
    book_header::write_prices(out, b.prices);
    book_header::write_selling(out, b.version, b.prices);
    write_users(out, at, size, b.users, n);
    write_trades(out, at + size * n, b.trades, m);
}
