// A user and a trade as the engine keeps them, and in the bytes of a book: 56 and 20 of them. Each is read and written here.
#![tactic(auto)]

ghost use Rattle.std.specs.Prelude.{◌≡◌, ◌+◌, ◌≤◌, length};
ghost use Rattle.rules.specs.Book.{bilateral_for_day};
ghost use Rattle.fields.specs.Layout.{set_fields};
ghost use Rattle.book_records.specs.User.{amounts_at, amount_widths, amount_values, as_amounts, user_of, user_bytes, as_user, blank_user};
ghost use Rattle.book_records.specs.Trade.{trade_of, trade_bytes, as_trade, blank_trade};

use units::{Balance, Cents, Mwh, Net};

// Where the fields of a book stand, and how long a record is: those of the header from the book's first byte, of a user and of a trade from
// the record's. No other crate types these numbers; in contracts the definitions say them.
pub const VERSION: usize = 3;

pub const USER_COUNT: usize = 5;

pub const TRADE_COUNT: usize = 6;

pub const DATE: usize = 8;

pub const PRICE_P: usize = 12;

pub const PRICE_Q: usize = 16;

pub const PRICE_L: usize = 20;

pub const PRICE_X: usize = 24;

pub const PRICE_I: usize = 28;

pub const SELLING_S: usize = 32;

pub const SELLING_U: usize = 36;

// Of a user: its id comes first. With managers a record is longer.
pub const ROLE: usize = 4;

pub const USER_ZEROS: usize = 5;

pub const PHYSICAL: usize = 8;

pub const POSITION: usize = 20;

pub const ENTRY_TO_POSITION: usize = 12;

pub const CHARGES: usize = 32;

pub const ASSIGNED: usize = 40;

pub const BLOCKED: usize = 48;

pub const MANAGERS: usize = 56;

pub const MANAGER_TVB: usize = 60;

pub const MANAGER_AVB: usize = 64;

pub const USER_SIZE: usize = 56;

pub const MANAGED_SIZE: usize = 68;

// Of a trade: its seller comes first.
pub const BUYER: usize = 4;

pub const AREA: usize = 8;

pub const KIND: usize = 9;

pub const DAY: usize = 10;

pub const TRADE_ZERO: usize = 11;

pub const NOTIFIED: usize = 12;

pub const STANDING: usize = 16;

pub const TRADE_SIZE: usize = 20;

// A user. Role and amounts are as the bytes have them: whether they are valid is asked apart.
#[derive(Clone, Copy)]
pub struct User {
    pub id: u32,
    pub role: u8,
    pub physical: [Net; 3],
    pub position: [Net; 3],
    pub charges: Balance,
    pub assigned: Cents,
    pub blocked: Cents,
}

// A trade. Area, kind, day and MWh are as the bytes have them: whether they are valid is asked apart.
#[derive(Clone, Copy)]
pub struct Trade {
    pub seller: u32,
    pub buyer: u32,
    pub area: u8,
    pub kind: u8,
    pub day: u8,
    pub notified: Mwh,
    pub standing: Mwh,
}

// The signed amounts of the three areas, 12 bytes from `at`.
fn get_amounts(s: &[u8], at: usize) -> [Net; 3]
    requires { at + 12 ≤ length s.now }
    ensures { as_amounts result ≡ amounts_at at s.now }
{
    [
        Net::of_bits(fields::get_u32(s, at)),
        Net::of_bits(fields::get_u32(s, at + 4)),
        Net::of_bits(fields::get_u32(s, at + 8)),
    ]
}

// Writes the signed amounts of the three areas to the 12 bytes from `at`.
fn put_amounts(s: &mut [u8], at: usize, v: [Net; 3])
    requires { at + 12 ≤ length s.old }
    ensures { s.new ≡ set_fields amount_widths at (amount_values (as_amounts v)) s.old }
{
    fields::put_u32(s, at, v[0].bits());
    fields::put_u32(s, at + 4, v[1].bits());
    fields::put_u32(s, at + 8, v[2].bits());
}

// The user that 56 bytes hold.
pub fn read_user(c: &[u8]) -> User
    requires { length c.now ≡ 56 }
    ensures { as_user result ≡ user_of c.now }
{
    User {
        id: fields::get_u32(c, 0),
        role: fields::get_u8(c, ROLE),
        physical: get_amounts(c, PHYSICAL),
        position: get_amounts(c, POSITION),
        charges: Balance::of_bits(fields::get_u64(c, CHARGES)),
        assigned: Cents(fields::get_u64(c, ASSIGNED)),
        blocked: Cents(fields::get_u64(c, BLOCKED)),
    }
}

// Writes a user to 56 bytes, zero bytes with it.
pub fn write_user(c: &mut [u8], u: User)
    requires { length c.old ≡ 56 }
    ensures { c.new ≡ user_bytes (as_user u) }
{
    fields::put_u32(c, 0, u.id);
    fields::put_u8(c, ROLE, u.role);
    fields::put(c, USER_ZEROS, 3, 0);
    put_amounts(c, PHYSICAL, u.physical);
    put_amounts(c, POSITION, u.position);
    fields::put_u64(c, CHARGES, u.charges.bits());
    fields::put_u64(c, ASSIGNED, u.assigned.0);
    fields::put_u64(c, BLOCKED, u.blocked.0);
}

// The user whose every field is 0. No derived default: an amount of 0 is kept as its offset. `no_trade` stands beside it in the same form.
pub fn no_user() -> User
    ensures { result ≡ blank_user }
{
    User {
        id: 0,
        role: 0,
        physical: [Net::ZERO; 3],
        position: [Net::ZERO; 3],
        charges: Balance::ZERO,
        assigned: Cents(0),
        blocked: Cents(0),
    }
}

// The trade that 20 bytes hold.
pub fn read_trade(c: &[u8]) -> Trade
    requires { length c.now ≡ 20 }
    ensures { as_trade result ≡ trade_of c.now }
{
    Trade {
        seller: fields::get_u32(c, 0),
        buyer: fields::get_u32(c, BUYER),
        area: fields::get_u8(c, AREA),
        kind: fields::get_u8(c, KIND),
        day: fields::get_u8(c, DAY),
        notified: Mwh(fields::get_u32(c, NOTIFIED)),
        standing: Mwh(fields::get_u32(c, STANDING)),
    }
}

// Writes a trade to 20 bytes, the zero byte with it.
pub fn write_trade(c: &mut [u8], t: Trade)
    requires { length c.old ≡ 20 }
    ensures { c.new ≡ trade_bytes (as_trade t) }
{
    fields::put_u32(c, 0, t.seller);
    fields::put_u32(c, BUYER, t.buyer);
    fields::put_u8(c, AREA, t.area);
    fields::put_u8(c, KIND, t.kind);
    fields::put_u8(c, DAY, t.day);
    fields::put_u8(c, TRADE_ZERO, 0);
    fields::put_u32(c, NOTIFIED, t.notified.0);
    fields::put_u32(c, STANDING, t.standing.0);
}

// Is the trade bilateral and for day d? Only such trades can be cut.
pub fn is_bilateral_for_day(t: Trade) -> bool
    ensures { result ≡ bilateral_for_day (as_trade t) }
{
    (t.kind == 0) & (t.day == 0)
}

// The trade whose every field is 0.
pub fn no_trade() -> Trade
    ensures { result ≡ blank_trade }
{
    Trade {
        seller: 0,
        buyer: 0,
        area: 0,
        kind: 0,
        day: 0,
        notified: Mwh(0),
        standing: Mwh(0),
    }
}
