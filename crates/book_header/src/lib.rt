// The header of a book in bytes: the questions 1 to 3, which any bytes are asked, question 4 of its fields, its prices read and its fields
// written.
#![tactic(auto)]

ghost use Rattle.std.specs.Prelude.{◌≡◌, ◌+◌, ◌≤◌, length, ◌∷◌, []};
ghost use Rattle.std.proofs.lemmas.List.Edits.{sets};
ghost use Rattle.refusals.specs.Refusal.{number_in};
ghost use Rattle.rules.specs.Questions.{prices_are_valid, most_selling, selling_is_valid, header_is_valid};
ghost use Rattle.units.specs.Prices.{as_prices};
ghost use Rattle.book_format.specs.Questions.{marked, versioned, sized, form_number_of};
ghost use Rattle.fields.specs.Layout.{set_fields};
ghost use Rattle.book_format.specs.Book.{mark, size_of_header, prices_of, selling_tariff_at, selling_bytes};
ghost use Rattle.book_format.specs.Places.{HeaderIn};

use refusals::Refusal;
use units::Prices;

// ---- 1 to 3

// Are there 32 bytes at least, with the mark first?
fn is_marked(s: &[u8]) -> bool
    ensures { result ≡ marked s.now }
{
    if s.len() < 32 {
        return false;
    }
    fields::get(s, 0, 3) == 0x42_44_47
}

// Is its version known?
fn is_versioned(s: &[u8]) -> bool
    requires { 32 ≤ length s.now }
    ensures { result ≡ versioned s.now }
{
    book_format::is_known(book_format::version(s))
}

// Are the counts in range, and are there exactly as many bytes as they ask for?
fn is_sized(s: &[u8]) -> bool
    requires { 32 ≤ length s.now }
    ensures { result ≡ sized s.now }
{
    let n = book_format::user_count(s) as usize;
    let m = book_format::trade_count(s) as usize;
    ((1 <= n) & (n <= 64))
        & ((m <= 256) & (s.len() == book_format::book_length(book_format::version(s), n, m)))
}

// Asks the questions 1 to 3, in their order.
pub fn ask_form(s: &[u8]) -> Result<(), Refusal>
    ensures { number_in result ≡ form_number_of s.now }
{
    if !is_marked(s) {
        return Err(Refusal::Unmarked);
    }
    if !is_versioned(s) {
        return Err(Refusal::UnknownVersion);
    }
    if !is_sized(s) {
        return Err(Refusal::WrongLength);
    }
    Ok(())
}

// ---- 4

// Are P and Q 1 to 100,000, and the tolls at most 100,000?
fn prices_valid(f: Prices) -> bool
    ensures { result ≡ prices_are_valid (as_prices f) }
{
    (((1 <= f.p) & (f.p <= 100000)) & ((1 <= f.q) & (f.q <= 100000)))
        & ((f.l <= 100000) & ((f.x <= 100000) & (f.i <= 100000)))
}

// The highest selling tariff of a version, 0 where it has none.
fn selling_most(version: u16) -> u32
    ensures { result ≡ most_selling version }
{
    if book_format::has_selling(version) {
        100000
    } else {
        0
    }
}

// Are the selling tariffs in the range of their version?
fn selling_valid(version: u16, f: Prices) -> bool
    ensures { result ≡ selling_is_valid version (as_prices f) }
{
    let most = selling_most(version);
    (f.s <= most) & (f.u <= most)
}

// Are date, prices and tolls in range, and the selling tariffs of the version?
pub fn header_valid(version: u16, date: u32, f: Prices) -> bool
    ensures { result ≡ header_is_valid (record { version = version; date = date; prices = as_prices f }) }
{
    let day = calendar::is_real_day(date);
    let prices = prices_valid(f);
    let selling = selling_valid(version, f);
    day & (prices & selling)
}

// ---- the header

// The selling tariff at an offset of the header, 0 in a version that has none.
fn selling_at(s: &[u8], at: usize) -> u32
    requires { HeaderIn s.now × (at + 4 ≤ 40) }
    ensures { result ≡ selling_tariff_at at s.now }
{
    if book_format::has_selling(book_format::version(s)) {
        fields::get_u32(s, at)
    } else {
        0
    }
}

// The prices and tolls of the header, selling tariffs with them.
pub fn read_prices(s: &[u8]) -> Prices
    requires { HeaderIn s.now }
    ensures { as_prices result ≡ prices_of s.now }
{
    Prices {
        p: fields::get_u32(s, book_records::PRICE_P),
        q: fields::get_u32(s, book_records::PRICE_Q),
        l: fields::get_u32(s, book_records::PRICE_L),
        x: fields::get_u32(s, book_records::PRICE_X),
        i: fields::get_u32(s, book_records::PRICE_I),
        s: selling_at(s, book_records::SELLING_S),
        u: selling_at(s, book_records::SELLING_U),
    }
}

// Writes mark, version, counts and date.
pub fn write_start(out: &mut [u8], version: u16, users: u8, trades: u16, date: u32)
    requires { 32 ≤ length out.old }
    ensures { out.new ≡ set_fields (3 ∷ 2 ∷ 1 ∷ 2 ∷ 4 ∷ []) 0 (mark ∷ version ∷ users ∷ trades ∷ date ∷ []) out.old }
{
    fields::put(out, 0, 3, 0x42_44_47);
    fields::put_u16(out, book_records::VERSION, version);
    fields::put_u8(out, book_records::USER_COUNT, users);
    fields::put_u16(out, book_records::TRADE_COUNT, trades);
    fields::put_u32(out, book_records::DATE, date);
}

// Writes prices and tolls.
pub fn write_prices(out: &mut [u8], prices: Prices)
    requires { 32 ≤ length out.old }
    ensures { out.new ≡ set_fields (4 ∷ 4 ∷ 4 ∷ 4 ∷ 4 ∷ []) 12 (prices.p ∷ prices.q ∷ prices.l ∷ prices.x ∷ prices.i ∷ []) out.old }
{
    fields::put_u32(out, book_records::PRICE_P, prices.p);
    fields::put_u32(out, book_records::PRICE_Q, prices.q);
    fields::put_u32(out, book_records::PRICE_L, prices.l);
    fields::put_u32(out, book_records::PRICE_X, prices.x);
    fields::put_u32(out, book_records::PRICE_I, prices.i);
}

// Writes the selling tariffs, in a version that has them.
pub fn write_selling(out: &mut [u8], version: u16, prices: Prices)
    requires { size_of_header version ≤ length out.old }
    ensures { out.new ≡ sets out.old 32 (selling_bytes version (as_prices prices)) }
{
    if book_format::has_selling(version) {
        fields::put_u32(out, book_records::SELLING_S, prices.s);
        fields::put_u32(out, book_records::SELLING_U, prices.u);
    }
}
