// Question 19: are lent bytes a log for the book that is given? Its length and its first 12 bytes, the held book, the bytes that are not
// used, and the cuts of all entries together.
#![tactic(auto)]

ghost use Rattle.std.specs.Prelude.{◌&&◌, ◌≡◌, ℕ, ◌+◌, ◌*◌, ◌≤◌, length, take, replicate};
ghost use Rattle.std.proofs.lemmas.List.Edits.{sets};
ghost use Rattle.book_format.specs.Book.{count_of_trades, trades_at, trades_of};
ghost use Rattle.book_format.specs.Questions.{Formed};
ghost use Rattle.book_records.specs.Trade.{as_trade};
ghost use Rattle.rules.specs.Reduction.{together};
ghost use Rattle.log_format.specs.Log.{entries_in, entries_of, entry_at};
ghost use Rattle.log_format.specs.Fits.{all_cuts, entries_rest, held_rest, log_holds_book, log_fits, log_is_formed};
ghost use Rattle.log_format.specs.Fits.{raise_within, raises_within, rests_zero, unused_zero, zeros};
ghost use Rattle.log_questions.specs.Form.{LogFormed, Sums, cuts_from};

use book_records::Trade;

// ---- the form, and the held book

// Is the length a log's, and are mark, zero byte, entry count and length of the held book as they may be?
fn is_formed(log: &[u8]) -> bool
    ensures { result ≡ log_is_formed log.now }
{
    if log.len() != 271668 {
        return false;
    }
    let mark = fields::get(log, 0, 3);
    let zero = fields::get_u8(log, 3);
    let count = fields::get_u32(log, 4);
    let held = fields::get_u32(log, 8);
    ((mark == 0x4C_44_47) & (zero == 0)) & ((count <= 256) & (held <= 9512))
}

// Is the held book the one that is given?
fn holds_book(log: &[u8], book: &[u8]) -> bool
    requires { LogFormed log.now }
    ensures { result ≡ log_holds_book log.now book.now }
{
    let held = fields::get_u32(log, 8) as usize;
    held == book.len() && log_bytes::same(&log[12..12 + held], book)
}

// Are the bytes behind the held book 0?
fn is_held_alone(log: &[u8]) -> bool
    requires { LogFormed log.now }
    ensures { result ≡ zeros (held_rest log.now) }
{
    let held = fields::get_u32(log, 8) as usize;
    log_bytes::is_zero(&log[12 + held..9524])
}

// ---- the entries

// Where the entry at a place begins.
pub fn entry_offset(place: usize) -> usize
    requires { place ≤ 256 }
    ensures { (result ≡ entry_at place) × (result ≡ 9524 + 1024 * place) }
{
    9524 + 1024 * place
}

// Are the bytes behind the last entry 0?
fn is_last(log: &[u8]) -> bool
    requires { LogFormed log.now }
    ensures { result ≡ zeros (entries_rest log.now) }
{
    let count = fields::get_u32(log, 4) as usize;
    let at = entry_offset(count);
    log_bytes::is_zero(&log[at..])
}

// Adds the cuts of m trades, in the entry that begins at `at`, to the sums of the entries before it.
fn add_cuts(log: &[u8], at: usize, m: usize, sums: &mut [u64; 256])
    requires { (at + 1024 ≤ length log.now) × (m ≤ 256) × Sums sums.old 1099511627776 }
    ensures sums_after { sums.new ≡ sets sums.old 0 (together (cuts_from m at log.now) (take m sums.old)) }
    ensures by_index { (most : ℕ) → Sums sums.old most → Sums sums.new (most + 4294967296) }
{
    for k in 0..m {
        sums[k] = fields::get_u32(log, at + 4 * k) as u64 + sums[k];
    }
}

// Sums the cuts of the entries, for each of m trades. Are the bytes behind the trades' cuts 0 in all of them?
fn sum_entries(log: &[u8], count: usize, m: usize, sums: &mut [u64; 256]) -> bool
    requires log_formed { LogFormed log.now × (count ≤ 256) × (m ≤ 256) }
    requires sums_value { sums.old ≡ replicate 256 0 }
    ensures value { (result ≡ rests_zero m count log.now) × (take m sums.new ≡ all_cuts m (entries_in m count log.now)) }
    ensures sums { Sums sums.new 1099511627776 }
{
    let mut so_far = true;
    for place in 0..count {
        let at = entry_offset(place);
        add_cuts(log, at, m, sums);
        so_far = log_bytes::is_zero(&log[at + 4 * m..at + 1024]) & so_far;
    }
    so_far
}

// Is what stands of a trade, with what is cut of it, within notified, and nothing cut where the trade is not of kind 0 and day 0?
fn is_within(t: Trade, cut: u64) -> bool
    requires { cut ≤ 1099511627776 }
    ensures { result ≡ raise_within cut (as_trade t) }
{
    let standing = t.standing.0 as u64;
    let notified = t.notified.0 as u64;
    let bilateral = book_records::is_bilateral_for_day(t);
    (standing + cut <= notified) & ((cut == 0) | bilateral)
}

// Is it so of each of the m trades of a book, which begin at `at`?
fn are_within(book: &[u8], at: usize, m: usize, sums: &[u64; 256]) -> bool
    requires { Formed book.now × (at ≡ trades_at book.now) × (m ≡ count_of_trades book.now) × Sums sums.now 1099511627776 }
    ensures { result ≡ raises_within (take m sums.now) (trades_of book.now) }
{
    let mut so_far = true;
    for k in 0..m {
        let t = book_format::trade_at(book, at, k);
        so_far &= is_within(t, sums[k]);
    }
    so_far
}

// ---- all together

// The questions of a formed log beyond the held book, with room for the sums.
fn is_used_as_told(log: &[u8], book: &[u8], sums: &mut [u64; 256]) -> bool
    requires log_formed { LogFormed log.now × Formed book.now }
    requires sums_value { sums.old ≡ replicate 256 0 }
    ensures { result ≡ (unused_zero (count_of_trades book.now) log.now && raises_within (all_cuts (count_of_trades book.now) (entries_of book.now log.now)) (trades_of book.now)) }
{
    let n = book_format::user_count(book) as usize;
    let m = book_format::trade_count(book) as usize;
    let at = book_format::trades_offset(book, n);
    let count = fields::get_u32(log, 4) as usize;
    let apart = sum_entries(log, count, m, sums);
    let within = are_within(book, at, m, sums);
    let alone = is_held_alone(log);
    let last = is_last(log);
    (alone & (apart & last)) & within
}

// Are lent bytes a log for a book that passes the questions 1 to 3?
pub fn fits(log: &[u8], book: &[u8]) -> bool
    requires { Formed book.now }
    ensures { result ≡ log_fits log.now book.now }
{
    if !is_formed(log) {
        return false;
    }
    if !holds_book(log, book) {
        return false;
    }
    let mut sums = [0u64; 256];
    is_used_as_told(log, book, &mut sums)
}
