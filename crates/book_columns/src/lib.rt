// A book field by field: its header with the mark `GDF`, all ids, all roles, and so on through the user and then the trade fields; and back
// to the book. A version is its header's size and the widths of its fields; the widths stand here once, as data.
#![tactic(auto)]

ghost use Rattle.std.specs.Prelude.{◌≡◌, ◌+◌, ◌*◌, ◌≤◌, length, take, drop};
ghost use Rattle.std.proofs.lemmas.List.Edits.{sets};
ghost use Rattle.fields.specs.Field.{set_field};
ghost use Rattle.columns.specs.Columns.{arranged};
ghost use Rattle.book_format.specs.Book.{trade_size, size_of_user};
ghost use Rattle.book_columns.specs.Form.{rearranged, shaped, trade_fields, user_fields, Laid};

// Copies a header to a part of its length, with another mark.
fn copy_marked(s: &[u8], mark: u64, out: &mut [u8])
    requires { (length out.old ≡ length s.now) × (3 ≤ length s.now) }
    ensures { out.new ≡ set_field 3 0 mark s.now }
{
    out.copy_from_slice(s);
    fields::put(out, 0, 3, mark);
}

// Writes the header of a size that bytes begin with to the front of another part, with another mark.
fn copy_header(s: &[u8], size: usize, mark: u64, out: &mut [u8])
    requires { (3 ≤ size) × (size ≤ length s.now) × (size ≤ length out.old) }
    ensures { out.new ≡ sets out.old 0 (set_field 3 0 mark (take size s.now)) }
{
    copy_marked(&s[..size], mark, &mut out[..size]);
}

// Arranges the n users of a version that begin at `at`.
fn arrange_users(s: &[u8], version: u16, at: usize, n: usize, back: bool, out: &mut [u8])
    requires { (at + size_of_user version * n ≤ length s.now) × (at + size_of_user version * n ≤ length out.old) }
    ensures { out.new ≡ sets out.old at (arranged back (user_fields version) n (take (size_of_user version * n) (drop at s.now))) }
{
    if book_format::has_managers(version) {
        let widths = [4u8, 1, 3, 4, 4, 4, 4, 4, 4, 8, 8, 8, 4, 4, 4];
        columns::arrange(s, at, n, book_records::MANAGED_SIZE, &widths, back, out);
    } else {
        let widths = [4u8, 1, 3, 4, 4, 4, 4, 4, 4, 8, 8, 8];
        columns::arrange(s, at, n, book_records::USER_SIZE, &widths, back, out);
    }
}

// Arranges the m trades of a version that begin at `at`.
fn arrange_trades(s: &[u8], version: u16, at: usize, m: usize, back: bool, out: &mut [u8])
    requires { (at + trade_size version * m ≤ length s.now) × (at + trade_size version * m ≤ length out.old) }
    ensures { out.new ≡ sets out.old at (arranged back (trade_fields version) m (take (trade_size version * m) (drop at s.now))) }
{
    let widths = [4u8, 4, 1, 1, 1, 1, 4, 4];
    columns::arrange(s, at, m, book_records::TRADE_SIZE, &widths, back, out);
}

// Writes bytes as long as their version and counts ask for to a part of their length: with another mark, users and trades field by field,
// or, where `back` is yes, record by record.
pub fn rearrange(s: &[u8], back: bool, mark: u64, out: &mut [u8])
    requires { Laid s.now × (length out.old ≡ length s.now) }
    ensures { out.new ≡ rearranged back mark s.now }
{
    let version = book_format::version(s);
    let n = book_format::user_count(s) as usize;
    let m = book_format::trade_count(s) as usize;
    let users = book_format::header_size(version);
    let trades = users + book_format::user_size(version) * n;
    copy_header(s, users, mark, out);
    arrange_users(s, version, users, n, back, out);
    arrange_trades(s, version, trades, m, back, out);
}

// Are there 32 bytes at least, with the mark of a form first, a known version, counts in range, and exactly as many bytes as they ask for?
pub fn is_shaped(f: &[u8]) -> bool
    ensures { result ≡ shaped f.now }
{
    if f.len() < 32 {
        return false;
    }
    let mark = fields::get(f, 0, 3);
    let version = book_format::version(f);
    let n = book_format::user_count(f) as usize;
    let m = book_format::trade_count(f) as usize;
    let known = book_format::is_known(version);
    let size = book_format::book_length(version, n, m);
    (mark == 0x46_44_47) & (known & (((1 <= n) & (n <= 64)) & ((m <= 256) & (f.len() == size))))
}
