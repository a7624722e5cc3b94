// A book written as another version. A version is the sizes of its header and of its user records: a field that only the longer has stands
// at the end of it, and is 0 in the shorter.
#![tactic(auto)]

ghost use Rattle.std.specs.Prelude.{◌≡◌, ◌+◌, ◌-◌, ◌*◌, ◌≤◌, length, drop};
ghost use Rattle.std.proofs.lemmas.List.Edits.{sets};
ghost use Rattle.book_format.specs.Book.{book_of, length_by, count_of_trades, count_of_users};
ghost use Rattle.base.specs.Lists.{all};
ghost use Rattle.fields.specs.Layout.{records_of};
ghost use Rattle.book_records.specs.User.{user_of};
ghost use Rattle.book_format.specs.Questions.{book_number, Formed};
ghost use Rattle.conversions.specs.Conversion.{converted, kept, keeps_managers, keeps_tariffs, unmanaged_user};

// ---- what is kept

// Are the selling tariffs of a book kept on the way to a version?
fn tariffs_kept(s: &[u8], version: u16) -> bool
    requires { Formed s.now }
    ensures { result ≡ keeps_tariffs version (book_of s.now).header.prices }
{
    if book_format::has_selling(version) {
        return true;
    }
    if !book_format::has_selling(book_format::version(s)) {
        return true;
    }
    (fields::get_u32(s, book_records::SELLING_S) == 0)
        & (fields::get_u32(s, book_records::SELLING_U) == 0)
}

// Is none of the n users managed, in records of 68 bytes that stand from `at` on?
fn unmanaged(s: &[u8], at: usize, n: usize) -> bool
    requires { at + 68 * n ≤ length s.now }
    ensures { result ≡ all unmanaged_user (records_of 68 user_of n (drop at s.now)) }
{
    for i in 0..n {
        let a = at + book_records::MANAGED_SIZE * i;
        let pvb = fields::get_u32(s, a + book_records::MANAGERS);
        let tvb = fields::get_u32(s, a + book_records::MANAGER_TVB);
        let avb = fields::get_u32(s, a + book_records::MANAGER_AVB);
        if !((pvb == 0) & ((tvb == 0) & (avb == 0))) {
            return false;
        }
    }
    true
}

// Are the managers of a book's users kept on the way to a version?
fn managers_kept(s: &[u8], version: u16) -> bool
    requires { Formed s.now }
    ensures { result ≡ keeps_managers version (book_of s.now).users }
{
    if book_format::has_managers(version) {
        return true;
    }
    if !book_format::has_managers(book_format::version(s)) {
        return true;
    }
    let n = book_format::user_count(s) as usize;
    unmanaged(s, book_format::users_offset(s), n)
}

// Is no information lost on the way to a version?
pub fn keeps(s: &[u8], version: u16) -> bool
    requires { Formed s.now }
    ensures { result ≡ kept version (book_of s.now) }
{
    let tariffs = tariffs_kept(s, version);
    let managers = managers_kept(s, version);
    tariffs & managers
}

// ---- written

// Copies what stands from `from` on to `to`, which is all that stands there.
fn copy_rest(s: &[u8], from: usize, out: &mut [u8], to: usize)
    requires { (from ≤ length s.now) × (to + (length s.now - from) ≡ length out.old) }
    ensures { out.new ≡ sets out.old to (drop from s.now) }
{
    out[to..].copy_from_slice(&s[from..]);
}

// Writes an accepted book as a version to a part of the length that it then has.
pub fn convert(s: &[u8], version: u16, out: &mut [u8])
    requires { (book_number s.now ≡ 0) × (length out.old ≡ length_by version (count_of_users s.now) (count_of_trades s.now)) }
    ensures { out.new ≡ converted version s.now }
{
    let n = book_format::user_count(s) as usize;
    let from = book_format::users_offset(s);
    let size = book_format::users_size(s);
    let to = book_format::header_size(version);
    let new_size = book_format::user_size(version);
    book_image::fit_records(s, 0, 1, from, out, 0, to);
    fields::put_u16(out, book_records::VERSION, version);
    book_image::fit_records(s, from, n, size, out, to, new_size);
    copy_rest(s, from + size * n, out, to + new_size * n);
}

// The length of a book as a version.
pub fn length_as(s: &[u8], version: u16) -> usize
    requires { Formed s.now }
    ensures { result ≡ length_by version (count_of_users s.now) (count_of_trades s.now) }
{
    let n = book_format::user_count(s) as usize;
    let m = book_format::trade_count(s) as usize;
    book_format::book_length(version, n, m)
}
