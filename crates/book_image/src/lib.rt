// The fields of a book as an image of 9,512 bytes, for callers that have no struct `Book`: a header of 40 bytes, 64 users of 68 bytes and
// 256 trades in the book's format, 0 past the header and the user records of the book's version and past the counts. A book is read into an
// image, and written from the fields of one: the bytes of that book are asked what any bytes are asked.
#![tactic(auto)]

ghost use Rattle.std.specs.Prelude.{◌≡◌, ◌-◌, ◌≤◌, ◌+◌, ◌*◌, T, length, take, drop};
ghost use Rattle.std.proofs.lemmas.List.Edits.{sets};
ghost use Rattle.book_format.specs.Book.{length_by, version_of, count_of_users, mark, count_of_trades, user_record, size_of_user, bytes_of};
ghost use Rattle.rules.specs.Questions.{version_known};
ghost use Rattle.book_format.specs.Questions.{Formed};
ghost use Rattle.book_image.specs.Image.{padded, image_users_at, image_user_size, image_trades_at, image_size, image_of, ImageRead};
ghost use Rattle.fields.specs.Field.{set_field};
ghost use Rattle.fields.specs.Layout.{records_of, bytes_of_records};
ghost use Rattle.book_records.specs.Trade.{trade_of, trade_bytes};
ghost use Rattle.book_image.specs.Fitted.{refitted};
ghost use Rattle.book_image.specs.Zeroed.{zeroed_records};
ghost use Rattle.book_questions.specs.Asked.{fields_number_of};
ghost use Rattle.book_value.specs.Written.{WrittenAs};
ghost use Rattle.book_image.specs.ImageBook.{image_book, image_user_of, CountsOf};
ghost use Rattle.refusals.specs.Refusal.{number_in};

use refusals::Refusal;

// ---- the parts of an image, the same in every version

// Where the room for 64 users begins, behind a header of 40 bytes.
const USERS_AT: usize = 40;
// The bytes of a user's record, the longest of any version.
const USER_SIZE: usize = book_records::MANAGED_SIZE;
// Where the room for 256 trades begins, behind 64 users.
const TRADES_AT: usize = 4392;
// The length of an image, with 256 trades.
const SIZE: usize = 9512;

// ---- parts filled up

// Copies bytes to the front of a part, and makes the rest of it 0.
pub fn fill(out: &mut [u8], front: &[u8])
    requires { length front.now ≤ length out.old }
    ensures { out.new ≡ padded (length out.old) front.now }
{
    let n = front.len();
    out[..n].copy_from_slice(front);
    out[n..].fill(0);
}

// Fills the part of an image from one place to another.
fn fill_part(image: &mut [u8], at: usize, end: usize, front: &[u8])
    requires { (at ≤ end) × (end ≤ length image.old) × (length front.now ≤ end - at) }
    ensures { image.new ≡ sets image.old at (padded (end - at) front.now) }
{
    fill(&mut image[at..end], front);
}

// ---- records of another size

// Writes the first `kept` bytes that stand from `from` on as `size` bytes from `to` on, with 0 behind them.
fn fit(s: &[u8], from: usize, kept: usize, out: &mut [u8], to: usize, size: usize)
    requires { (from + kept ≤ length s.now) × (to + size ≤ length out.old) × (kept ≤ size) }
    ensures { out.new ≡ sets out.old to (padded size (take kept (drop from s.now))) }
{
    fill(&mut out[to..to + size], &s[from..from + kept]);
}

// Copies k numbers of 8 bytes that stand from `from` on to `to` on.
fn copy_eights(s: &[u8], from: usize, out: &mut [u8], to: usize, k: usize)
    requires { (from + 8 * k ≤ length s.now) × (to + 8 * k ≤ length out.old) }
    ensures { out.new ≡ sets out.old to (take (8 * k) (drop from s.now)) }
{
    for i in 0..k {
        fields::put_u64(out, to + 8 * i, fields::get_u64(s, from + 8 * i));
    }
}

// As `fit`, for the bytes of one record: eight at a time, and what is left as it comes.
fn fit_record(s: &[u8], from: usize, kept: usize, out: &mut [u8], to: usize, size: usize)
    requires { (from + kept ≤ length s.now) × (to + size ≤ length out.old) × (kept ≤ size) }
    ensures { out.new ≡ sets out.old to (padded size (take kept (drop from s.now))) }
{
    let eights = kept / 8;
    copy_eights(s, from, out, to, eights);
    let k = 8 * eights;
    fit(s, from + k, kept - k, out, to + k, size - k);
}

// Writes the n records of `size` bytes that stand from `from` on as records of `new_size` bytes from `to` on: each cut, or with 0 behind.
fn fit_each(
    s: &[u8],
    from: usize,
    n: usize,
    size: usize,
    out: &mut [u8],
    to: usize,
    new_size: usize,
)
    requires { (from + size * n ≤ length s.now) × (to + new_size * n ≤ length out.old) }
    ensures { out.new ≡ sets out.old to (refitted new_size size n (drop from s.now)) }
{
    let kept = size.min(new_size);
    for i in 0..n {
        fit_record(s, from + size * i, kept, out, to + new_size * i, new_size);
    }
}

// The same; records of the size that they are to have are one copy.
pub fn fit_records(
    s: &[u8],
    from: usize,
    n: usize,
    size: usize,
    out: &mut [u8],
    to: usize,
    new_size: usize,
)
    requires { (from + size * n ≤ length s.now) × (to + new_size * n ≤ length out.old) }
    ensures { out.new ≡ sets out.old to (refitted new_size size n (drop from s.now)) }
{
    if size == new_size {
        let k = size * n;
        fit(s, from, k, out, to, k);
    } else {
        fit_each(s, from, n, size, out, to, new_size);
    }
}

// ---- a book read into an image

// Fills the room of an image's users with n records of a size that stand from `from` on.
fn fill_users(image: &mut [u8], s: &[u8], from: usize, n: usize, size: usize)
    requires { (n ≤ 64) × (from + size * n ≤ length s.now) × (length image.old ≡ image_size) }
    ensures { image.new ≡ sets image.old image_users_at (padded (image_trades_at - image_users_at) (refitted image_user_size size n (drop from s.now))) }
{
    fit_records(s, from, n, size, image, USERS_AT, USER_SIZE);
    image[USERS_AT + USER_SIZE * n..TRADES_AT].fill(0);
}

// Copies the bytes of a book of n users to an image.
fn copy_book(image: &mut [u8], s: &[u8], n: usize)
    requires { Formed s.now × (n ≡ count_of_users s.now) × (length image.old ≡ image_size) }
    ensures { image.new ≡ image_of s.now }
{
    let from = book_format::users_offset(s);
    let size = book_format::users_size(s);
    let at = from + size * n;
    fill_part(image, 0, USERS_AT, &s[..from]);
    fill_users(image, s, from, n, size);
    fill_part(image, TRADES_AT, SIZE, &s[at..]);
}

// Reads a book into the image of its fields; or refuses bytes with the first of the questions 1 to 7 that they fail, and the image is 0.
pub fn read(book: &[u8], image: &mut [u8]) -> Result<(), Refusal>
    requires { length image.old ≡ image_size }
    ensures { ImageRead book.now (number_in result) image.new }
{
    if let Err(refusal) = book_questions::check(book) {
        image.fill(0);
        return Err(refusal);
    }
    let n = book_format::user_count(book) as usize;
    copy_book(image, book, n);
    Ok(())
}

// ---- parts of a book copied

// Copies a header to a part of its length, with the mark of a book.
fn copy_marked(s: &[u8], out: &mut [u8])
    requires { (length out.old ≡ length s.now) × (3 ≤ length s.now) }
    ensures { out.new ≡ set_field 3 0 mark s.now }
{
    out.copy_from_slice(s);
    fields::put(out, 0, 3, 0x42_44_47);
}

// Writes the header of a size that bytes begin with to the front of another part, with the mark of a book.
pub fn copy_header(s: &[u8], size: usize, out: &mut [u8])
    requires { (3 ≤ size) × (size ≤ length s.now) × (size ≤ length out.old) }
    ensures { out.new ≡ sets out.old 0 (set_field 3 0 mark (take size s.now)) }
{
    copy_marked(&s[..size], &mut out[..size]);
}

// Makes the field of `width` bytes at an offset 0 in each of n records of a size, which are all that stands there.
fn clear_fields(out: &mut [u8], n: usize, size: usize, offset: usize, width: usize)
    requires { (offset + width ≤ size) × (length out.old ≡ size * n) }
    ensures { out.new ≡ zeroed_records width offset size n out.old }
{
    for i in 0..n {
        fields::put(out, size * i + offset, width, 0);
    }
}

// Copies n records of a size to a part of their length, with the field of `width` bytes at an offset of each as 0.
fn copy_records(s: &[u8], out: &mut [u8], n: usize, size: usize, offset: usize, width: usize)
    requires { (offset + width ≤ size) × (length s.now ≡ size * n) × (length out.old ≡ size * n) }
    ensures { out.new ≡ zeroed_records width offset size n s.now }
{
    out.copy_from_slice(s);
    clear_fields(out, n, size, offset, width);
}

// Writes the n users of an image that stand from byte `from` on to another part, from its byte `at` on, in records of a version.
pub fn copy_users(s: &[u8], from: usize, n: usize, out: &mut [u8], at: usize, version: u16)
    requires { (from + image_user_size * n ≤ length s.now) × (at + size_of_user version * n ≤ length out.old) }
    ensures { out.new ≡ sets out.old at (bytes_of_records (user_record version) (records_of image_user_size (image_user_of version) n (drop from s.now))) }
{
    let size = book_format::user_size(version);
    fit_records(s, from, n, USER_SIZE, out, at, size);
    clear_fields(
        &mut out[at..at + size * n],
        n,
        size,
        book_records::USER_ZEROS,
        3,
    );
}

// Writes the m trades that stand from byte `from` on to another part, from its byte `at` on.
pub fn copy_trades(s: &[u8], from: usize, m: usize, out: &mut [u8], at: usize)
    requires { (from + 20 * m ≤ length s.now) × (at + 20 * m ≤ length out.old) }
    ensures { out.new ≡ sets out.old at (bytes_of_records trade_bytes (records_of 20 trade_of m (drop from s.now))) }
{
    let size = book_records::TRADE_SIZE * m;
    copy_records(
        &s[from..from + size],
        &mut out[at..at + size],
        m,
        book_records::TRADE_SIZE,
        book_records::TRADE_ZERO,
        1,
    );
}

// ---- a book written from an image

// Writes the book of an image's fields to a part of its length.
fn write_fields(image: &[u8], n: usize, m: usize, out: &mut [u8])
    requires { CountsOf image.now n m × (length out.old ≡ length_by (version_of image.now) n m) }
    ensures { out.new ≡ bytes_of (image_book image.now) }
{
    let version = book_format::version(image);
    let at = book_format::header_size(version);
    let size = book_format::user_size(version);
    copy_header(image, at, out);
    copy_users(image, USERS_AT, n, out, at, version);
    copy_trades(image, TRADES_AT, m, out, at + size * n);
}

// Asks the questions 4 to 7 of the bytes of the book of an image's fields, which are written to a part lent for it. Neither the mark of the
// image nor its zero bytes are looked at.
fn ask_in(scratch: &mut [u8], image: &[u8], n: usize, m: usize, len: usize) -> Result<(), Refusal>
    requires { CountsOf image.now n m × T (version_known (version_of image.now)) × (len ≡ length_by (version_of image.now) n m) × (len ≤ length scratch.old) }
    ensures { number_in result ≡ fields_number_of (bytes_of (image_book image.now)) }
{
    write_fields(image, n, m, &mut scratch[..len]);
    let mut sellers = [0u8; 256];
    let mut buyers = [0u8; 256];
    book_questions::check_fields(&scratch[..len], &mut sellers, &mut buyers)
}

// The same, with a place of its own to write to.
fn ask_written(image: &[u8], n: usize, m: usize, len: usize) -> Result<(), Refusal>
    requires { CountsOf image.now n m × T (version_known (version_of image.now)) × (len ≡ length_by (version_of image.now) n m) }
    ensures { number_in result ≡ fields_number_of (bytes_of (image_book image.now)) }
{
    let mut scratch = [0u8; SIZE];
    ask_in(&mut scratch, image, n, m, len)
}

// Writes the book that an image's fields are to a part of exactly its length; or leaves the part and refuses with the first question that
// the bytes would fail. `book_value::write` does the same of a struct: a trait over both would have to state as laws what each writes, and
// be longer than the two.
pub fn write(image: &[u8], out: &mut [u8]) -> Result<(), Refusal>
    requires { length image.now ≡ image_size }
    ensures { WrittenAs (count_of_users image.now) (count_of_trades image.now) (image_book image.now) out.old (number_in result) out.new }
{
    let version = book_format::version(image);
    let n = book_format::user_count(image) as usize;
    let m = book_format::trade_count(image) as usize;
    if !book_format::is_known(version) {
        return Err(Refusal::UnknownVersion);
    }
    let counted = ((1 <= n) & (n <= 64)) & (m <= 256);
    if !counted {
        return Err(Refusal::WrongLength);
    }
    let len = book_format::book_length(version, n, m);
    if out.len() != len {
        return Err(Refusal::WrongLength);
    }
    ask_written(image, n, m, len)?;
    write_fields(image, n, m, out);
    Ok(())
}
