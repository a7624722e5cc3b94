// What is written in a log: the first bytes with the book that it holds, an entry more, the last dropped, all of them dropped; and the
// start of a log. Which entry is meant is the caller's own, never input.
#![tactic(auto)]

ghost use Rattle.std.specs.Prelude.{◌≡◌, ◌*◌, ◌<◌, ◌≤◌, length};
ghost use Rattle.log_format.specs.Log.{entries_at, entry_at, entry_size, log_head, padded};
ghost use Rattle.log_format.specs.Fits.{start_number, started};
ghost use Rattle.log_entries.specs.Entries.{Notable, Noted, NotedAt, cleared, sealed};
ghost use Rattle.refusals.specs.Refusal.{number_in};

use refusals::Refusal;

// ---- the first bytes, and the held book

// Writes mark, zero byte, entry count and length of the held book.
fn put_head(head: &mut [u8], count: u32, held: u32)
    requires { length head.old ≡ 12 }
    ensures { head.new ≡ log_head count held }
{
    fields::put(head, 0, 3, 0x4C_44_47);
    fields::put_u8(head, 3, 0);
    fields::put_u32(head, 4, count);
    fields::put_u32(head, 8, held);
}

// Writes a book to the front of a part, and 0 behind it.
fn put_held(part: &mut [u8], book: &[u8])
    requires { length book.now ≤ length part.old }
    ensures { part.new ≡ padded (length part.old) book.now }
{
    let n = book.len();
    part[..n].copy_from_slice(book);
    log_bytes::clear(&mut part[n..]);
}

// Writes all that stands before the entries: how many there are, and the book as a call leaves it.
pub fn seal(log: &mut [u8], book: &[u8], count: u32)
    requires { (length log.old ≡ 271668) × (length book.now ≤ 9512) }
    ensures { log.new ≡ sealed count book.now log.old }
{
    let held = book.len() as u32;
    put_head(&mut log[..12], count, held);
    put_held(&mut log[12..9524], book);
}

// ---- entries

// Writes the cuts from..to in an entry, each at the place of its trade.
fn put_cuts(entry: &mut [u8], origins: &[u8; 256], cuts: &[u64; 256], from: usize, to: usize)
    requires { (length entry.old ≡ 1024) × Notable origins.now cuts.now from to }
    ensures { Noted origins.now cuts.now from to entry.old entry.new }
{
    for k in from..to {
        let place = indices::index(origins[k]);
        fields::put_u32(entry, 4 * place, cuts[k] as u32);
    }
}

// Notes the cuts from..to in the entry at a place.
pub fn note(
    log: &mut [u8],
    place: usize,
    origins: &[u8; 256],
    cuts: &[u64; 256],
    from: usize,
    to: usize,
)
    requires { (length log.old ≡ 271668) × (place < 256) × Notable origins.now cuts.now from to }
    ensures { NotedAt place origins.now cuts.now from to log.old log.new }
{
    let at = log_questions::entry_offset(place);
    put_cuts(&mut log[at..at + 1024], origins, cuts, from, to);
}

// Makes the entry at a place 0.
pub fn drop_entry(log: &mut [u8], place: usize)
    requires { (length log.old ≡ 271668) × (place < 256) }
    ensures { log.new ≡ cleared (entry_at place) entry_size log.old }
{
    let at = log_questions::entry_offset(place);
    log_bytes::clear(&mut log[at..at + 1024]);
}

// Makes the first entries 0.
pub fn drop_entries(log: &mut [u8], count: usize)
    requires { (length log.old ≡ 271668) × (count ≤ 256) }
    ensures { log.new ≡ cleared entries_at (entry_size * count) log.old }
{
    let end = log_questions::entry_offset(count);
    log_bytes::clear(&mut log[9524..end]);
}

// ---- the start

// Starts a log that holds a book, any bytes. Where the log has another length or the book does not fit it is refused, and stays as it is.
pub fn start(log: &mut [u8], book: &[u8]) -> Result<(), Refusal>
    ensures value { number_in result ≡ start_number log.old book.now }
    ensures log_after { log.new ≡ started log.old book.now }
{
    if log.len() != 271668 {
        return Err(Refusal::OtherLog);
    }
    if 9512 < book.len() {
        return Err(Refusal::OtherLog);
    }
    seal(log, book, 0);
    drop_entries(log, 256);
    Ok(())
}
