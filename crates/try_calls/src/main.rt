// Calls of documents 01 and 02, run and printed, of the files `calls`, `reductions` and `lists` (lists.rt). NAME.index says what each call
// of the file NAME shows. File `calls`: each call is made on its book, and its place, its kind, its number and its fields are printed, a
// line each; after a call that may change the book, the user's record too, in hexadecimal; of a whole cancellation the places of the
// marked trades. In the file a call is its kind (1 byte), id (4), area or number of tries (4), amount (8, two's complement), the length of
// its book (2), and the book. File `reductions`: for each are printed a line of its place, its number, MWh, worth, target, short and over;
// a line of what stands of every trade of the book afterwards; and a line of id and positions for each user. In the file a reduction is an
// id (4 bytes), the length of its book (2), and the book; where the length is 0, it is made on the book that the one before it left. The
// operator makes all of them, but for what a party is told (told.rt). A file that does not open is named on standard error, and the
// next one follows. A read or a write that fails ends the program with its error.
#![tactic(auto)]

mod lists;
mod numbers;
mod told;

ghost use Rattle.std.specs.Prelude.{◌≤◌, max};

use book_records::User;
use book_tables::Book;
use call_answers::Run;
use call_rights::Party;
use refusals::Refusal;
use std::io;
use std::io::Write;

// The number of an answer, 0 where the call is carried out, and its fields, which are 0 where it is refused.
fn print_answer<const N: usize>(
    out: &mut impl Write,
    answer: Result<[u64; N], Refusal>,
) -> io::Result<()> {
    let (number, fields) = match answer {
        Ok(fields) => (0, fields),
        Err(refusal) => (refusal.number(), [0; N]),
    };
    day_print::number(out, number as u64)?;
    for field in &fields {
        day_print::number(out, *field)?;
    }
    Ok(())
}

// The answer of a run that is given no log, so that no log is full.
fn print_run(out: &mut impl Write, run: Result<Run, Refusal>) -> io::Result<()> {
    let fields = run.map(|run| {
        let totals = run.totals;
        [totals.reductions, totals.mwh.0, totals.worth.0]
    });
    print_answer(out, fields)
}

// The places of the marked trades.
fn print_marks(out: &mut impl Write, marks: &[bool; 256]) -> io::Result<()> {
    for (i, marked) in marks.iter().enumerate() {
        if *marked {
            day_print::number(out, i as u64)?;
        }
    }
    Ok(())
}

// A whole cancellation: its answer, and the places of the marked trades.
fn print_cancellation(out: &mut impl Write, book: &[u8], id: u32, tries: u32) -> io::Result<()> {
    match daybook::cancellation(book, Party::Operator, None, id, tries) {
        Ok(found) => {
            let fields = [found.excess.0, found.tries as u64, found.complete as u64];
            print_answer(out, Ok(fields))?;
            print_marks(out, &found.marks)
        }
        Err(refusal) => print_answer::<3>(out, Err(refusal)),
    }
}

// The record of a user, nothing where there is none.
fn print_record(out: &mut impl Write, book: &[u8], id: u32) -> io::Result<()> {
    match daybook::show(book, Party::Operator, None, id) {
        Ok(part) => numbers::print_bytes(out, part),
        Err(_) => numbers::print_bytes(out, b""),
    }
}

// What a call of the file is, by its code there.
#[derive(Clone, Copy)]
enum Kind {
    Posting,
    MorningLevel,
    AfternoonLevel,
    Warning,
    MorningCall,
    AfternoonCall,
    Run,
    Cancellation,
    Told,
}

impl From<u8> for Kind {
    fn from(code: u8) -> Kind {
        match code {
            1 => Kind::MorningLevel,
            2 => Kind::AfternoonLevel,
            3 => Kind::Warning,
            4 => Kind::MorningCall,
            5 => Kind::AfternoonCall,
            6 => Kind::Run,
            7 => Kind::Cancellation,
            8 => Kind::Told,
            _ => Kind::Posting,
        }
    }
}

// A call: one that may change the book prints the user's record, too. The number of tries of a whole cancellation stands in the place of
// the area, and the party that is told in that of the amount.
fn call(
    out: &mut impl Write,
    kind: Kind,
    book: &mut [u8],
    id: u32,
    area: u32,
    bits: u64,
) -> io::Result<()> {
    let party = Party::Operator;
    let mut log = [0u8; 1];
    match kind {
        Kind::Told => return told::tell(out, book, Party::from(bits), id),
        Kind::Cancellation => return print_cancellation(out, book, id, area),
        Kind::MorningLevel => {
            let level = daybook::morning_level(book, party, None, id);
            return print_answer(out, level.map(|level| [level.0]));
        }
        Kind::AfternoonLevel => {
            let level = daybook::afternoon_level(book, party, None, id);
            return print_answer(out, level.map(|level| [level.0]));
        }
        Kind::Warning => {
            let warned = daybook::warning(book, party, None, id);
            return print_answer(out, warned.map(|warned| [warned as u64]));
        }
        Kind::MorningCall => {
            let call = daybook::morning_call(book, party, None, false, &mut log, id);
            print_answer(out, call.map(|call| [call.level.0, call.added.0]))?;
        }
        Kind::AfternoonCall => {
            let call = daybook::afternoon_call(book, party, None, false, &mut log, id);
            print_answer(out, call.map(|call| [call.level.0, call.added.0]))?;
        }
        Kind::Run => print_run(out, daybook::run(book, party, None, false, &mut log))?,
        Kind::Posting => {
            let amount = numbers::amount_of(bits);
            let posted = daybook::posting(book, party, None, false, &mut log, id, area, amount);
            print_answer(out, posted.map(|_| []))?;
        }
    }
    print_record(out, book, id)
}

// The call at a place of the file, as a line.
fn make(
    out: &mut impl Write,
    place: u64,
    code: u8,
    book: &mut [u8],
    id: u32,
    area: u32,
    bits: u64,
) -> io::Result<()> {
    write!(out, "{place}")?;
    day_print::number(out, code as u64)?;
    call(out, Kind::from(code), book, id, area, bits)?;
    out.write_all(b"\n")
}

// Makes every call of the file `calls`, up to the last that is whole.
fn make_calls(out: &mut impl Write, file: &mut [u8]) -> io::Result<()> {
    let mut at = 0;
    let mut place = 0;
    // From call to call, each as long as the length of its book says.
    while 19 <= file.len() - at {
        let kind = fields::get_u8(file, at);
        let id = fields::get_u32(file, at + 1);
        let area = fields::get_u32(file, at + 5);
        let bits = fields::get_u64(file, at + 9);
        let len = fields::get_u16(file, at + 17) as usize;
        let start = at + 19;
        if file.len() - start < len {
            return Ok(());
        }
        let end = start + len;
        make(out, place, kind, &mut file[start..end], id, area, bits)?;
        at = end;
        place += 1;
    }
    Ok(())
}

// What stands of every trade, in a line.
fn print_standing(out: &mut impl Write, b: &Book) -> io::Result<()>
    requires { b.now.trade_count ≤ 256 }
{
    out.write_all(b"standing")?;
    for trade in &b.trades[..b.trade_count as usize] {
        day_print::number(out, trade.standing.0 as u64)?;
    }
    out.write_all(b"\n")
}

// The id and the positions of a user, in a line.
fn print_user(out: &mut impl Write, user: &User) -> io::Result<()> {
    let id = user.id;
    write!(out, "{id}")?;
    day_print::nets(out, user.position)?;
    out.write_all(b"\n")
}

// Every user.
fn print_users(out: &mut impl Write, b: &Book) -> io::Result<()>
    requires { b.now.user_count ≤ 64 }
{
    for user in &b.users[..b.user_count as usize] {
        print_user(out, &user.user)?;
    }
    Ok(())
}

// The trades and the users of a book in bytes; none where it is refused.
fn print_book(out: &mut impl Write, bytes: &[u8]) -> io::Result<()> {
    match book_value::open(bytes) {
        Ok(b) => {
            print_standing(out, &b)?;
            print_users(out, &b)
        }
        Err(_) => out.write_all(b"standing\n"),
    }
}

// The reduction at a place of the file.
fn reduce(out: &mut impl Write, place: u64, id: u32, book: &mut [u8]) -> io::Result<()> {
    write!(out, "{place}")?;
    let mut log = [0u8; 1];
    let reduced = daybook::reduction(book, Party::Operator, None, false, &mut log, id);
    let fields = reduced.map(|cut| [
        cut.mwh.0,
        cut.worth.0,
        cut.target.0,
        cut.short.0,
        cut.over.0,
    ]);
    print_answer(out, fields)?;
    out.write_all(b"\n")?;
    print_book(out, book)
}

// Where a book stands in the file.
#[derive(Clone, Copy)]
struct Part {
    start: usize,
    end: usize,
}

// The part of a reduction: that from `start` to `end`, or that of the one before where it is empty.
fn part_of(start: usize, end: usize, last: Part) -> Part
    requires { (start ≤ end) × (last.start ≤ last.end) }
    ensures { (result.start ≤ result.end) × (result.end ≤ max end last.end) }
{
    if start == end {
        return last;
    }
    Part { start, end }
}

// Makes every reduction of the file `reductions`, up to the last that is whole.
fn make_reductions(out: &mut impl Write, file: &mut [u8]) -> io::Result<()> {
    let mut at = 0;
    let mut place = 0;
    let mut part = Part { start: 0, end: 0 };
    // From reduction to reduction, each as long as the length of its book says.
    while 6 <= file.len() - at {
        let id = fields::get_u32(file, at);
        let len = fields::get_u16(file, at + 4) as usize;
        let own = at + 6;
        if file.len() - own < len {
            return Ok(());
        }
        at = own + len;
        part = part_of(own, at, part);
        reduce(out, place, id, &mut file[part.start..part.end])?;
        place += 1;
    }
    Ok(())
}

fn main(rt: HostRuntime) -> io::Result<()> {
    let mut out = io::writer(&rt);
    let mut file = [0u8; 65536];
    let n = day_print::read_file(&rt, "calls", &mut file)?;
    make_calls(&mut out, &mut file[..n])?;
    let n = day_print::read_file(&rt, "reductions", &mut file)?;
    make_reductions(&mut out, &mut file[..n])?;
    let n = day_print::read_file(&rt, "lists", &mut file)?;
    lists::make_lists(&mut out, &mut file[..n])
}
