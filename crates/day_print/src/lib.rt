// What the programs print, to a writer that they give: numbers, signed energies, and the day of a book; and what they read (input.rt). A
// write that fails ends the printing, and its error is returned; what was written before it stays written.
#![tactic(auto)]

mod input;

ghost use Rattle.std.specs.Prelude.{◌≡◌, IfOk, length, replicate};
ghost use Rattle.refusals.specs.Refusal.{number_in};
ghost use Rattle.book_questions.specs.Opened.{Opened};
ghost use Rattle.store.specs.Asked.{figures_in};
ghost use Rattle.rules.specs.Calls.{call_after};
ghost use Rattle.rules.specs.Levels.{today};
ghost use Rattle.book_format.specs.After.{CalledAfter};
ghost use Rattle.book_format.specs.Questions.{book_number};
ghost use Rattle.book_format.specs.Steps.{in_bytes};
ghost use Rattle.call_answers.specs.Run.{answer_of};
ghost use Rattle.call_run.specs.Call.{run_call};
ghost use Rattle.units.specs.Prices.{as_prices};
ghost use Rattle.units.specs.Limits.{as_limits};
ghost use Rattle.day_print.specs.Lines.{LinesAsked};

use call_answers::Run;
use cut_worth::Totals;
use day_lines::Line;
pub use input::{read_file, read_full};
use refusals::Refusal;
use risk_user::Day;
use std::io;
use std::io::Write;
use units::{Limits, Net};

// A space and a number.
pub fn number(out: &mut impl Write, n: u64) -> io::Result<()> {
    write!(out, " {n}")
}

// The energies of the three areas, a space before each.
pub fn nets(out: &mut impl Write, energies: [Net; 3]) -> io::Result<()> {
    for energy in &energies {
        write!(out, " {energy}")?;
    }
    Ok(())
}

// A line of a printed day.
fn line(out: &mut impl Write, line: Line) -> io::Result<()> {
    let id = line.id;
    let state = line.state;
    let level = line.level.0;
    write!(out, "{id} {state} {level}")?;
    nets(out, line.position)?;
    out.write_all(b"\n")
}

// The line of every user of an accepted book in bytes, in its order; `below_notified` says which of them are, as the risk is borne, party
// to a trade standing below notified.
fn lines_of(
    out: &mut impl Write,
    book: &[u8],
    n: usize,
    sums: &[u32; 768],
    positions: &[u32; 192],
    below_notified: &[bool; 64],
    day: Day,
) -> io::Result<()>
    requires { LinesAsked (as_limits day.limits) (as_prices day.prices) book.now n sums.now positions.now below_notified.now }
{
    for i in 0..n {
        let told = day_lines::line_at(book, sums, positions, i, below_notified[i], day);
        line(out, told)?;
    }
    Ok(())
}

// The lines of an accepted book: its users' sums, positions and cut trades, as their risk is borne, are gathered once for all of them.
fn lines(out: &mut impl Write, book: &[u8]) -> io::Result<()>
    requires { book_number book.now ≡ 0 }
{
    let mut sellers = [0u8; 256];
    let mut buyers = [0u8; 256];
    let mut sums = [0u32; 768];
    // An accepted book passes them again.
    let _ = book_questions::ask(book, &mut sellers, &mut buyers, &mut sums);
    let mut bearing_sellers = [0u8; 256];
    let mut bearing_buyers = [0u8; 256];
    call_parties::bear(
        book,
        &sellers,
        &buyers,
        &mut bearing_sellers,
        &mut bearing_buyers,
        &mut sums,
    );
    let day = Day {
        limits: Limits::today(),
        prices: book_header::read_prices(book),
    };
    let n = book_format::user_count(book) as usize;
    let m = book_format::trade_count(book) as usize;
    let mut positions = [0u32; 192];
    run_positions::fill_positions(book, n, &mut positions);
    let mut below_notified = [false; 64];
    cut_parties::fill_below_notified(
        book,
        n,
        m,
        &bearing_sellers,
        &bearing_buyers,
        &mut below_notified,
    );
    lines_of(out, book, n, &sums, &positions, &below_notified, day)
}

// The line of a run: its reductions, MWh and worth.
fn totals(out: &mut impl Write, totals: Totals) -> io::Result<()> {
    out.write_all(b"run")?;
    number(out, totals.reductions)?;
    number(out, totals.mwh.0)?;
    number(out, totals.worth.0)?;
    out.write_all(b"\n")
}

// Today's figures, after the questions of a book, which tell the places of its trades' parties and the sums of its users.
fn open(
    book: &[u8],
    sellers: &mut [u8],
    buyers: &mut [u8],
    sums: &mut [u32; 768],
) -> Result<Limits, Refusal>
    requires { (length sellers.old ≡ 256) × (length buyers.old ≡ 256) × (sums.old ≡ replicate 768 0) }
    ensures asked { number_in result ≡ book_number book.now }
    ensures figures { figures_in result ≡ today }
    ensures opened { IfOk result (λ limits. Opened (as_limits limits) book.now sellers.new buyers.new sums.new) }
{
    book_questions::ask(book, sellers, buyers, sums)?;
    Ok(Limits::today())
}

// Runs a book in bytes, with today's figures.
fn run(book: &mut [u8]) -> Result<Run, Refusal>
    ensures { CalledAfter (book_number book.old) today book.old run_call (answer_of result) book.new }
{
    let mut sellers = [0u8; 256];
    let mut buyers = [0u8; 256];
    let mut sums = [0u32; 768];
    let opened = open(book, &mut sellers, &mut buyers, &mut sums);
    call_run::run(book, opened, &sellers, &buyers, &mut sums)
}

// Runs a book in bytes and prints its day: the run, and the line of every user in the book that the run leaves; or the number of the
// question that refuses it. The book is run before anything is written: after an error too it is what the run leaves.
pub fn day(out: &mut impl Write, book: &mut [u8]) -> io::Result<()>
    ensures { book.new ≡ (call_after in_bytes (book_number book.old) today book.old run_call).book }
{
    match run(book) {
        Ok(ran) => {
            totals(out, ran.totals)?;
            lines(out, book)
        }
        Err(refusal) => writeln!(out, "{refusal}"),
    }
}
