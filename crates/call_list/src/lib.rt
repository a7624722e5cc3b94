// A list of postings: up to 512 corrections as columns of ids, areas and signed amounts, and a place beside each line for its number. The
// opening questions are asked once for the whole list; then the lines are posted one after another, each with its own question 8 or 10.
// Columns and places are those of the C interface, and stay slices side by side: a line is read by its index in each.
#![tactic(auto)]

ghost use Rattle.std.specs.Prelude.{◌≡◌, length, replicate, IfOk};
ghost use Rattle.refusals.specs.Refusal.{number_in};
ghost use Rattle.rules.specs.Levels as rules;
ghost use Rattle.rules.specs.Calls.{only};
ghost use Rattle.book_format.specs.Book.{count_of_users, size_of_user, size_of_header, version_of};
ghost use Rattle.book_format.specs.Questions.{book_number};
ghost use Rattle.book_format.specs.After.{CalledAfter};
ghost use Rattle.book_parties.specs.Ids.{Guesses};
ghost use Rattle.call_posting.specs.Posting.{posting_of};
ghost use Rattle.requests.specs.Request.{lines_fit, lines_of};
ghost use Rattle.call_list.specs.Lines.{Even, Known, LinesPosted, ListedAfter};

use refusals::Refusal;
use units::Limits;

// The most lines of a list.
const MOST: usize = 512;

// Question 15: have the columns and the places one count, of at most 512?
pub fn fits(ids: &[u32], areas: &[u32], amounts: &[i64], places: &[u32]) -> bool
    ensures { result ≡ lines_fit (lines_of ids.now areas.now amounts.now (length places.now)) }
{
    let n = ids.len();
    (n <= MOST) & ((areas.len() == n) & ((amounts.len() == n) & (places.len() == n)))
}

// Lists the ids of the n users of a book, whose records, of a size, begin at `at`.
fn fill_ids(book: &[u8], at: usize, size: usize, n: usize, known: &mut [u32])
    requires { (book_number book.now ≡ 0) × (n ≡ count_of_users book.now) × (at ≡ size_of_header (version_of book.now)) × (size ≡ size_of_user (version_of book.now)) × (known.old ≡ replicate 64 4294967295) }
    ensures { Known known.new n at size book.now }
{
    let mut a = at;
    for i in 0..n {
        known[i] = fields::get_u32(book, a);
        a += size;
    }
}

// One line: question 8 or 10 may refuse it. The user is searched among the ids that were listed, with a guess first.
fn line(
    book: &mut [u8],
    known: &[u32],
    guesses: &[u8; 1024],
    n: usize,
    at: usize,
    size: usize,
    id: u32,
    area: u32,
    amount: i64,
) -> Result<(), Refusal>
    requires known { Known known.now n at size book.old }
    requires guesses { Guesses guesses.now n }
    ensures { (limits : rules.Limits) → CalledAfter 0 limits book.old (posting_of id area amount) (only (number_in result)) book.new }
{
    let Some(place) = book_parties::find(known, guesses, n, id) else {
        return Err(Refusal::UnknownUser);
    };
    call_posting::post_at(book, at, size, place, area, amount)
}

// The lines one after another, each on the book that the last one left, and the number of each in its place.
fn post_lines(
    book: &mut [u8],
    known: &[u32],
    guesses: &[u8; 1024],
    n: usize,
    at: usize,
    size: usize,
    ids: &[u32],
    areas: &[u32],
    amounts: &[i64],
    places: &mut [u32],
)
    requires known { Known known.now n at size book.old }
    requires even { Even ids.now areas.now amounts.now places.old }
    requires guesses { Guesses guesses.now n }
    ensures { LinesPosted ids.now areas.now amounts.now book.old book.new places.new }
{
    for i in 0..ids.len() {
        let posted = line(
            book, known, guesses, n, at, size, ids[i], areas[i], amounts[i],
        );
        places[i] = refusals::number_of(posted);
    }
}

// Posts a list after its opening questions: the number of each line is then in its place. Where one of them refuses, nothing is changed.
pub fn list(
    book: &mut [u8],
    opened: Result<Limits, Refusal>,
    ids: &[u32],
    areas: &[u32],
    amounts: &[i64],
    places: &mut [u32],
) -> Result<(), Refusal>
    requires book_value { IfOk opened (λ limits. book_number book.old ≡ 0) }
    requires even { IfOk opened (λ limits. Even ids.now areas.now amounts.now places.old) }
    ensures { ListedAfter (number_in opened) ids.now areas.now amounts.now places.old book.old (number_in result) book.new places.new }
{
    opened?;
    let n = book_format::user_count(book) as usize;
    let at = book_format::users_offset(book);
    let size = book_format::users_size(book);
    let mut known = [0xffff_ffffu32; 64];
    let mut guesses = [0u8; 1024];
    fill_ids(book, at, size, n, &mut known);
    book_parties::fill_guesses(&known, n, &mut guesses);
    post_lines(
        book, &known, &guesses, n, at, size, ids, areas, amounts, places,
    );
    Ok(())
}
