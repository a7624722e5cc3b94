// The opening questions of a call with its setting: those of its book, 1 to 7, then 26, whether the acting party may have what it asks
// for, and after it those of its store, 16 and 17. Where none of them refuses they give the figures of the call. A list of postings is
// asked 15 after 26. A call that may be given a log, with a flag as in `log_lent`, is asked 19 after them.
#![tactic(auto)]

ghost use Rattle.std.specs.Prelude.{cond, ◌≡◌, length, replicate, IfOk, Ok};
ghost use Rattle.units.specs.Limits.{as_limits, LimitsInRange};
ghost use Rattle.refusals.specs.Refusal.{number_in};
ghost use Rattle.book_format.specs.Questions.{book_number};
ghost use Rattle.book_questions.specs.Opened.{Opened, OpenedFigures};
ghost use Rattle.store.specs.Asked.{figures_in, lent};
ghost use Rattle.rules.specs.Questions.{first_of};
ghost use Rattle.requests.specs.Carried.{Admitted};
ghost use Rattle.requests.specs.Request.{setting_of};
ghost use Rattle.rights.specs.Party.{operators};
ghost use Rattle.rights.specs.Acting.{entering_number};
ghost use Rattle.call_rights.specs.Acting.{as_party, as_matter};
ghost use Rattle.call_admission.specs.Log.{LogAsked};

use call_rights::{Matter, Party};
use refusals::Refusal;
use units::Limits;

// The figures of a call on a book that passes its questions: by the store, on the book's date.
fn by_store(book: &[u8], store: Option<&[u8]>) -> Result<Limits, Refusal>
    requires { book_number book.now ≡ 0 }
    ensures admitted { Admitted 0 (setting_of (lent store.entry)) book.now (number_in result) (figures_in result) }
    ensures limits_in_range { LimitsInRange (figures_in result) }
{
    let date = fields::get_u32(book, book_records::DATE);
    store::figures_on(date, store)
}

// Asks the opening questions of a call that needs no sums, by a party, on a matter that is the operator's or an id's own.
pub fn admit(
    book: &[u8],
    party: Party,
    matter: Matter,
    store: Option<&[u8]>,
) -> Result<Limits, Refusal>
    ensures admitted { Admitted (entering_number (as_party party) (as_matter matter) book.now) (setting_of (lent store.entry)) book.now (number_in result) (figures_in result) }
    ensures limits_in_range { LimitsInRange (figures_in result) }
    ensures opened_figures { IfOk result (λ limits. OpenedFigures (as_limits limits) book.now) }
{
    call_rights::ask(book, book_questions::check(book), party, matter)?;
    by_store(book, store)
}

// Asks the opening questions, and where none is answered by no lists the places of the trades' parties, with the twelve sums of every user.
pub fn admit_with_sums(
    book: &[u8],
    party: Party,
    matter: Matter,
    store: Option<&[u8]>,
    sellers: &mut [u8],
    buyers: &mut [u8],
    sums: &mut [u32; 768],
) -> Result<Limits, Refusal>
    requires { (length sellers.old ≡ 256) × (length buyers.old ≡ 256) × (sums.old ≡ replicate 768 0) }
    ensures admitted { Admitted (entering_number (as_party party) (as_matter matter) book.now) (setting_of (lent store.entry)) book.now (number_in result) (figures_in result) }
    ensures limits_in_range { LimitsInRange (figures_in result) }
    ensures opened { IfOk result (λ limits. Opened (as_limits limits) book.now sellers.new buyers.new sums.new) }
{
    let told = book_questions::ask(book, sellers, buyers, sums);
    let asked = told.map(|_| ()).map_err(|refused| refused.refusal);
    call_rights::ask(book, asked, party, matter)?;
    by_store(book, store)
}

// Asks the opening questions of a list of postings, which is the operator's, given whether it passes question 15.
pub fn admit_list(
    book: &[u8],
    party: Party,
    store: Option<&[u8]>,
    fits: bool,
) -> Result<Limits, Refusal>
    ensures { Admitted (first_of (entering_number (as_party party) operators book.now) (cond fits 0 15)) (setting_of (lent store.entry)) book.now (number_in result) (figures_in result) }
{
    call_rights::ask(book, book_questions::check(book), party, Matter::Operators)?;
    if !fits {
        return Err(Refusal::UnevenList);
    }
    by_store(book, store)
}

// Asks the question of a log that is given, after the opening questions, whose outcome is given and is handed on where the log fits.
pub fn by_log(
    book: &[u8],
    opened: Result<Limits, Refusal>,
    with_log: bool,
    log: &[u8],
) -> Result<Limits, Refusal>
    requires { number_in opened ≡ 0 → book_number book.now ≡ 0 }
    ensures asked { LogAsked (number_in opened) with_log log.now book.now (number_in result) }
    ensures handed_on { IfOk result (λ limits. opened ≡ Ok limits) }
{
    let limits = opened?;
    log_lent::check(book, with_log, log)?;
    Ok(limits)
}
