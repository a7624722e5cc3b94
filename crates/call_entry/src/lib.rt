// The common beginning of every call on a user: question 8 after the opening questions, and the user's place in the book.
#![tactic(auto)]

ghost use Rattle.std.specs.Prelude.{◌≡◌, ◌≤◌, ◌∷◌, [], IfOk, Ok};
ghost use Rattle.refusals.specs.Refusal.{number_in};
ghost use Rattle.rules.specs.Calls.{id_known};
ghost use Rattle.rules.specs.Questions.{first_of, refusal};
ghost use Rattle.book_format.specs.Book.{book_of, count_of_users, users_of};
ghost use Rattle.book_format.specs.Questions.{Formed, book_number};
ghost use Rattle.book_format.specs.Steps.{place_of};
ghost use Rattle.call_entry.specs.Entered.{Found};

use refusals::Refusal;
use units::Limits;

// The place of the user of an id in a book; the number of users where there is none.
pub fn place_of(s: &[u8], id: u32) -> usize
    requires { Formed s.now }
    ensures { (result ≡ place_of (users_of s.now) id) × (result ≤ count_of_users s.now) }
{
    let n = book_format::user_count(s) as usize;
    let size = book_format::users_size(s);
    let mut a = book_format::users_offset(s);
    for i in 0..n {
        if fields::get_u32(s, a) == id {
            return i;
        }
        a += size;
    }
    n
}

// The user of a call: the user's place in the book, with the figures that the opening questions gave.
#[derive(Clone, Copy)]
pub struct Entry {
    pub limits: Limits,
    pub place: usize,
}

// Question 8, after the opening questions: what one of them refused stays refused.
pub fn seek(s: &[u8], opened: Result<Limits, Refusal>, id: u32) -> Result<Entry, Refusal>
    requires { IfOk opened (λ limits. book_number s.now ≡ 0) }
    ensures asked { number_in result ≡ first_of (number_in opened) (refusal (id_known (book_of s.now) id ∷ [])) }
    ensures found { IfOk result (λ entry. (opened ≡ Ok entry.limits) × Found s.now id entry.place) }
{
    let limits = opened?;
    let place = place_of(s, id);
    let n = book_format::user_count(s) as usize;
    if n <= place {
        return Err(Refusal::UnknownUser);
    }
    Ok(Entry { limits, place })
}
