// Question 26, after those of the book: may the acting party have what it asks for?
#![tactic(auto)]

ghost use Rattle.std.specs.Prelude.{◌≡◌, IsOk};
ghost use Rattle.book_format.specs.Book.{book_of};
ghost use Rattle.book_format.specs.Questions.{book_number};
ghost use Rattle.refusals.specs.Refusal.{number_in};
ghost use Rattle.rights.specs.Party.{party_of, is_shipper_in};
ghost use Rattle.rights.specs.Acting.{entering_number};
ghost use Rattle.call_rights.specs.Acting.{as_party, as_matter};

use refusals::Refusal;

// The number of the operator where a party is a number: one that no id reaches.
pub const OPERATOR: u64 = 4294967296;

// Who makes a call: the operator, or a shipper by its id. The id may be any number: one that is no shipper's in the book may do nothing.
#[derive(Clone, Copy, Debug, PartialEq, Eq)]
pub enum Party {
    Operator,
    Shipper(u64),
}

// A party by its number, as C passes it.
impl From<u64> for Party {
    ghost from_gives = { λ number party. as_party party ≡ party_of number };

    fn from(number: u64) -> Party {
        if number == OPERATOR {
            Party::Operator
        } else {
            Party::Shipper(number)
        }
    }
}

// Whose a matter is: the operator's, or an id's own.
#[derive(Clone, Copy, Debug, PartialEq, Eq)]
pub enum Matter {
    Operators,
    Own(u32),
}

// Is the id that of a shipper in the book?
fn is_shipper(book: &[u8], id: u32) -> bool
    requires { book_number book.now ≡ 0 }
    ensures { result ≡ is_shipper_in (book_of book.now) id }
{
    let place = call_entry::place_of(book, id);
    let n = book_format::user_count(book) as usize;
    if n <= place {
        return false;
    }
    let user = book_format::user_at(book, place);
    user.role == 0
}

// Question 26, after those of the book: may the party have what is the operator's, or an id's own?
pub fn ask(
    book: &[u8],
    asked: Result<(), Refusal>,
    party: Party,
    matter: Matter,
) -> Result<(), Refusal>
    requires { number_in asked ≡ book_number book.now }
    ensures value { number_in result ≡ entering_number (as_party party) (as_matter matter) book.now }
    ensures asked_ok { IsOk result → IsOk asked }
{
    asked?;
    match (party, matter) {
        (Party::Operator, _) => Ok(()),
        (Party::Shipper(id), Matter::Own(own)) if id == own as u64 && is_shipper(book, own) => {
            Ok(())
        }
        _ => Err(Refusal::NotPermitted),
    }
}
