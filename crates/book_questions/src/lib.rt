// The questions 1 to 7, asked of any bytes: the first that is answered by no refuses them; where there is none, the places of the trades'
// parties are listed. One walk over the trades serves the questions 6 and 7, and tells for every user what was sold and bought in the three
// areas, for d and for d+1.
#![tactic(auto)]

ghost use Rattle.std.specs.Prelude.{◌≡◌, ◌&&◌, ◌+◌, ◌*◌, ◌≤◌, ◌<◌, get_or, is_ok, length, take, replicate};
ghost use Rattle.refusals.specs.Refusal.{number_in};
ghost use Rattle.base.specs.Lists.{all};
ghost use Rattle.rules.specs.Book.{nobody};
ghost use Rattle.rules.specs.Questions.{managers_are_valid, users_are_valid};
ghost use Rattle.book_format.specs.Book.{size_of_user, users_of, trades_of, count_of_trades};
ghost use Rattle.book_format.specs.Questions.{Formed, book_number};
ghost use Rattle.book_parties.specs.Ids.{users_from, trades_from, Padded, Guesses};
ghost use Rattle.book_questions.specs.Asked.{manager_given, managers_given, GroupsIn, GroupsAsked, UsersAsked};
ghost use Rattle.book_questions.specs.Zeros.{user_zeros_in, trade_zeros_in};
ghost use Rattle.book_questions.specs.Asked.{leading, trade_among, TradesAsked, RecordsIn, RecordsAsked};
ghost use Rattle.book_questions.specs.Asked.{FieldsPlaced, AskedOf, Summed};
ghost use Rattle.book_questions.specs.Refused.{number_asked, passed_of, read_of};

use refusals::Refusal;

// The refusal of a book, and how many of its trades were read: none where a question before 6 refuses, else those before the first that is
// not valid, or all of them where each is. Of a book that no question refuses all were read.
#[derive(Clone, Copy, Debug, PartialEq, Eq)]
pub struct Refused {
    pub refusal: Refusal,
    pub read: usize,
}

// A refusal before any trade was read.
impl From<Refusal> for Refused {
    ghost from_gives = { λ refusal r. r ≡ record { refusal = refusal; read = 0 } };

    fn from(refusal: Refusal) -> Refused {
        Refused { refusal, read: 0 }
    }
}

impl From<Refused> for Refusal {
    ghost from_gives = { λ r refusal. refusal ≡ r.refusal };

    fn from(refused: Refused) -> Refusal {
        refused.refusal
    }
}

// ---- 5

// Do the ids of the n users, in records of a size, that bytes begin with rise from above 0, is every field valid, positions and managers
// apart, and are the zero bytes 0? Their ids are listed where it is so. A role is asked with the zero bytes behind it, as one number.
fn fields_valid(s: &[u8], size: usize, n: usize, ids: &mut [u32]) -> bool
    requires { (n ≤ 64) × (56 ≤ size) × (size * n ≤ length s.now) × (ids.old ≡ replicate 64 4294967295) }
    ensures { UsersAsked (users_from size 0 n s.now) (user_zeros_in size 0 n s.now && users_are_valid (users_from size 0 n s.now)) n result ids.new }
{
    let mut last = 0;
    for i in 0..n {
        let a = size * i;
        let u = book_records::read_user(&s[a..a + book_records::USER_SIZE]);
        if u.id <= last {
            return false;
        }
        let role = fields::get_u32(s, a + 4);
        if !((role < 2) & book_valid::user_valid(u)) {
            return false;
        }
        last = u.id;
        ids[i] = last;
    }
    true
}

// Is the manager in an area of the user at a place 0, or a shipper of the book other than the user, which is one too, and managed by nobody
// there? The n users that bytes begin with have these ids.
fn manager_valid(
    s: &[u8],
    n: usize,
    ids: &[u32],
    guesses: &[u8; 1024],
    place: usize,
    area: usize,
) -> bool
    requires { GroupsIn s.now n ids.now guesses.now × (place < n) × (area < 3) }
    ensures { result ≡ manager_given (users_from 68 0 n s.now) area (get_or (users_from 68 0 n s.now) place nobody) }
{
    let at = book_records::MANAGED_SIZE * place;
    let field = book_records::MANAGERS + 4 * area;
    let id = fields::get_u32(s, at + field);
    if id == 0 {
        return true;
    }
    let Some(manager) = book_parties::find(ids, guesses, n, id) else {
        return false;
    };
    let there = book_records::MANAGED_SIZE * manager;
    let own = fields::get_u32(s, at);
    let role = fields::get_u8(s, at + book_records::ROLE);
    let manager_role = fields::get_u8(s, there + book_records::ROLE);
    let managed = fields::get_u32(s, there + field);
    (id != own) & (((role == 0) & (manager_role == 0)) & (managed == 0))
}

// Are the managers in an area of the n users valid that bytes begin with, and that have these ids? One area after the other: so the test of
// a manager has one call, and becomes a part of the loop.
fn area_valid(s: &[u8], n: usize, ids: &[u32], guesses: &[u8; 1024], area: usize) -> bool
    requires { GroupsIn s.now n ids.now guesses.now × (area < 3) }
    ensures { result ≡ all (manager_given (users_from 68 0 n s.now) area) (users_from 68 0 n s.now) }
{
    for i in 0..n {
        if !manager_valid(s, n, ids, guesses, i, area) {
            return false;
        }
    }
    true
}

// The same in every area.
fn managers_valid(s: &[u8], n: usize, ids: &[u32], guesses: &[u8; 1024]) -> bool
    requires { GroupsIn s.now n ids.now guesses.now }
    ensures { result ≡ all (managers_given (users_from 68 0 n s.now)) (users_from 68 0 n s.now) }
{
    let pvb = area_valid(s, n, ids, guesses, 0);
    let tvb = area_valid(s, n, ids, guesses, 1);
    let avb = area_valid(s, n, ids, guesses, 2);
    pvb & (tvb & avb)
}

// The same in a version: one without managers has none that are not valid.
fn groups_valid(s: &[u8], version: u16, n: usize, ids: &[u32], guesses: &[u8; 1024]) -> bool
    requires { GroupsAsked s.now version n ids.now guesses.now }
    ensures { result ≡ all (managers_are_valid version (users_from (size_of_user version) 0 n s.now)) (users_from (size_of_user version) 0 n s.now) }
{
    !book_format::has_managers(version) || managers_valid(s, n, ids, guesses)
}

// ---- 6

// How many of the m trades from `at` on come before one that is not valid between users of the first n ids: m where all are valid.
// A walk of its own, for speed: the walk of `valid_trades` then has one way to end at each trade.
fn leading_trades(
    ids: &[u32],
    guesses: &[u8; 1024],
    n: usize,
    s: &[u8],
    at: usize,
    m: usize,
) -> usize
    requires padded { Padded ids.now n × Guesses guesses.now n }
    requires m_bound { (m ≤ 256) × (at + 20 * m ≤ length s.now) }
    ensures { result ≡ leading (trade_among (take n ids.now)) (trades_from at m s.now) }
{
    for i in 0..m {
        let a = at + book_records::TRADE_SIZE * i;
        let t = book_records::read_trade(&s[a..a + book_records::TRADE_SIZE]);
        let seller = book_parties::find(ids, guesses, n, t.seller);
        let buyer = book_parties::find(ids, guesses, n, t.buyer);
        if !book_valid::trade_valid(seller.is_some(), buyer.is_some(), t) {
            return i;
        }
    }
    m
}

// Are the m trades from `at` on valid between users of the first n ids, and their zero bytes 0? Where it is so, the places of their parties
// are listed, and what stands is summed at each. Whether a party is known is asked only where its guess was wrong; and the walk ends at a
// zero byte that is not 0: how many trades come before one that is not valid, which is the error, is then counted apart.
fn valid_trades(
    ids: &[u32],
    guesses: &[u8; 1024],
    n: usize,
    s: &[u8],
    at: usize,
    m: usize,
    sellers: &mut [u8],
    buyers: &mut [u8],
    sums: &mut [u32; 768],
) -> Result<(), usize>
    requires padded { Padded ids.now n × Guesses guesses.now n }
    requires m_bound { (m ≤ 256) × (at + 20 * m ≤ length s.now) × (length sellers.old ≡ 256) × (length buyers.old ≡ 256) × (sums.old ≡ replicate 768 0) }
    ensures { TradesAsked (take n ids.now) (trades_from at m s.now) (trade_zeros_in at m s.now) (is_ok result) (passed_of m result) sellers.new buyers.new sums.new }
{
    for i in 0..m {
        let a = at + book_records::TRADE_SIZE * i;
        let t = book_records::read_trade(&s[a..a + book_records::TRADE_SIZE]);
        let Some(seller) = book_parties::find(ids, guesses, n, t.seller) else {
            return Err(i);
        };
        let Some(buyer) = book_parties::find(ids, guesses, n, t.buyer) else {
            return Err(i);
        };
        if !book_valid::trade_valid(true, true, t) {
            return Err(i);
        }
        let zero = fields::get_u8(s, a + 11);
        if zero != 0 {
            let read = leading_trades(ids, guesses, n, s, at, m);
            return Err(read);
        }
        sellers[i] = seller as u8;
        buyers[i] = buyer as u8;
        book_sums::add_trade(sums, seller, 0, t);
        book_sums::add_trade(sums, buyer, 1, t);
    }
    Ok(())
}

// ---- 5 to 7

// Asks the questions 5 to 7 of the n users, in records of a version's size, that bytes begin with and of the m trades from an offset. The
// places of the trades' parties are listed where they fail none, and the sums of the users told where they fail none before 7. The bytes
// begin with the users, whatever stands before them in a book: so the walks have one offset less to keep.
fn ask_records(
    s: &[u8],
    version: u16,
    size: usize,
    n: usize,
    trades_at: usize,
    m: usize,
    sellers: &mut [u8],
    buyers: &mut [u8],
    sums: &mut [u32; 768],
) -> Result<usize, Refused>
    requires records_in { RecordsIn size 0 n trades_at m s.now × (size ≡ size_of_user version) }
    requires sellers_len { (length sellers.old ≡ 256) × (length buyers.old ≡ 256) × (sums.old ≡ replicate 768 0) }
    ensures records_asked { RecordsAsked version (user_zeros_in size 0 n s.now) (trade_zeros_in trades_at m s.now) (users_from size 0 n s.now) (trades_from trades_at m s.now) (number_asked result) sellers.new buyers.new }
    ensures summed { Summed (users_from size 0 n s.now) (trades_from trades_at m s.now) m (number_asked result) (read_of result) sums.new }
{
    let mut ids = [0xffff_ffffu32; 64];
    if !fields_valid(s, size, n, &mut ids) {
        return Err(Refused::from(Refusal::InvalidUser));
    }
    let mut guesses = [0u8; 1024];
    book_parties::fill_guesses(&ids, n, &mut guesses);
    if !groups_valid(s, version, n, &ids, &guesses) {
        return Err(Refused::from(Refusal::InvalidUser));
    }
    if let Err(read) = valid_trades(&ids, &guesses, n, s, trades_at, m, sellers, buyers, sums) {
        return Err(Refused {
            refusal: Refusal::InvalidTrade,
            read,
        });
    }
    if !book_sums::positions_valid(s, 0, size, n, sums) {
        return Err(Refused {
            refusal: Refusal::WrongPosition,
            read: m,
        });
    }
    Ok(m)
}

// ---- all of them

// Asks the questions 4 to 7 of bytes of the right form, and gives the number of trades that were read.
pub fn ask_fields(
    s: &[u8],
    sellers: &mut [u8],
    buyers: &mut [u8],
    sums: &mut [u32; 768],
) -> Result<usize, Refused>
    requires { Formed s.now × (length sellers.old ≡ 256) × (length buyers.old ≡ 256) × (sums.old ≡ replicate 768 0) }
    ensures fields_placed { FieldsPlaced s.now (number_asked result) sellers.new buyers.new }
    ensures summed { Summed (users_of s.now) (trades_of s.now) (count_of_trades s.now) (number_asked result) (read_of result) sums.new }
{
    let n = book_format::user_count(s) as usize;
    let m = book_format::trade_count(s) as usize;
    let prices = book_header::read_prices(s);
    let version = book_format::version(s);
    if !book_header::header_valid(version, fields::get_u32(s, book_records::DATE), prices) {
        return Err(Refused::from(Refusal::InvalidHeader));
    }
    let size = book_format::user_size(version);
    let users_at = book_format::users_offset(s);
    let trades_at = book_format::trades_offset(s, n);
    ask_records(
        &s[users_at..],
        version,
        size,
        n,
        trades_at - users_at,
        m,
        sellers,
        buyers,
        sums,
    )
}

// Asks the questions 1 to 7 of any bytes: the first that is answered by no refuses them; where there is none, the number of trades that
// were read is given, and the places of their parties are listed; and of bytes that pass the questions 1 to 6, whose trades were all read,
// the twelve sums of every user.
pub fn ask(
    s: &[u8],
    sellers: &mut [u8],
    buyers: &mut [u8],
    sums: &mut [u32; 768],
) -> Result<usize, Refused>
    requires { (length sellers.old ≡ 256) × (length buyers.old ≡ 256) × (sums.old ≡ replicate 768 0) }
    ensures asked_of { AskedOf s.now (number_asked result) sellers.new buyers.new }
    ensures summed { Summed (users_of s.now) (trades_of s.now) (count_of_trades s.now) (number_asked result) (read_of result) sums.new }
{
    book_header::ask_form(s)?;
    ask_fields(s, sellers, buyers, sums)
}

// ---- without the sums

// Asks the questions 4 to 7 of bytes of the right form: where none refuses, the places of the trades' parties are listed.
pub fn check_fields(s: &[u8], sellers: &mut [u8], buyers: &mut [u8]) -> Result<(), Refusal>
    requires { Formed s.now × (length sellers.old ≡ 256) × (length buyers.old ≡ 256) }
    ensures { FieldsPlaced s.now (number_in result) sellers.new buyers.new }
{
    let mut sums = [0u32; 768];
    ask_fields(s, sellers, buyers, &mut sums)?;
    Ok(())
}

// Asks the questions 1 to 7 of any bytes.
pub fn check(s: &[u8]) -> Result<(), Refusal>
    ensures { number_in result ≡ book_number s.now }
{
    let mut sellers = [0u8; 256];
    let mut buyers = [0u8; 256];
    let mut sums = [0u32; 768];
    ask(s, &mut sellers, &mut buyers, &mut sums)?;
    Ok(())
}
