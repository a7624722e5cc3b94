// Sales that lose something, in the bytes of a book: the positions of the seller and the buyer of each move, and the trades are lowered as
// records, in one list, and written back.
#![tactic(auto)]

ghost use Rattle.std.specs.Prelude.{◌≡◌, ◌+◌, ◌*◌, ◌≤◌, ◌<◌, ◌^◌, pos, neg_ℤ, ◌+ℤ◌, length};
ghost use Rattle.book_format.specs.Book.{book_of, trades_at, count_of_users, users_of};
ghost use Rattle.book_parties.specs.Ids.{BookIn};
ghost use Rattle.book_format.specs.Held.{HeldAs};
ghost use Rattle.base.specs.Parts.{pos_part, neg_part};
ghost use Rattle.rules.specs.Changes.{with_users};
ghost use Rattle.rules.specs.Reduction.{with_trades};
ghost use Rattle.rules.specs.Signed.{bits_of, signed_of};
ghost use Rattle.laws_sales.specs.Parts.{part};
ghost use Rattle.laws_sales.specs.Sales.{settled_at};
ghost use Rattle.cut_apply.specs.Positions.{PositionIn, PartiesIn, moved_at, position_of};
ghost use Rattle.cut_apply.specs.Cutting.{Cutting, CuttablePart, MovedBy, SaleCut, SaleIn, losing, lowered_at};

// ---- positions

// The bits of a position in two's complement after it rises by an energy. The sum is taken of the bits as they stand: with a sign in
// between, four stores of a byte do not become one.
fn raised(bits: u32, energy: u32) -> u32
    requires { pos_part (signed_of 32 bits) + energy < 2 ^ 31 }
    ensures { result ≡ bits_of 32 (signed_of 32 bits +ℤ pos energy) }
{
    bits.wrapping_add(energy)
}

// The same after it falls.
fn lowered(bits: u32, energy: u32) -> u32
    requires { neg_part (signed_of 32 bits) + energy ≤ 2 ^ 31 }
    ensures { result ≡ bits_of 32 (signed_of 32 bits +ℤ neg_ℤ (pos energy)) }
{
    bits.wrapping_sub(energy)
}

// Raises the position of the user at a place in an area by an energy.
pub fn raise(book: &mut [u8], place: usize, area: usize, energy: u32)
    requires { PositionIn book.old place area × (pos_part (position_of (users_of book.old) place area) + energy < 2 ^ 31) }
    ensures { HeldAs (with_users (book_of book.old) (moved_at place area (pos energy) (users_of book.old))) book.new }
{
    let at = book_format::position_offset(book, place, area);
    let bits = fields::get_u32(book, at);
    fields::put_u32(book, at, raised(bits, energy));
}

// Lowers it.
pub fn lower(book: &mut [u8], place: usize, area: usize, energy: u32)
    requires { PositionIn book.old place area × (neg_part (position_of (users_of book.old) place area) + energy ≤ 2 ^ 31) }
    ensures { HeldAs (with_users (book_of book.old) (moved_at place area (neg_ℤ (pos energy)) (users_of book.old))) book.new }
{
    let at = book_format::position_offset(book, place, area);
    let bits = fields::get_u32(book, at);
    fields::put_u32(book, at, lowered(bits, energy));
}

// The seller's position rises by a cut in an area, and the buyer's falls.
fn move_parties(book: &mut [u8], seller: usize, buyer: usize, area: usize, energy: u32)
    requires { PartiesIn book.old seller buyer area energy }
    ensures { HeldAs (with_users (book_of book.old) (settled_at seller buyer area energy (users_of book.old))) book.new }
{
    raise(book, seller, area, energy);
    lower(book, buyer, area, energy);
}

// ---- sales

// How many of the cuts, from a place up to another, are not 0.
fn count_losing(cuts: &[u64; 256], from: usize, to: usize) -> usize
    requires { (from ≤ to) × (to ≤ 256) × (to ≤ length cuts.now) }
    ensures { (result ≡ losing (part from to cuts.now)) × (result ≤ 256) }
{
    cuts[from..to].iter().filter(|cut| 0 < **cut).count()
}

// Moves the positions of the parties of a sale by its cut, and notes its place and the cut as the next of those that lose something; gives
// the number of these. A cut of 0 is passed by.
fn cut_sale(
    book: &mut [u8],
    at: usize,
    seller: usize,
    buyer: usize,
    place: usize,
    cut: u64,
    lost: usize,
    places: &mut [u8],
    amounts: &mut [u64],
) -> usize
    requires sale_in { SaleIn book.old at seller buyer place cut }
    requires places_len_bound { (length places.old ≤ 256) × (0 < cut → (lost < length places.old) × (lost < length amounts.old)) }
    ensures { SaleCut book.old seller buyer place cut lost places.old amounts.old book.new places.new amounts.new result }
{
    if 0 < cut {
        let t = book_format::trade_at(book, at, place);
        let area = indices::index(t.area);
        move_parties(book, seller, buyer, area, cut as u32);
        places[lost] = place as u8;
        amounts[lost] = cut;
        return lost + 1;
    }
    lost
}

// Moves the positions of the parties of the sales, from a place up to another, by their cuts, and notes those that lose something, for
// which there is room.
fn move_all(
    book: &mut [u8],
    at: usize,
    sellers: &[u8; 256],
    buyers: &[u8; 256],
    origins: &[u8; 256],
    cuts: &[u64; 256],
    from: usize,
    to: usize,
    places: &mut [u8],
    amounts: &mut [u64],
)
    requires cutting { Cutting book.old sellers.now buyers.now origins.now cuts.now from to (length places.old) × (length amounts.old ≡ length places.old) }
    requires at_value { at ≡ trades_at book.old }
    ensures { MovedBy (book_of book.old) (part from to origins.now) (part from to cuts.now) places.new amounts.new book.new }
{
    let mut lost = 0;
    for k in from..to {
        let place = indices::index(origins[k]);
        let seller = indices::index(sellers[place]);
        let buyer = indices::index(buyers[place]);
        let cut = cuts[k];
        lost = cut_sale(book, at, seller, buyer, place, cut, lost, places, amounts);
    }
}

// Cuts the sales from a place up to another: what stands of each falls by its cut, and the positions of its parties move by it. Those that
// lose something are noted, as many as there is room for, and lowered as records.
fn apply_noting(
    book: &mut [u8],
    n: usize,
    sellers: &[u8; 256],
    buyers: &[u8; 256],
    origins: &[u8; 256],
    cuts: &[u64; 256],
    from: usize,
    to: usize,
    places: &mut [u8],
    amounts: &mut [u64],
)
    requires cutting { Cutting book.old sellers.now buyers.now origins.now cuts.now from to (length places.old) × (length amounts.old ≡ length places.old) }
    requires n_value { n ≡ count_of_users book.old }
    ensures { HeldAs (with_trades (book_of book.old) (lowered_at (part from to origins.now) (part from to cuts.now) (book_of book.old).trades)) book.new }
{
    let at = book_format::trades_offset(book, n);
    move_all(
        book, at, sellers, buyers, origins, cuts, from, to, places, amounts,
    );
    cut_records::lower_sales(book, at, places, amounts);
}

// The same with room for N.
fn apply_lost<const N: usize>(
    book: &mut [u8],
    n: usize,
    sellers: &[u8; 256],
    buyers: &[u8; 256],
    origins: &[u8; 256],
    cuts: &[u64; 256],
    from: usize,
    to: usize,
    lost: usize,
)
    requires cutting { Cutting book.old sellers.now buyers.now origins.now cuts.now from to lost × (lost ≤ N) }
    requires n_value { n ≡ count_of_users book.old }
    requires room { N ≤ 256 }
    ensures { HeldAs (with_trades (book_of book.old) (lowered_at (part from to origins.now) (part from to cuts.now) (book_of book.old).trades)) book.new }
{
    let mut places = [0u8; N];
    let mut amounts = [0u64; N];
    apply_noting(
        book,
        n,
        sellers,
        buyers,
        origins,
        cuts,
        from,
        to,
        &mut places[..lost],
        &mut amounts[..lost],
    );
}

// Cuts the sales from a place up to another. Mostly few lose something, and room for 256 would take longer to clear than they to cut.
pub fn apply(
    book: &mut [u8],
    n: usize,
    sellers: &[u8; 256],
    buyers: &[u8; 256],
    origins: &[u8; 256],
    cuts: &[u64; 256],
    from: usize,
    to: usize,
)
    requires book_in { BookIn book.old sellers.now buyers.now × CuttablePart (book_of book.old).trades origins.now cuts.now from to }
    requires n_value { n ≡ count_of_users book.old }
    ensures { HeldAs (with_trades (book_of book.old) (lowered_at (part from to origins.now) (part from to cuts.now) (book_of book.old).trades)) book.new }
{
    let lost = count_losing(cuts, from, to);
    if lost <= 32 {
        apply_lost::<32>(book, n, sellers, buyers, origins, cuts, from, to, lost);
    } else {
        apply_lost::<256>(book, n, sellers, buyers, origins, cuts, from, to, lost);
    }
}
