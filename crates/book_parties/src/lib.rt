// Ids and their places: the ids of a book's users, and where an id stands among them.
#![tactic(auto)]

ghost use Rattle.std.specs.Prelude.{◌≡◌, cond, ◌+◌, ◌≤◌, ◌<◌, take, replicate, is_some, unwrap_or};
ghost use Rattle.book_parties.specs.Ids.{Padded, Guesses, FoundIn};

// Where a search goes on: past the half of what is left where the last id of that half is below the one looked for, and else where it was.
// The product has no branch, which a processor would foresee only half of the times.
fn after(low: usize, half: usize, below: bool) -> usize
    requires { low + half ≤ 64 }
    ensures { result ≡ cond below (low + half) low }
{
    low + half * (below as usize)
}

// The index of an id among the first n, which rise, in a list of 64 that is padded with the highest number. A search by halves, and no loop
// that counts: if the id is there at all, it is one of the `count` from `low` on.
pub fn place_of(ids: &[u32], n: usize, id: u32) -> Option<usize>
    requires { Padded ids.now n }
    ensures { FoundIn (take n ids.now) n id (unwrap_or result n) (is_some result) }
{
    let mut low = 0;
    let mut count: usize = 64;
    while 1 < count {
        let half = count / 2;
        low = after(low, half, ids[low + half - 1] < id);
        count -= half;
    }
    if (low < n) & (ids[low] == id) {
        Some(low)
    } else {
        None
    }
}

// Where the guess for an id stands in a list of 1,024: the id times a number that spreads ids, the highest ten of its lowest 32 bits.
pub fn slot_of(id: u32) -> usize
    ensures { result < 1024 }
{
    (id as u64 * 2654435769 / 4194304 % 1024) as usize
}

// Fills in a guess for each of the first n ids, of which there is one at least: whichever guess is read, it is the index of one of them.
pub fn fill_guesses(ids: &[u32], n: usize, guesses: &mut [u8; 1024])
    requires { Padded ids.now n × (1 ≤ n) × (guesses.old ≡ replicate 1024 0) }
    ensures { Guesses guesses.new n }
{
    for i in 0..n {
        guesses[slot_of(ids[i])] = i as u8;
    }
}

// The index of an id among the first n: tried first where its guess has it, and else searched. A right guess spares the search, and that it
// is below n need not be tested.
pub fn find(ids: &[u32], guesses: &[u8; 1024], n: usize, id: u32) -> Option<usize>
    requires { Padded ids.now n × Guesses guesses.now n }
    ensures { FoundIn (take n ids.now) n id (unwrap_or result n) (is_some result) }
{
    let at = guesses[slot_of(id)] as usize;
    if ids[at] == id {
        Some(at)
    } else {
        place_of(ids, n, id)
    }
}
