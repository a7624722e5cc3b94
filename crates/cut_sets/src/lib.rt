// Document 02, ask 8: "a set of whole eligible trades .. whose worth at tariff is at least the target T", searched among the worths of the
// eligible trades in book order. "sets are tried counting down from all trades to the empty set": the sets left out then count up from 0,
// so that try k + 1 leaves out the set k, the last trade being its lowest bit. With at most 65,535 tries only the last 16 trades are ever
// left out. The worth of a set left out is read off two tables, of its high and its low eight bits, with one sum for each try; the high
// bits change only with every 256th try.
#![tactic(auto)]

ghost use Rattle.std.specs.Prelude.{◌≡◌, ◌^◌, ◌≤◌, ◌<◌, min, take, MatchOption};
ghost use Rattle.base.specs.Sums.{sum};
ghost use Rattle.cut_sets.specs.Sets.{worth_of_set, last_worth};
ghost use Rattle.cut_sets.specs.Found.{Given, Sought, TableRoom, Table, Told, Answered, smaller};
ghost use Rattle.cut_sets.specs.Counting.{Block, FirstBetter, Passed};

// What a search found: the excess over the target, the tries made, whether it is complete, and the trades left out, as a binary number.
#[derive(Clone, Copy, Debug, PartialEq, Eq)]
pub struct Found {
    pub excess: u64,
    pub tries: u32,
    pub complete: bool,
    pub left: usize,
}

// The first tried set with the smallest excess so far, by the trades that it leaves out, with their worth, and the number of tries made.
#[derive(Clone, Copy, Debug, PartialEq, Eq)]
struct Best {
    left: usize,
    out: u64,
    made: usize,
}

impl Best {
    // "It says complete exactly when the excess is 0 or every set was tried".
    fn found(self, spare: u64, sets: usize) -> Found
        requires { (self.made < 65536) × (self.out ≤ spare) }
        ensures { Told spare sets self result }
    {
        Found {
            excess: spare - self.out,
            tries: self.made as u32,
            complete: (self.out == spare) | (self.made == sets),
            left: self.left,
        }
    }
}

// The number of sets of n trades, or 65,536, more than can be tried.
fn sets_of(n: usize) -> usize
    ensures { result ≡ min (2 ^ n) 65536 }
{
    1 << n.min(16)
}

// The worth of the last trade of a set, by its lowest bit.
fn last_of(set: usize, worth: u64) -> u64
    ensures { result ≡ last_worth set worth }
{
    if set % 2 == 0 { 0 } else { worth }
}

// The worth of all n trades.
pub fn total(worths: &[u64; 256], n: usize) -> u64
    requires { Given n worths.now }
    ensures { (result ≡ sum (λ w. w) (take n worths.now)) × (result ≤ 2560000000000) }
{
    worths[..n].iter().sum()
}

// The worth of a set of the n trades: from the last trade, bit by bit.
fn worth_of(worths: &[u64; 256], n: usize, set: usize) -> u64
    requires { Given n worths.now × (set < 2 ^ n) }
    ensures { result ≡ worth_of_set (take n worths.now) set }
{
    let mut sum = 0;
    let mut rest = set;
    let mut i = n;
    // Ends with the highest bit of the set, not after n trades.
    while 0 < rest {
        i -= 1;
        sum += last_of(rest, worths[i]);
        rest /= 2;
    }
    sum
}

// The worths of the first sets 0, step, 2 × step and so on.
fn table(worths: &[u64; 256], n: usize, step: usize, count: usize) -> [u64; 256]
    requires { TableRoom n step count worths.now }
    ensures { Table (worth_of_set (take n worths.now)) step count result }
{
    let mut table = [0; 256];
    for j in 0..count {
        table[j] = worth_of(worths, n, j * step);
    }
    table
}

// Whether a set that leaves out trades of the worth `out` reaches the target with a smaller excess than one that leaves out trades of the
// worth `best`; `spare` is what all trades together are worth above the target.
fn is_better(best: u64, out: u64, spare: u64) -> bool
    ensures { result ≡ smaller spare out best }
{
    (best < out) & (out <= spare)
}

// The first try from a number on, up to another, whose set reaches the target with a smaller excess than one that leaves out trades of the
// worth `best`. The sets have the same high eight bits, whose trades left out are worth `base`.
fn first_better(
    best: u64,
    base: u64,
    low: &[u64; 256],
    from: usize,
    until: usize,
    spare: u64,
) -> Option<usize>
    requires { Block base until low.now from }
    ensures { MatchOption result (FirstBetter best base until spare low.now from until)
        (λ k. FirstBetter best base until spare low.now from k × (k < until)) }
{
    (from..until).find(|&k| is_better(best, base + low[k % 256], spare))
}

// Tries the sets up to a number, all of the same high eight bits, whose trades left out are worth `base`, until an excess of 0 is met.
fn through(mut best: Best, base: u64, low: &[u64; 256], until: usize, spare: u64) -> Best
    requires { Block base until low.now best.made }
    ensures { Passed base until spare low.now best result }
{
    // From one better set to the next: no count.
    while best.made < until {
        if best.out == spare {
            return best;
        }
        let Some(k) = first_better(best.out, base, low, best.made, until, spare) else {
            return Best {
                made: until,
                ..best
            };
        };
        best = Best {
            left: k,
            out: base + low[k % 256],
            made: k + 1,
        };
    }
    best
}

// "The answer is the tried set that reaches T with the smallest excess, the first such"; `together` is what all n trades are worth.
pub fn search(worths: &[u64; 256], n: usize, together: u64, asked: u64, tries: usize) -> Found
    requires { Sought n together asked tries worths.now }
    ensures { Answered (2 ^ n) asked tries (take n worths.now) result }
{
    let spare = together - asked;
    let sets = sets_of(n);
    let limit = tries.min(sets);
    let low = table(worths, n, 1, limit.min(256));
    let blocks = (limit + 255) / 256;
    let high = table(worths, n, 256, blocks);
    let mut best = Best {
        left: 0,
        out: 0,
        made: 1,
    };
    for h in 0..blocks {
        best = through(best, high[h], &low, (256 * h + 256).min(limit), spare);
        if best.out == spare {
            return best.found(spare, sets);
        }
    }
    best.found(spare, sets)
}
