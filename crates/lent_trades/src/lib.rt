// The trades of a tier are a list of records, cut where they are: the list is lent by `&mut`, and what stands of each trade is lowered by
// its cut.
#![tactic(auto)]

ghost use Rattle.std.specs.Prelude.{◌≡◌, ◌-◌, get_or};
ghost use Rattle.lent_trades.specs.Lowering.{LoweredBy};

use book_records::Trade;
use units::{Energy, Mwh};

// What stands after the cut at a place. Past the cuts nothing is cut, and of no trade more is cut than stands.
pub fn left_of(cuts: &[u64], i: usize, standing: u32) -> u32
    ensures { result ≡ standing - get_or cuts.now i 0 }
{
    match cuts.get(i) {
        Some(cut) => Mwh(standing).less(Energy(*cut)).0,
        None => standing,
    }
}

// Each trade of the list is lowered by its own cut, where it is; trades past the cuts stay as they are. The index serves `left_of`, the
// core on numbers.
pub fn lower_all(trades: &mut [Trade], cuts: &[u64])
    ensures { LoweredBy cuts.now trades.old trades.new }
{
    for i in 0..trades.len().min(cuts.len()) {
        trades[i].standing.0 = left_of(cuts, i, trades[i].standing.0);
    }
}

// An array of trades by value is lent to `lower_all`.
pub fn cut_all<const N: usize>(mut trades: [Trade; N], cuts: &[u64]) -> [Trade; N]
    ensures { LoweredBy cuts.now trades.entry result }
{
    lower_all(&mut trades, cuts);
    trades
}
