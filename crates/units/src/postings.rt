// A posting to a physical entry: the energy that a signed amount brings in or takes out, and the entry after it.
ghost use Rattle.std.specs.Prelude.{◌≡◌, true, false, MatchOption, ◌≤◌, ◌<◌, ◌^◌, ◌+ℤ◌};
ghost use Rattle.base.specs.Parts.{pos_part, neg_part};
ghost use Rattle.rules.specs.Signed.{within};
ghost use Rattle.units.specs.Amounts.{net};

use crate::{Energy, Net};

// The energy that a signed amount brings in, and the energy that it takes out: one of the two is 0.
#[derive(Clone, Copy)]
pub struct Flow {
    pub inflow: Energy,
    pub outflow: Energy,
}

impl Flow {
    // The flow of a signed amount, in MWh.
    pub fn of(amount: i64) -> Flow
        ensures inflow_value { (result.inflow.0 ≡ pos_part amount) × (result.outflow.0 ≡ neg_part amount) }
        ensures inflow_bound { (result.inflow.0 < 2 ^ 63) × (result.outflow.0 ≤ 2 ^ 63) }
    {
        let size = Energy(amount.unsigned_abs());
        if amount < 0 {
            Flow {
                inflow: Energy(0),
                outflow: size,
            }
        } else {
            Flow {
                inflow: size,
                outflow: Energy(0),
            }
        }
    }
}

impl Net {
    // This physical entry after a signed amount is posted to it; none where the sum is outside the range of an entry.
    pub fn posted(self, amount: i64) -> Option<Net>
        ensures { MatchOption result (within 1000000 (net self +ℤ amount) ≡ false)
            (λ entry. (within 1000000 (net self +ℤ amount) ≡ true) × (net entry ≡ net self +ℤ amount)) }
    {
        let flow = Flow::of(amount);
        let above = self.0 as u64 + flow.inflow.0;
        let below = Net::OFFSET as u64 + flow.outflow.0;
        if above + 1000000 < below || below + 1000000 < above {
            None
        } else {
            Some(Net((above - flow.outflow.0) as u32))
        }
    }
}
