// Energy, money and prices, each with its own type; signed amounts of energy and money; the prices of a day and the areas that they hold
// in; the limits of the rules. A signed amount is kept as an unsigned number, the amount + an offset, and every contract speaks of the
// integer itself.
#![tactic(auto)]

ghost use Rattle.std.specs.Prelude.{◌≡◌, true, ◌+◌, ◌-◌, ◌*◌, ◌≤◌, ◌<◌, ◌^◌, ltb, pos, ◌+ℤ◌, ◌-ℤ◌};
ghost use Rattle.base.specs.Parts.{pos_part, neg_part};
ghost use Rattle.rules.specs.Areas.{tariff, reference_price_of, selling_tariff_of};
ghost use Rattle.rules.specs.Levels.{today};
ghost use Rattle.rules.specs.Signed.{signed_of, bits_of, within};
ghost use Rattle.units.specs.Amounts.{net, balance};
ghost use Rattle.units.specs.Prices.{as_prices, InRange};
ghost use Rattle.units.specs.Limits.{as_limits, LimitsInRange};

use std::fmt;

mod postings;

pub use postings::Flow;

// An energy, in MWh. Energies are added to energies alone, and taken from them. `plus` is a method and no operator, here and below: it asks
// that the sum fits, and the trait of `+` asks nothing.
#[derive(Clone, Copy, PartialEq, Eq, PartialOrd, Ord)]
pub struct Energy(pub u64);

impl Energy {
    // This energy and another together.
    pub fn plus(self, other: Energy) -> Energy
        requires { self.0 + other.0 < 2 ^ 64 }
        ensures { result.0 ≡ self.0 + other.0 }
    {
        Energy(self.0 + other.0)
    }

    // What this energy is above another, and 0 where it is not.
    pub fn less(self, other: Energy) -> Energy
        ensures { result.0 ≡ self.0 - other.0 }
    {
        Energy(self.0.saturating_sub(other.0))
    }
}

// The energy of a trade, in MWh: one that fits the 32 bits of its record.
#[derive(Clone, Copy, PartialEq, Eq, PartialOrd, Ord)]
pub struct Mwh(pub u32);

impl Mwh {
    // The energy by itself.
    pub fn energy(self) -> Energy
        ensures { result.0 ≡ self.0 }
    {
        Energy(self.0 as u64)
    }

    // This energy and another together.
    pub fn plus(self, other: Energy) -> Mwh
        requires { self.0 + other.0 < 2 ^ 32 }
        ensures { result.0 ≡ self.0 + other.0 }
    {
        Mwh(self.energy().plus(other).0 as u32)
    }

    // What this energy is above another, and 0 where it is not.
    pub fn less(self, other: Energy) -> Mwh
        ensures { result.0 ≡ self.0 - other.0 }
    {
        Mwh(self.energy().less(other).0 as u32)
    }
}

// A sum of money, in cents. Money is added to money alone, taken from it and compared with it.
#[derive(Clone, Copy, PartialEq, Eq, PartialOrd, Ord)]
pub struct Cents(pub u64);

impl Cents {
    // This sum of money and another together.
    pub fn plus(self, other: Cents) -> Cents
        requires { self.0 + other.0 < 2 ^ 64 }
        ensures { result.0 ≡ self.0 + other.0 }
    {
        Cents(self.0 + other.0)
    }

    // What this sum of money is above another, and 0 where it is not.
    pub fn less(self, other: Cents) -> Cents
        ensures { result.0 ≡ self.0 - other.0 }
    {
        Cents(self.0.saturating_sub(other.0))
    }

    // Is this sum of money more than another?
    pub fn exceeds(self, other: Cents) -> bool
        ensures { result ≡ ltb other.0 self.0 }
    {
        other < self
    }
}

// Cents for each MWh.
#[derive(Clone, Copy)]
pub struct Price(pub u32);

impl Price {
    // What an energy is worth at this price: the way from energy to money. Only the cuts of a tier, which are plain numbers, multiply by
    // the rate of an area (`cut_worth`). No reference price in range is above 300,000.
    pub fn worth(self, energy: Energy) -> Cents
        requires { (self.0 ≤ 300000) × (energy.0 ≤ 2 ^ 45) }
        ensures result_value { result.0 ≡ energy.0 * self.0 }
        ensures result_bound { result.0 ≤ 300000 * energy.0 }
    {
        Cents(energy.0 * self.0 as u64)
    }
}

// An energy with a sign, in MWh: kept as the energy + 2^31.
#[derive(Clone, Copy)]
pub struct Net(pub u32);

impl Net {
    // What is added to the energy inside.
    pub const OFFSET: u32 = 2147483648;
    // No energy.
    pub const ZERO: Net = Net(Net::OFFSET);

    // The energy that 32 bits stand for in two's complement.
    pub fn of_bits(bits: u32) -> Net
        ensures { net result ≡ signed_of 32 bits }
    {
        if bits < Net::OFFSET {
            Net(bits + Net::OFFSET)
        } else {
            Net(bits - Net::OFFSET)
        }
    }

    // The 32 bits that stand for the energy.
    pub fn bits(self) -> u32
        ensures { result ≡ bits_of 32 (net self) }
    {
        if self.0 < Net::OFFSET {
            self.0 + Net::OFFSET
        } else {
            self.0 - Net::OFFSET
        }
    }

    // How long it is: what it is above 0.
    pub fn long(self) -> Energy
        ensures result_value { result.0 ≡ pos_part (net self) }
        ensures result_bound { result.0 < 2 ^ 31 }
    {
        Energy(self.0.saturating_sub(Net::OFFSET) as u64)
    }

    // How short it is: what it is below 0.
    pub fn short(self) -> Energy
        ensures result_value { result.0 ≡ neg_part (net self) }
        ensures result_bound { result.0 ≤ 2 ^ 31 }
    {
        Energy(Net::OFFSET.saturating_sub(self.0) as u64)
    }

    // Is it within the range of a physical entry, a million MWh either way? `&` leaves out a branch for each amount of each user.
    pub fn is_entry(self) -> bool
        ensures { result ≡ within 1000000 (net self) }
    {
        (Net::OFFSET - 1000000 <= self.0) & (self.0 <= Net::OFFSET + 1000000)
    }

    // More by an energy.
    pub fn raised(self, energy: Energy) -> Net
        requires { pos_part (net self) + energy.0 < 2 ^ 31 }
        ensures { net result ≡ net self +ℤ pos energy.0 }
    {
        Net((self.0 as u64 + energy.0) as u32)
    }

    // Less by an energy.
    pub fn lowered(self, energy: Energy) -> Net
        requires { neg_part (net self) + energy.0 ≤ 2 ^ 31 }
        ensures { net result ≡ net self -ℤ pos energy.0 }
    {
        Net((self.0 as u64 - energy.0) as u32)
    }

    // A position after its physical entry went from `old` to `new`: it moves by the same amount.
    pub fn moved(self, old: Net, new: Net) -> Net
        requires self_value { within 26600000 (net self) ≡ true }
        requires value { (within 1000000 (net old) ≡ true) × (within 1000000 (net new) ≡ true) }
        ensures { net result ≡ net self +ℤ (net new -ℤ net old) }
    {
        Net((self.0 as u64 + new.0 as u64 - old.0 as u64) as u32)
    }
}

// The energy with its sign.
impl fmt::Display for Net {
    fn fmt<W: fmt::Write>(&self, f: &mut fmt::Formatter<W>) -> fmt::Result {
        // The sign and the digits at once: an output without a buffer writes each piece by itself.
        let energy = self.0 as i64 - Net::OFFSET as i64;
        write!(f, "{energy}")
    }
}

// Money with a sign, in cents: kept as the money + 2^63. It is a type apart from `Net`, so that money and energy are never mixed; each has
// the width of its field in a book.
#[derive(Clone, Copy)]
pub struct Balance(pub u64);

impl Balance {
    // What is added to the money inside.
    pub const OFFSET: u64 = 9223372036854775808;
    // No money.
    pub const ZERO: Balance = Balance(Balance::OFFSET);

    // The money that 64 bits stand for in two's complement.
    pub fn of_bits(bits: u64) -> Balance
        ensures { balance result ≡ signed_of 64 bits }
    {
        if bits < Balance::OFFSET {
            Balance(bits + Balance::OFFSET)
        } else {
            Balance(bits - Balance::OFFSET)
        }
    }

    // The 64 bits that stand for the money.
    pub fn bits(self) -> u64
        ensures { result ≡ bits_of 64 (balance self) }
    {
        if self.0 < Balance::OFFSET {
            self.0 + Balance::OFFSET
        } else {
            self.0 - Balance::OFFSET
        }
    }

    // What is owed: what it is above 0.
    pub fn owed(self) -> Cents
        ensures result_value { result.0 ≡ pos_part (balance self) }
        ensures result_bound { result.0 < 2 ^ 63 }
    {
        Cents(self.0.saturating_sub(Balance::OFFSET))
    }

    // What is to the user's credit: what it is below 0.
    pub fn credit(self) -> Cents
        ensures result_value { result.0 ≡ neg_part (balance self) }
        ensures result_bound { result.0 ≤ 2 ^ 63 }
    {
        Cents(Balance::OFFSET.saturating_sub(self.0))
    }

    // Is it within the range of charges, 10^12 cents either way?
    pub fn is_charges(self) -> bool
        ensures { result ≡ within 1000000000000 (balance self) }
    {
        (Balance::OFFSET - 1000000000000 <= self.0) & (self.0 <= Balance::OFFSET + 1000000000000)
    }
}

// The prices of a day, in cents per MWh: the tariffs P of PVB and Q of TVB and AVB, the tolls L for liquefaction, X for PVB exit and I for
// injection, and the selling tariffs S of PVB and U of TVB and AVB, 0 in a version of the book that has none.
#[derive(Clone, Copy, Default)]
pub struct Prices {
    pub p: u32,
    pub q: u32,
    pub l: u32,
    pub x: u32,
    pub i: u32,
    pub s: u32,
    pub u: u32,
}

// An area of trade, by its code.
#[derive(Clone, Copy)]
pub struct Area(pub u8);

impl Area {
    // The pipeline hub.
    pub const PVB: u8 = 0;
    // The LNG tank.
    pub const TVB: u8 = 1;
    // The underground store.
    pub const AVB: u8 = 2;

    // The area's tariff t, for prices in range.
    pub fn tariff(self, prices: Prices) -> Price
        requires { InRange (as_prices prices) }
        ensures result_value { result.0 ≡ tariff (as_prices prices) self.0 }
        ensures le_result { (1 ≤ result.0) × (result.0 ≤ 100000) }
    {
        if self.0 == Area::PVB {
            Price(prices.p)
        } else {
            Price(prices.q)
        }
    }

    // The area's reference price w, for prices in range.
    pub fn reference_price(self, prices: Prices) -> Price
        requires { InRange (as_prices prices) }
        ensures result_value { result.0 ≡ reference_price_of (as_prices prices) self.0 }
        ensures le_result { (1 ≤ result.0) × (result.0 ≤ 300000) }
    {
        match self.0 {
            Area::PVB => Price(prices.p),
            Area::TVB => Price(prices.q + prices.l),
            _ => Price(prices.q + prices.x + prices.i),
        }
    }

    // The area's selling tariff, for prices in range.
    pub fn selling_tariff(self, prices: Prices) -> Price
        requires { InRange (as_prices prices) }
        ensures result_value { result.0 ≡ selling_tariff_of (as_prices prices) self.0 }
        ensures result_bound { result.0 ≤ 100000 }
    {
        if self.0 == Area::PVB {
            Price(prices.s)
        } else {
            Price(prices.u)
        }
    }
}

// The three figures that the rules take as given: cents of a call, cents of the least level, MWh of a flag. The two that a store has in 64
// bits each stand first: they are moved together.
#[derive(Clone, Copy)]
pub struct Limits {
    pub margin: Cents,
    pub floor: Cents,
    pub flag_mwh: Energy,
}

impl Limits {
    // The figures of today: 30,000 MWh, 10,000 euros, 100,000 euros.
    pub fn today() -> Limits
        ensures result_value { as_limits result ≡ today }
        ensures limits_in_range { LimitsInRange (as_limits result) }
    {
        Limits {
            margin: Cents(1000000),
            floor: Cents(10000000),
            flag_mwh: Energy(30000),
        }
    }
}
