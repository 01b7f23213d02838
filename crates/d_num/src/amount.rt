//! Money, prices, energy and power.

ghost use Rattle.std.specs.Prelude.{◌≡◌, ◌↔◌, ◌*◌, ◌^◌, ◌≤◌, ℤ, pos, ◌+ℤ◌, ◌-ℤ◌, ◌*ℤ◌, ◌≤ℤ◌, IsSome, IfSome};
ghost use Rattle.std.specs.Int.{int_min, int_max};
ghost use Rattle.d_num.specs.Amount.{IsWithin, IsUpTo, IsMoney, IsRate, IsWh, IsWatt, IsIntervalLength, IsPowerOf};

use std::marker::Model;

const MONEY_LIMIT: i128 = 10_000_000_000_000_000_000_000_000_000_000_000_000;

const RATE_LIMIT: i128 = 10_000_000_000_000_000_000_000;

const ENERGY_LIMIT: i64 = 20_000_000_000_000;

const POWER_LIMIT: i64 = 10_000_000_000_000;

/// An amount of money in units of 10^-21 USD, at most 10^37 units in size. A contract sees it as the number of its units.
#[derive(Clone, Copy, PartialEq, Eq, PartialOrd, Ord)]
pub struct Money(i128);

impl Model for Money {
    ghost use Rattle.std.specs.Prelude.{ℤ};
    ghost use Rattle.d_num.specs.Amount.{IsMoney};

    ghost Value = { ℤ };

    ghost view = { λ a. a.0 };

    ghost invariant = { λ a. IsMoney a.0 };

    ghost inverse = { λ z. record { 0 = z } };
}

impl Money {
    /// The amount of so many units, or None exactly where that is more than 10^37 in size.
    pub fn new(units: i128) -> Option<Money>
        ensures range { IsSome result ↔ IsMoney units }
        ensures value { IfSome result (λ money. money ≡ units) }
    {
        if units >= -MONEY_LIMIT && units <= MONEY_LIMIT {
            Some(Money(units))
        } else {
            None
        }
    }

    /// The number of its units of 10^-21 USD.
    pub fn units(self) -> i128
        ensures value { result ≡ self }
        ensures range { IsMoney result }
    {
        self.0
    }

    /// The sum of both amounts.
    pub fn plus(self, other: Money) -> Money
        requires { IsMoney (self +ℤ other) }
        ensures { result ≡ self +ℤ other }
    {
        Money(self.0 + other.0)
    }

    /// This amount less the other.
    pub fn minus(self, other: Money) -> Money
        requires { IsMoney (self -ℤ other) }
        ensures { result ≡ self -ℤ other }
    {
        Money(self.0 - other.0)
    }

    /// The smaller of both amounts.
    pub fn least(self, other: Money) -> Money
        ensures { result ≡ int_min self other }
    {
        Money(self.0.min(other.0))
    }

    /// The larger of both amounts.
    pub fn greatest(self, other: Money) -> Money
        ensures { result ≡ int_max self other }
    {
        Money(self.0.max(other.0))
    }
}

/// A price in units of 10^-18 USD per kWh or per kW, at most 10^22 units in size. A contract sees it as the number of its units.
#[derive(Clone, Copy, PartialEq, Eq, PartialOrd, Ord)]
pub struct Rate(i128);

impl Model for Rate {
    ghost use Rattle.std.specs.Prelude.{ℤ};
    ghost use Rattle.d_num.specs.Amount.{IsRate};

    ghost Value = { ℤ };

    ghost view = { λ a. a.0 };

    ghost invariant = { λ a. IsRate a.0 };

    ghost inverse = { λ z. record { 0 = z } };
}

impl Rate {
    /// The price of so many units, or None exactly where that is more than 10^22 in size.
    pub fn new(units: i128) -> Option<Rate>
        ensures range { IsSome result ↔ IsRate units }
        ensures value { IfSome result (λ rate. rate ≡ units) }
    {
        if units >= -RATE_LIMIT && units <= RATE_LIMIT {
            Some(Rate(units))
        } else {
            None
        }
    }

    /// The number of its units of 10^-18 USD per kWh or per kW.
    pub fn units(self) -> i128
        ensures value { result ≡ self }
        ensures range { IsRate result }
    {
        self.0
    }

    /// The sum of both prices.
    pub fn plus(self, other: Rate) -> Rate
        requires { IsRate (self +ℤ other) }
        ensures { result ≡ self +ℤ other }
    {
        Rate(self.0 + other.0)
    }

    /// What that many watt-hours, or watts, cost at this price.
    pub fn times(self, amount: i64) -> Money
        requires { IsWithin (2 * 10 ^ 13) amount }
        ensures { result ≡ self *ℤ amount }
    {
        Money(self.0 * amount as i128)
    }
}

/// An amount of energy in watt-hours, at most 2 * 10^13 in size. A contract sees it as that number.
#[derive(Clone, Copy, PartialEq, Eq, PartialOrd, Ord)]
pub struct Wh(i64);

impl Model for Wh {
    ghost use Rattle.std.specs.Prelude.{ℤ};
    ghost use Rattle.d_num.specs.Amount.{IsWh};

    ghost Value = { ℤ };

    ghost view = { λ a. a.0 };

    ghost invariant = { λ a. IsWh a.0 };

    ghost inverse = { λ z. record { 0 = z } };
}

impl Wh {
    /// So many watt-hours, or None exactly where that is more than 2 * 10^13 in size.
    pub fn new(value: i64) -> Option<Wh>
        ensures range { IsSome result ↔ IsWh value }
        ensures value { IfSome result (λ energy. energy ≡ value) }
    {
        if value >= -ENERGY_LIMIT && value <= ENERGY_LIMIT {
            Some(Wh(value))
        } else {
            None
        }
    }

    /// The number of watt-hours.
    pub fn value(self) -> i64
        ensures value { result ≡ self }
        ensures range { IsWh result }
    {
        self.0
    }
}

/// A power in watts, from 0 to 10^13. A contract sees it as that number.
#[derive(Clone, Copy, PartialEq, Eq, PartialOrd, Ord)]
pub struct Watt(i64);

impl Model for Watt {
    ghost use Rattle.std.specs.Prelude.{ℤ};
    ghost use Rattle.d_num.specs.Amount.{IsWatt};

    ghost Value = { ℤ };

    ghost view = { λ a. a.0 };

    ghost invariant = { λ a. IsWatt a.0 };

    ghost inverse = { λ z. record { 0 = z } };
}

impl Watt {
    /// So many watts, or None exactly where that isn't from 0 to 10^13.
    pub fn new(value: i64) -> Option<Watt>
        ensures range { IsSome result ↔ IsWatt value }
        ensures value { IfSome result (λ power. power ≡ value) }
    {
        if value >= 0 && value <= POWER_LIMIT {
            Some(Watt(value))
        } else {
            None
        }
    }

    /// The number of watts.
    pub fn value(self) -> i64
        ensures value { result ≡ self }
        ensures range { IsWatt result }
    {
        self.0
    }

    /// The power of an import that is spread evenly over an interval of so many minutes: the import in Wh times 60 divided by the
    /// minutes, which is whole.
    pub fn of(import: Wh, minutes: u8) -> Watt
        requires import { IsUpTo (2 * 10 ^ 9) import }
        requires minutes { IsIntervalLength minutes }
        ensures { IsPowerOf import minutes result }
    {
        let energy = import.0;
        match minutes {
            5 => Watt(energy * 12),
            15 => Watt(energy * 4),
            30 => Watt(energy * 2),
            _ => Watt(energy),
        }
    }
}
