//! The cost of a way that may not be there, in one word.

ghost use Rattle.std.specs.Prelude.{◌≡◌, ◌^◌, pos, neg_ℤ, ◌≤ℤ◌};
ghost use Rattle.d_num.specs.declared.pot.Pot.TheVariants.{To, NoWay};
ghost use Rattle.d_rows.specs.Packed.{shown, IsPacked};

use d_num::{Money, Pot};
use std::marker::Model;

const MOST: i128 = 10_000_000_000_000_000_000_000_000_000_000_000_000;

const NO_WAY: i128 = 80_000_000_000_000_000_000_000_000_000_000_000_000;

/// A cost in units of money, or that there is no way, which is kept as 8 * 10^37, a number above every cost. A contract sees it as
/// the `Pot`.
#[derive(Clone, Copy, PartialEq, Eq)]
pub struct Packed(i128);

impl Model for Packed {
    ghost use Rattle.d_num.specs.declared.pot.Pot.{Pot};
    ghost use Rattle.d_rows.specs.Packed.{shown, packed, IsPacked, packed_shown};

    ghost Value = { Pot };

    ghost view = { λ a. shown a.0 };

    ghost invariant = { λ a. IsPacked a.0 };

    ghost inverse = { λ p. record { 0 = packed p } };

    ghost inverse_ok = { λ a h i. record { 0 = packed_shown a.0 h i } };
}

impl Packed {
    /// That there is no way.
    pub fn no_way() -> Packed
        ensures { result ≡ NoWay }
    {
        Packed(NO_WAY)
    }

    /// This cost.
    pub fn to(cost: Money) -> Packed
        ensures { result ≡ To cost }
    {
        Packed(cost.units())
    }

    /// What a number stands for that isn't below the range of money: a cost up to 10^37, and no way above it.
    pub fn of(units: i128) -> Packed
        requires { neg_ℤ (pos (10 ^ 37)) ≤ℤ units }
        ensures { result ≡ shown units }
    {
        if units > MOST {
            Packed(NO_WAY)
        } else {
            Packed(units)
        }
    }

    /// The cost, or that there is no way.
    pub fn get(self) -> Pot
        ensures { result ≡ self }
    {
        match Money::new(self.0) {
            Some(cost) => Pot::To(cost),
            None => Pot::NoWay,
        }
    }

    /// The number that is kept: the cost's units, or 8 * 10^37 for no way.
    pub fn units(self) -> i128
        ensures shown { shown result ≡ self }
        ensures packed { IsPacked result }
    {
        self.0
    }
}
