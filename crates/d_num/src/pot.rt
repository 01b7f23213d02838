//! The cost of a way that may not be there.

ghost use Rattle.std.specs.Prelude.{◌≡◌, ◌↔◌, ◌⊎◌, ◌^◌, ⊤, ℤ, ◌+ℤ◌, IsTrue};
ghost use Rattle.d_num.specs.Pot.{AtMost, joined, IsPotWithin};
ghost use Rattle.d_num.specs.declared.pot.Pot.TheVariants.{To, NoWay};

use crate::amount::Money;

/// The cost from a place to the month's end, or that no way leads there. `NoWay` is greater than every cost.
#[derive(Clone, Copy, PartialEq, Eq)]
pub enum Pot {
    To(Money),
    NoWay,
}

impl Pot {
    /// This cost and one more; no way stays no way.
    pub fn plus(self, cost: Money) -> Pot
        requires { IsPotWithin (10 ^ 37) (joined (To cost) self) }
        ensures { result ≡ joined (To cost) self }
    {
        match self {
            Pot::To(rest) => Pot::To(cost.plus(rest)),
            Pot::NoWay => Pot::NoWay,
        }
    }

    /// The smaller of both.
    pub fn least(self, other: Pot) -> Pot
        ensures one_of_both { (result ≡ self) ⊎ (result ≡ other) }
        ensures below_this { AtMost result self }
        ensures below_other { AtMost result other }
    {
        match self {
            Pot::To(one) => match other {
                Pot::To(another) => Pot::To(one.least(another)),
                Pot::NoWay => Pot::To(one),
            },
            Pot::NoWay => match other {
                Pot::To(another) => Pot::To(another),
                Pot::NoWay => Pot::NoWay,
            },
        }
    }

    /// Whether this is no greater than the other.
    pub fn at_most(self, other: Pot) -> bool
        ensures { IsTrue result ↔ AtMost self other }
    {
        match self {
            Pot::To(one) => match other {
                Pot::To(another) => one <= another,
                Pot::NoWay => true,
            },
            Pot::NoWay => match other {
                Pot::To(_) => false,
                Pot::NoWay => true,
            },
        }
    }
}
