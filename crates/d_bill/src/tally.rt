//! What is counted of a month before it is priced.

ghost use Rattle.std.specs.Prelude.{◌≡◌, pos, replicate};

use d_num::{Money, Watt, Wh};
use std::marker::Model;

/// How many energy periods there can be: those of the numbers 0 to 35.
pub const PERIODS: u8 = 36;

/// The import of each energy period of the month, the worth of its export, and the greatest power of each group of intervals. A
/// contract sees it as these lists.
#[derive(Drop)]
pub struct Tally {
    /// The import of each energy period in Wh, by its number.
    pub totals: [Wh; 36],
    /// What is paid for the export, in units of 10^-21 USD.
    pub credit: Money,
    /// The greatest power of each group in W, by its number; 0 where there is no such group.
    pub peaks: [Watt; 37],
}

impl Model for Tally {
    ghost use Rattle.std.specs.Prelude.{◌≡◌, length};
    ghost use Rattle.d_bill.specs.Totals.{Tallied};

    ghost Value = { Tallied };

    ghost view = { λ a. record { totals = a.totals; credit = a.credit; peaks = a.peaks } };

    ghost invariant = { λ a. (length a.totals ≡ 36) × (length a.peaks ≡ 37) };
}

impl Tally {
    /// All zeros.
    pub fn new() -> Tally
        ensures { result ≡ record { totals = replicate 36 (pos 0); credit = pos 0; peaks = replicate 37 (pos 0) } }
    {
        Tally {
            totals: [Wh::new(0).unwrap(); 36],
            credit: Money::new(0).unwrap(),
            peaks: [Watt::new(0).unwrap(); 37],
        }
    }
}
