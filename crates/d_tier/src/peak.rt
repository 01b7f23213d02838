//! A table of demand with the least power that it charges.

ghost use Rattle.std.specs.Prelude.{◌≡◌, ℕ, ◌*◌, All};
ghost use Rattle.d_num.specs.Amount.{IsUpTo, IsWithin};
ghost use Rattle.d_tier.specs.Charges.{peak_charge};

use crate::tiers::Tiers;
use d_num::{Money, Watt};

/// The tiers of the highest demand in some intervals of a month, and the power that they charge for at least.
#[derive(Drop)]
pub struct Peak {
    /// Tiers of power in W.
    pub tiers: Tiers,
    /// From 0 to 10^13 W; 0 where no ratchet holds.
    pub floor: Watt,
}

impl Peak {
    /// What a highest demand is charged: the tiers' charge of it, or of the floor where that is greater.
    pub fn charge(&self, power: Watt) -> Money
        ensures value { result ≡ peak_charge self.now power }
        ensures size { (m n : ℕ) → All (λ tier. IsWithin m tier.price) self.now.tiers → IsUpTo n power → IsUpTo n self.now.floor
            → IsWithin (m * n) result }
    {
        self.tiers.charge(power.value().max(self.floor.value()))
    }
}
