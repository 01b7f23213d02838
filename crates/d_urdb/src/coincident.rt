//! Coincident demand.

ghost use Rattle.std.specs.Prelude.{◌≤◌, [], ◌∷◌};
ghost use Rattle.d_urdb.specs.Adjustments as spec;
ghost use Rattle.d_urdb.specs.Checks.{Checks};
ghost use Rattle.d_urdb.specs.Coincident.{rule_refusals};
ghost use Rattle.d_urdb.specs.Refusals.{each};
ghost use Rattle.d_urdb.specs.Shown.{row_of};

use crate::cause::Cause;
use crate::coincident_rule::CoincidentRule;
use crate::fault::Refused;
use crate::row::Record;
use d_columns::{PERIODS, Part, Structure, TIERS};

impl<'a> Record<'a> {
    /// Tests that the prices of coincident demand can be read, and that each of them is 0.
    pub(crate) fn check_coincident(&self) -> Result<(), Refused>
        ensures { Checks (λ reader. spec.coincident_refusals reader (row_of self.now)) result }
    {
        self.check_coincident_periods(CoincidentRule::Numbers)?;
        self.check_coincident_periods(CoincidentRule::Prices)
    }

    /// Tests a rule for each tier of each period.
    fn check_coincident_periods(&self, rule: CoincidentRule) -> Result<(), Refused>
        ensures { Checks (λ reader. spec.each_tier (rule_refusals rule reader (row_of self.now))) result }
    {
        for period in 0..PERIODS {
            self.check_coincident_tiers(rule, period)?;
        }
        Ok(())
    }

    /// Tests a rule for each tier of a period.
    fn check_coincident_tiers(&self, rule: CoincidentRule, period: u8) -> Result<(), Refused>
        requires { period ≤ 35 }
        ensures { Checks (λ reader. each 16 (rule_refusals rule reader (row_of self.now) period)) result }
    {
        for tier in 0..TIERS {
            self.check_coincident_tier(rule, period, tier)?;
        }
        Ok(())
    }

    /// Tests a rule for a tier.
    fn check_coincident_tier(
        &self,
        rule: CoincidentRule,
        period: u8,
        tier: u8,
    ) -> Result<(), Refused>
        requires period { period ≤ 35 }
        requires tier { tier ≤ 15 }
        ensures { Checks (λ reader. rule_refusals rule reader (row_of self.now) period tier) result }
    {
        match rule {
            CoincidentRule::Numbers => self.check_coincident_numbers(period, tier),
            CoincidentRule::Prices => self.check_coincident_prices(period, tier),
        }
    }

    /// Tests that the prices of a tier can be read.
    fn check_coincident_numbers(&self, period: u8, tier: u8) -> Result<(), Refused>
        requires period { period ≤ 35 }
        requires tier { tier ≤ 15 }
        ensures { Checks (λ reader. spec.coincident_number_refusals reader (row_of self.now) period tier) result }
    {
        self.check_number(Structure::Coincident, period, tier, Part::Rate)?;
        self.check_number(Structure::Coincident, period, tier, Part::Adj)
    }

    /// Tests that the prices of a tier are 0.
    fn check_coincident_prices(&self, period: u8, tier: u8) -> Result<(), Refused>
        requires period { period ≤ 35 }
        requires tier { tier ≤ 15 }
        ensures { Checks (λ reader. spec.coincident_price_refusals reader (row_of self.now) period tier) result }
    {
        self.check_coincident_price(period, tier, Part::Rate)?;
        self.check_coincident_price(period, tier, Part::Adj)
    }

    /// Tests that a price of a tier is 0.
    fn check_coincident_price(&self, period: u8, tier: u8, part: Part) -> Result<(), Refused>
        requires period { period ≤ 35 }
        requires tier { tier ≤ 15 }
        ensures { Checks (λ reader. spec.part_refusal reader (row_of self.now) period tier part ∷ []) result }
    {
        let price = self.price_in(Structure::Coincident, period, tier, part);
        if price.units() != 0 {
            let column = self
                .cells
                .part_column(Structure::Coincident, period, tier, part);
            return Err(self.refusal(Cause::Coincident, column, 0));
        }
        Ok(())
    }
}
