//! The rule of billing.

ghost use Rattle.std.specs.Prelude.{◌≡◌, not, ◌&&◌, ◌||◌, codes};
ghost use Rattle.d_urdb.specs.declared.rule.RuleChoice.TheVariants.{AsRecorded};
ghost use Rattle.d_urdb.specs.Checks.{Checks};
ghost use Rattle.d_urdb.specs.Record as spec;
ghost use Rattle.d_urdb.specs.Shown.{row_of};
ghost use Rattle.d_columns.specs.Tiers.{named_cell, is_filled};

use crate::cause::Cause;
use crate::fault::Refused;
use crate::row::Record;
use d_table::{Table, is_named};

/// Which rule a record is planned by.
#[derive(Clone, Copy)]
pub enum RuleChoice {
    /// The one that it says.
    AsRecorded,
    /// Net billing by the interval, whatever it says.
    NetBilling,
}

/// The refusal of the record of a table whose energy is settled hour by hour, where there isn't a reading an hour. It names the column of the
/// rule. Who knows the readings tests for it: the record by itself isn't refused.
pub fn hourly_refusal(table: &Table) -> Refused
    ensures { result ≡ spec.hourly_refusal table.now }
{
    Refused {
        number: Cause::HourlyRule.number(),
        column: table.position(b"dgrules").unwrap_or(table.columns()),
        detail: 0,
    }
}

impl<'a> Record<'a> {
    /// Tests the record's rule of billing.
    #[tactic(auto, unfolding(crate::specs::Refusals::first_of))]
    pub(crate) fn check_rule(&self, rule: RuleChoice) -> Result<(), Refused>
        ensures { Checks (λ reader. spec.rule_refusals (row_of self.now) rule) result }
    {
        match rule {
            RuleChoice::AsRecorded => self.check_recorded_rule(),
            RuleChoice::NetBilling => Ok(()),
        }
    }

    /// Whether energy is settled hour by hour.
    pub(crate) fn is_hourly(&self, rule: RuleChoice) -> bool
        ensures { result ≡ spec.is_hourly (row_of self.now) rule }
    {
        matches!(rule, RuleChoice::AsRecorded) && self.says_rule(b"net billing hourly")
    }

    /// Tests the rule that the record says.
    #[tactic(auto, unfolding(crate::specs::Refusals::first_of))]
    fn check_recorded_rule(&self) -> Result<(), Refused>
        ensures { Checks (λ reader. spec.rule_refusals (row_of self.now) AsRecorded) result }
    {
        if self.says_rule(b"net metering") {
            return Err(self.rule_refusal(Cause::NetMetering));
        }
        if self.says_rule(b"buy all sell all") {
            return Err(self.rule_refusal(Cause::BuyAllSellAll));
        }
        if self.says_unknown_rule() {
            return Err(self.rule_refusal(Cause::RuleUnknown));
        }
        Ok(())
    }

    /// Whether the record says a rule, and none of net billing.
    fn says_unknown_rule(&self) -> bool
        ensures { result ≡ spec.says_unknown_rule (row_of self.now) }
    {
        !self.cells.named_cell(b"dgrules").is_empty()
            && !self.says_rule(b"net billing instantaneous")
            && !self.says_rule(b"net billing hourly")
    }

    /// Whether the record's rule is this text, ASCII case ignored. The text is in small letters.
    fn says_rule(&self, text: &[u8]) -> bool
        ensures { result ≡ spec.says_rule (row_of self.now) text.now }
    {
        is_named(self.cells.named_cell(b"dgrules"), text)
    }

    /// A refusal that names the column of the rule.
    fn rule_refusal(&self, cause: Cause) -> Refused
        ensures { result ≡ spec.rule_refusal (row_of self.now) cause }
    {
        self.refusal(cause, self.cells.position(b"dgrules"), 0)
    }
}
