//! The rules that a record's periods keep.

ghost use Rattle.std.specs.Prelude.{◌≡◌, ◌≤◌, OnOk, [], ◌∷◌, false};
ghost use Rattle.d_urdb.specs.Shown.{row_of};
ghost use Rattle.d_columns.specs.Tiers.{has_tier};
ghost use Rattle.d_urdb.specs.Numbers.{Reads};
ghost use Rattle.d_urdb.specs.Periods as spec;
ghost use Rattle.d_urdb.specs.Values.{HasRisingEnds, HasSoundTiers};
ghost use Rattle.d_urdb.specs.Checks.{Checks, ChecksOrNot, IsHoleCheck, tier_refusals};
ghost use Rattle.d_urdb.specs.Refusals.{each};

use crate::cause::Cause;
use crate::fault::{RecordFault, Refused};
use crate::number::{fault_detail, read_end, read_number};
use crate::row::Record;
use crate::tier_rule::TierRule;
use d_columns::{Part, Structure, TIERS};
use d_table::is_named;
use std::alloc::Global;

/// The most USD per kWh or kW that a price may be in size.
pub(crate) const PRICE_LIMIT: u64 = 1000;

impl<'a> Record<'a> {
    /// Tests the rules of a period, in order.
    pub(crate) fn check_period(
        &self,
        alloc: Global,
        structure: Structure,
        period: u8,
    ) -> Result<(), RecordFault>
        requires { period ≤ 35 }
        ensures refusals { ChecksOrNot (λ reader. spec.period_refusals reader (row_of self.now) structure period) result }
        ensures rising { OnOk result (HasRisingEnds (row_of self.now) structure period) }
        ensures prices { OnOk result (HasSoundTiers (row_of self.now) structure period) }
    {
        self.check_holes(alloc, structure, period)?;
        if !self.cells.has_tier(structure, period, 0) {
            return Ok(());
        }
        self.check_tiers(TierRule::Numbers, structure, period)?;
        self.check_tiers(TierRule::Units, structure, period)?;
        self.check_tiers(TierRule::Order, structure, period)?;
        self.check_tiers(TierRule::Sells, structure, period)?;
        self.check_tiers(TierRule::Falls, structure, period)?;
        Ok(())
    }

    /// Tests that no tier is there without the one before it.
    fn check_holes(
        &self,
        alloc: Global,
        structure: Structure,
        period: u8,
    ) -> Result<(), RecordFault>
        requires { period ≤ 35 }
        ensures { IsHoleCheck (row_of self.now) structure period result }
    {
        let hole = self.cells.first_hole(alloc, structure, period)?;
        if let Some(column) = hole {
            return Err(RecordFault::Refused(self.refusal(Cause::TierHole, Some(column), 0)));
        }
        Ok(())
    }

    /// Tests a rule for each tier of a period.
    fn check_tiers(&self, rule: TierRule, structure: Structure, period: u8) -> Result<(), Refused>
        requires period { period ≤ 35 }
        requires few { has_tier (row_of self.now) structure period 16 ≡ false }
        ensures { Checks (λ reader. each 16 (tier_refusals rule reader (row_of self.now) structure period)) result }
    {
        for tier in 0..TIERS {
            self.check_tier(rule, structure, period, tier)?;
        }
        Ok(())
    }

    /// Tests a rule for a tier.
    fn check_tier(
        &self,
        rule: TierRule,
        structure: Structure,
        period: u8,
        tier: u8,
    ) -> Result<(), Refused>
        requires period { period ≤ 35 }
        requires tier { tier ≤ 15 }
        requires few { has_tier (row_of self.now) structure period 16 ≡ false }
        ensures { Checks (λ reader. tier_refusals rule reader (row_of self.now) structure period tier) result }
    {
        match rule {
            TierRule::Numbers => self.check_numbers(structure, period, tier),
            TierRule::Units => self.check_unit(structure, period, tier),
            TierRule::Order => self.check_order(structure, period, tier),
            TierRule::Sells => self.check_sell(structure, period, tier),
            TierRule::Falls => self.check_fall(structure, period, tier),
        }
    }

    /// Tests that a tier's numbers can be read.
    fn check_numbers(&self, structure: Structure, period: u8, tier: u8) -> Result<(), Refused>
        requires period { period ≤ 35 }
        requires tier { tier ≤ 15 }
        requires few { has_tier (row_of self.now) structure period 16 ≡ false }
        ensures { Checks (λ reader. spec.number_refusals reader (row_of self.now) structure period tier) result }
    {
        self.check_end(structure, period, tier)?;
        self.check_number(structure, period, tier, Part::Rate)?;
        self.check_number(structure, period, tier, Part::Adj)?;
        self.check_number(structure, period, tier, Part::Sell)
    }

    /// Tests that the end of a tier can be read, unless it is the last.
    fn check_end(&self, structure: Structure, period: u8, tier: u8) -> Result<(), Refused>
        requires period { period ≤ 35 }
        requires tier { tier ≤ 15 }
        requires few { has_tier (row_of self.now) structure period 16 ≡ false }
        ensures { Checks (λ reader. spec.end_refusal reader (row_of self.now) structure period tier ∷ []) result }
    {
        if self.is_last(structure, period, tier) {
            return Ok(());
        }
        match read_end(self.cells.part_cell(structure, period, tier, Part::Max)) {
            Ok(_) => Ok(()),
            Err(fault) => {
                let column = self.cells.part_column(structure, period, tier, Part::Max);
                Err(self.refusal(Cause::Decimal, column, fault_detail(fault)))
            }
        }
    }

    /// Tests that a price of a tier can be read.
    pub(crate) fn check_number(
        &self,
        structure: Structure,
        period: u8,
        tier: u8,
        part: Part,
    ) -> Result<(), Refused>
        requires period { period ≤ 35 }
        requires tier { tier ≤ 15 }
        ensures { Checks (λ reader. spec.price_refusal reader (row_of self.now) structure period tier part ∷ []) result }
    {
        match read_number(
            self.cells.part_cell(structure, period, tier, part),
            PRICE_LIMIT,
        ) {
            Ok(_) => Ok(()),
            Err(fault) => {
                let column = self.cells.part_column(structure, period, tier, part);
                Err(self.refusal(Cause::Decimal, column, fault_detail(fault)))
            }
        }
    }

    /// Whether a tier is the last of its period.
    pub(crate) fn is_last(&self, structure: Structure, period: u8, tier: u8) -> bool
        requires period { period ≤ 35 }
        requires tier { tier ≤ 15 }
        requires few { has_tier (row_of self.now) structure period 16 ≡ false }
        ensures { result ≡ spec.is_last (row_of self.now) structure period tier }
    {
        tier + 1 == TIERS || !self.cells.has_tier(structure, period, tier + 1)
    }

    /// Tests the unit of a tier.
    fn check_unit(&self, structure: Structure, period: u8, tier: u8) -> Result<(), Refused>
        requires period { period ≤ 35 }
        requires tier { tier ≤ 15 }
        ensures { Checks (λ reader. spec.unit_refusal (row_of self.now) structure period tier ∷ []) result }
    {
        if self.has_other_unit(structure, period, tier) {
            let column = self.cells.part_column(structure, period, tier, Part::Unit);
            return Err(self.refusal(Cause::TierUnit, column, 0));
        }
        Ok(())
    }

    /// Whether the unit of a tier isn't kWh, where the period has two tiers or more.
    fn has_other_unit(&self, structure: Structure, period: u8, tier: u8) -> bool
        requires period { period ≤ 35 }
        requires tier { tier ≤ 15 }
        ensures { result ≡ spec.has_other_unit (row_of self.now) structure period tier }
    {
        self.cells.has_tier(structure, period, 1)
            && !is_unit(
                self.cells.part_cell(structure, period, tier, Part::Unit),
                b"kwh",
            )
    }

    /// Tests that a tier ends above where it begins, unless it is the last.
    fn check_order(&self, structure: Structure, period: u8, tier: u8) -> Result<(), Refused>
        requires period { period ≤ 35 }
        requires tier { tier ≤ 15 }
        requires few { has_tier (row_of self.now) structure period 16 ≡ false }
        ensures { Checks (λ reader. spec.order_refusal reader (row_of self.now) structure period tier ∷ []) result }
    {
        if self.breaks_order(structure, period, tier) {
            let column = self.cells.part_column(structure, period, tier, Part::Max);
            return Err(self.refusal(Cause::TierOrder, column, 0));
        }
        Ok(())
    }

    /// Whether a tier other than the last doesn't end above where it begins.
    fn breaks_order(&self, structure: Structure, period: u8, tier: u8) -> bool
        requires period { period ≤ 35 }
        requires tier { tier ≤ 15 }
        requires few { has_tier (row_of self.now) structure period 16 ≡ false }
        ensures { Reads (λ reader. spec.breaks_order reader (row_of self.now) structure period tier) result }
    {
        if self.is_last(structure, period, tier) {
            return false;
        }
        let begin = self.begin_of(structure, period, tier);
        let end = self.end_of(structure, period, tier);
        !is_above(begin, end)
    }

    /// Tests that a tier's sell rate is its period's.
    fn check_sell(&self, structure: Structure, period: u8, tier: u8) -> Result<(), Refused>
        requires period { period ≤ 35 }
        requires tier { tier ≤ 15 }
        ensures { Checks (λ reader. spec.sell_refusal reader (row_of self.now) structure period tier ∷ []) result }
    {
        if self.has_other_sell(structure, period, tier) {
            let column = self.cells.part_column(structure, period, tier, Part::Sell);
            return Err(self.refusal(Cause::SellTiers, column, 0));
        }
        Ok(())
    }

    /// Whether a sell rate that is given isn't the period's.
    fn has_other_sell(&self, structure: Structure, period: u8, tier: u8) -> bool
        requires period { period ≤ 35 }
        requires tier { tier ≤ 15 }
        ensures { Reads (λ reader. spec.has_other_sell reader (row_of self.now) structure period tier) result }
    {
        if !self.cells.is_filled(structure, period, tier, Part::Sell) {
            return false;
        }
        let price = self.price_in(structure, period, tier, Part::Sell);
        let sell = self.sell_of(structure, period);
        price != sell
    }

    /// Tests that a price of demand isn't below 0.
    fn check_fall(&self, structure: Structure, period: u8, tier: u8) -> Result<(), Refused>
        requires period { period ≤ 35 }
        requires tier { tier ≤ 15 }
        ensures { Checks (λ reader. spec.fall_refusal reader (row_of self.now) structure period tier ∷ []) result }
    {
        if self.has_negative_price(structure, period, tier) {
            let added = self.cells.part_column(structure, period, tier, Part::Adj);
            let rate = self.cells.part_column(structure, period, tier, Part::Rate);
            return Err(self.refusal(Cause::DemandFalls, added.or(rate), 0));
        }
        Ok(())
    }

    /// Whether the price of a tier of demand is below 0.
    fn has_negative_price(&self, structure: Structure, period: u8, tier: u8) -> bool
        requires period { period ≤ 35 }
        requires tier { tier ≤ 15 }
        ensures { Reads (λ reader. spec.has_negative_price reader (row_of self.now) structure period tier) result }
    {
        if !is_demand(structure) {
            return false;
        }
        self.price_of(structure, period, tier).units() < 0
    }
}

/// Whether both are there, and the second is above the first.
fn is_above(begin: Option<i64>, end: Option<i64>) -> bool
    ensures { result ≡ spec.is_above begin end }
{
    match (begin, end) {
        (Some(begin), Some(end)) => begin < end,
        _ => false,
    }
}

/// Whether what the structure prices is never paid for, so that no price of it may be below 0.
fn is_demand(structure: Structure) -> bool
    ensures { result ≡ spec.is_demand structure }
{
    matches!(structure, Structure::Demand | Structure::FlatDemand)
}

/// Whether the cell is blank or this unit, ASCII case ignored. The unit is in small letters.
pub(crate) fn is_unit(cell: &[u8], unit: &[u8]) -> bool
    ensures { result ≡ spec.is_unit unit.now cell.now }
{
    cell.is_empty() || is_named(cell, unit)
}
