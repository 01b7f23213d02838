//! Charges that don't depend on energy or demand.

ghost use Rattle.std.specs.Prelude.{◌≡◌, ◌*◌, ◌^◌, ◌*ℤ◌, pos, ◌↔◌, IsTrue, IfOk};
ghost use Rattle.std.specs.Option.{ForSome};
ghost use Rattle.d_num.specs.Amount.{IsWithin};
ghost use Rattle.d_tariff.specs.Terms.{IsCharge, IsMinimum};
ghost use Rattle.d_urdb.specs.Charges as spec;
ghost use Rattle.d_urdb.specs.Checks.{Checks};
ghost use Rattle.d_urdb.specs.Numbers.{Reads};
ghost use Rattle.d_urdb.specs.Shown.{row_of};

use crate::cause::Cause;
use crate::fault::Refused;
use crate::row::Record;
use d_num::Money;
use d_tariff::{Charge, ChargeUnit};

// The most USD that a charge may be in size.
const CHARGE_LIMIT: u64 = 1_000_000_000;

impl<'a> Record<'a> {
    /// The fixed charge, which is 0 by the month where there is none; or why it is refused.
    pub(crate) fn fixed_charge(&self) -> Result<Charge, Refused>
        ensures refusals { Checks (λ reader. spec.charge_refusals reader (row_of self.now) spec.fixed_name spec.fixed_unit_name) result }
        ensures value { IfOk result (Reads (λ reader. spec.fixed_of reader (row_of self.now))) }
        ensures range { IfOk result IsCharge }
    {
        self.charge(b"fixedchargefirstmeter", b"fixedchargeunits")
    }

    /// The minimum of a bill, or None where there is none; or why it is refused. One by the year is refused.
    pub(crate) fn minimum_charge(&self) -> Result<Option<Charge>, Refused>
        ensures refusals { Checks (λ reader. spec.minimum_refusals reader (row_of self.now)) result }
        ensures value { IfOk result (Reads (λ reader. spec.minimum_of reader (row_of self.now))) }
        ensures range { IfOk result (λ minimum. ForSome minimum IsMinimum) }
    {
        let minimum = self.charge(b"mincharge", b"minchargeunits")?;
        if minimum.amount.units() == 0 {
            return Ok(None);
        }
        if is_year(minimum.unit) {
            let column = self.cells.position(b"minchargeunits");
            return Err(self.refusal(Cause::AnnualMinimum, column, 0));
        }
        Ok(Some(minimum))
    }

    /// Tests that the amount in the column of that name is 0; one that isn't is refused for this cause. The name is in small letters.
    pub(crate) fn check_zero(&self, name: &[u8], cause: Cause) -> Result<(), Refused>
        ensures { Checks (λ reader. spec.zero_refusals reader (row_of self.now) name.now cause) result }
    {
        let amount = self.named_number(name, CHARGE_LIMIT)?;
        if amount != 0 {
            let column = self.cells.position(name);
            return Err(self.refusal(cause, column, 0));
        }
        Ok(())
    }

    /// The charge in the column of that name, by the unit in the other column; or why it is refused. One of 0 is by the month, whatever
    /// its unit. Both names are in small letters.
    fn charge(&self, name: &[u8], unit_name: &[u8]) -> Result<Charge, Refused>
        ensures refusals { Checks (λ reader. spec.charge_refusals reader (row_of self.now) name.now unit_name.now) result }
        ensures value { IfOk result (Reads (λ reader. spec.charge_of reader (row_of self.now) name.now unit_name.now)) }
        ensures range { IfOk result IsCharge }
    {
        let amount = self.named_number(name, CHARGE_LIMIT)?;
        if amount == 0 {
            return Ok(charge_of(0, ChargeUnit::Month));
        }
        match read_unit(self.cells.named_cell(unit_name)) {
            Some(unit) => Ok(charge_of(amount, unit)),
            None => {
                let column = self.cells.position(unit_name);
                Err(self.refusal(Cause::ChargeUnit, column, 0))
            }
        }
    }
}

/// The charge of so many units of 10^-18 USD.
fn charge_of(units: i128, unit: ChargeUnit) -> Charge
    requires { IsWithin (10 ^ 27) units }
    ensures value { result ≡ record { amount = units *ℤ pos 1000; unit = unit } }
    ensures range { IsCharge result }
{
    match Money::new(units * 1000) {
        Some(amount) => Charge { amount, unit },
        None => unreachable!(),
    }
}

/// Whether the unit is the year.
fn is_year(unit: ChargeUnit) -> bool
    ensures { IsTrue result ↔ (unit ≡ ChargeUnit.Year) }
{
    matches!(unit, ChargeUnit::Year)
}

/// The unit that a text says, or None where it says another. No text says the month.
#[tactic(auto, unfolding(crate::specs::Charges::unit_in), using(d_columns::proofs::CellFacts::filled_cell, d_columns::proofs::CellFacts::empty_cell))]
fn read_unit(text: &[u8]) -> Option<ChargeUnit>
    ensures { result ≡ spec.unit_in text.now }
{
    if text.is_empty() {
        Some(ChargeUnit::Month)
    } else if text == b"$/day".as_slice() {
        Some(ChargeUnit::Day)
    } else if text == b"$/month".as_slice() {
        Some(ChargeUnit::Month)
    } else if text == b"$/year".as_slice() {
        Some(ChargeUnit::Year)
    } else {
        None
    }
}
