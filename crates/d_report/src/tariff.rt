//! The text of a tariff.

ghost use Rattle.std.specs.Prelude.{◌≡◌, ◌++◌, IfOk, OnOk};
ghost use Rattle.d_table.specs.Table.{cell_in, row_at};
ghost use Rattle.d_tariff.specs.Shown.{terms_of};
ghost use Rattle.d_report.specs.Tariffs as spec;

use crate::hours::{put_hours, put_months};
use crate::lines::{put_line, put_line_end, put_word};
use crate::periods::put_periods;
use crate::shown::put_shown;
use d_num::NoMemory;
use d_table::Table;
use d_tariff::{Charge, ChargeUnit, Tariff};
use d_text::money_text;
use std::alloc::Global;

/// The text of the tariff of a record of that label, with the names of the columns of the record's table that the tariff leaves out.
/// Energy is in Wh, power in W, money in USD, prices in USD per kWh or per kW, and the fractions of an earlier peak are in units of
/// 10^-20.
pub fn tariff_text(
    alloc: Global,
    table: &Table,
    label: &str,
    tariff: &Tariff,
) -> Result<Vec<u8>, NoMemory>
    ensures { IfOk result (λ text. text.items ≡ spec.tariff_text table.now label.now (terms_of tariff.now)) }
{
    let mut text = Vec::new(alloc);
    put_front(&mut text, label, tariff.hourly)?;
    put_terms(&mut text, tariff)?;
    put_ignored(&mut text, table, tariff.ignored.as_slice())?;
    Ok(text)
}

/// Adds the lines before those of periods: what is answered, the record's label, and how energy is settled.
fn put_front(text: &mut Vec<u8>, label: &str, hourly: bool) -> Result<(), NoMemory>
    ensures { OnOk result (text.new.items ≡ text.old.items ++ spec.front_lines label.now hourly) }
{
    put_line(text, "dispatch tariff", "")?;
    put_line(text, "label ", label)?;
    put_rule(text, hourly)
}

/// Adds the line of how energy is settled.
fn put_rule(text: &mut Vec<u8>, hourly: bool) -> Result<(), NoMemory>
    ensures { OnOk result (text.new.items ≡ text.old.items ++ spec.rule_line hourly) }
{
    if hourly {
        put_line(text, "rule hourly", "")
    } else {
        put_line(text, "rule instantaneous", "")
    }
}

/// Adds the lines of what a tariff says.
fn put_terms(text: &mut Vec<u8>, tariff: &Tariff) -> Result<(), NoMemory>
    ensures { OnOk result (text.new.items ≡ text.old.items ++ spec.terms_lines (terms_of tariff.now)) }
{
    put_periods(text, tariff)?;
    put_hours(text, tariff)?;
    put_months(text, tariff)?;
    put_charges(text, tariff)
}

/// Adds the lines of the fixed charge and of the least that a bill is.
fn put_charges(text: &mut Vec<u8>, tariff: &Tariff) -> Result<(), NoMemory>
    ensures { OnOk result (text.new.items ≡ text.old.items ++ spec.charge_lines (terms_of tariff.now)) }
{
    put_charge(text, "fixed ", tariff.fixed)?;
    put_minimum(text, tariff.minimum)
}

/// Adds the line of the least that a bill is.
fn put_minimum(text: &mut Vec<u8>, minimum: Option<Charge>) -> Result<(), NoMemory>
    ensures { OnOk result (text.new.items ≡ text.old.items ++ spec.minimum_charge_line minimum) }
{
    match minimum {
        Some(charge) => put_charge(text, "minimum ", charge),
        None => put_line(text, "minimum none", ""),
    }
}

/// Adds the line of a charge.
fn put_charge(text: &mut Vec<u8>, word: &str, charge: Charge) -> Result<(), NoMemory>
    ensures { OnOk result (text.new.items ≡ text.old.items ++ spec.charge_line word.now charge) }
{
    let mut room = [0; 64];
    let length = money_text(charge.amount, &mut room);
    text.extend_from_slice(word.as_bytes())?;
    text.extend_from_slice(&room[..length])?;
    put_line(text, unit_word(charge.unit), "")
}

/// How often a charge is made, behind a blank.
fn unit_word(unit: ChargeUnit) -> &'static str
    ensures { result.now ≡ spec.unit_text unit }
{
    match unit {
        ChargeUnit::Day => " day",
        ChargeUnit::Month => " month",
        ChargeUnit::Year => " year",
    }
}

/// Adds a line for each of these columns of a table.
fn put_ignored(text: &mut Vec<u8>, table: &Table, columns: &[usize]) -> Result<(), NoMemory>
    ensures { OnOk result (text.new.items ≡ text.old.items ++ spec.ignored_lines table.now columns.now) }
{
    for column in columns {
        put_column(text, table, *column)?;
    }
    Ok(())
}

/// Adds the line of a column that is left out.
fn put_column(text: &mut Vec<u8>, table: &Table, column: usize) -> Result<(), NoMemory>
    ensures { OnOk result (text.new.items ≡ text.old.items ++ spec.ignored_line table.now column) }
{
    put_word(text, "ignored ")?;
    put_shown(text, name_of(table, column))?;
    put_line_end(text)
}

/// The header's cell of a column; no bytes where there is no such column.
fn name_of(table: &Table, column: usize) -> &[u8]
    ensures { result.now ≡ cell_in (row_at table.now 0) column }
{
    if column < table.columns() {
        table.name(column)
    } else {
        &[]
    }
}
