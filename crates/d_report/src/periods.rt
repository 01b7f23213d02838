//! The lines of a tariff's periods and their tiers.

ghost use Rattle.std.specs.Prelude.{◌≡◌, ◌++◌, option_map, OnOk};
ghost use Rattle.d_tariff.specs.Shown.{terms_of};
ghost use Rattle.d_report.specs.Tariffs as spec;

use crate::lines::{put_line_end, put_number, put_rate, put_word};
use d_bill::PERIODS;
use d_num::{NoMemory, Rate};
use d_tariff::{Period, Periods, Tariff, TierLists};
use d_tier::Tiers;

/// Adds the lines of all energy periods, all demand periods and all flat demand periods that are there.
pub(crate) fn put_periods(text: &mut Vec<u8>, tariff: &Tariff) -> Result<(), NoMemory>
    ensures { OnOk result (text.new.items ≡ text.old.items ++ spec.all_period_lines (terms_of tariff.now)) }
{
    put_energy_periods(text, &tariff.energy)?;
    put_demand_periods(text, "demand ", &tariff.demand)?;
    put_demand_periods(text, "flat ", &tariff.flat)
}

/// Adds the lines of all energy periods that are there.
fn put_energy_periods(text: &mut Vec<u8>, periods: &Periods) -> Result<(), NoMemory>
    ensures { OnOk result (text.new.items ≡ text.old.items ++ spec.energy_periods periods.now) }
{
    for number in 0..PERIODS {
        put_energy(text, number, periods.entry(number))?;
    }
    Ok(())
}

/// Adds the lines of an energy period, or nothing where it isn't there.
fn put_energy(text: &mut Vec<u8>, number: u8, period: Option<&Period>) -> Result<(), NoMemory>
    ensures { OnOk result (text.new.items ≡ text.old.items ++ spec.energy_lines number (option_map (λ p. p.now) period.entry)) }
{
    match period {
        Some(period) => {
            put_number(text, "energy ", i128::from(number))?;
            put_rate(text, " sell ", period.sell)?;
            put_tiers(text, &period.tiers)
        }
        None => Ok(()),
    }
}

/// Adds the lines of all demand periods of a kind that are there.
fn put_demand_periods(text: &mut Vec<u8>, word: &str, lists: &TierLists) -> Result<(), NoMemory>
    ensures { OnOk result (text.new.items ≡ text.old.items ++ spec.demand_periods word.now lists.now) }
{
    for number in 0..PERIODS {
        put_demand(text, word, number, lists.entry(number))?;
    }
    Ok(())
}

/// Adds the lines of a demand period, or nothing where it has no tiers.
fn put_demand(
    text: &mut Vec<u8>,
    word: &str,
    number: u8,
    tiers: Option<&Tiers>,
) -> Result<(), NoMemory>
    ensures { OnOk result (text.new.items ≡ text.old.items ++ spec.demand_lines word.now number (option_map (λ t. t.now) tiers.entry)) }
{
    match tiers {
        Some(tiers) => {
            put_number(text, word, i128::from(number))?;
            put_line_end(text)?;
            put_tiers(text, tiers)
        }
        None => Ok(()),
    }
}

/// Adds the lines of a table of tiers.
fn put_tiers(text: &mut Vec<u8>, tiers: &Tiers) -> Result<(), NoMemory>
    ensures { OnOk result (text.new.items ≡ text.old.items ++ spec.tier_lines tiers.now) }
{
    for tier in 0..tiers.count() {
        put_tier(text, tier, tiers.end(tier), tiers.price(tier))?;
    }
    Ok(())
}

/// Adds the line of a tier.
fn put_tier(text: &mut Vec<u8>, tier: usize, end: Option<i64>, price: Rate) -> Result<(), NoMemory>
    ensures { OnOk result (text.new.items ≡ text.old.items ++ spec.tier_line tier end price) }
{
    put_number(text, "tier ", tier as i128)?;
    put_end(text, end)?;
    put_rate(text, " price ", price)
}

/// Adds the end of a tier, in Wh or W.
fn put_end(text: &mut Vec<u8>, end: Option<i64>) -> Result<(), NoMemory>
    ensures { OnOk result (text.new.items ≡ text.old.items ++ spec.end_text end) }
{
    match end {
        Some(end) => put_number(text, " end ", i128::from(end)),
        None => put_word(text, " end none"),
    }
}
