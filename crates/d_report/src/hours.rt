//! The lines of a tariff's hours and months.

ghost use Rattle.std.specs.Prelude.{◌≡◌, ◌++◌, ◌+◌, ◌≤◌, ◌<◌, ◌^◌, pos, All, OnOk};
ghost use Rattle.d_text.specs.Text.{whole_text};
ghost use Rattle.d_tariff.specs.Shown.{terms_of};
ghost use Rattle.d_report.specs.Tariffs as spec;

use crate::lines::{put_line_end, put_number, put_word};
use d_num::NoMemory;
use d_tariff::Tariff;

/// Adds the lines of the four grids of hours.
pub(crate) fn put_hours(text: &mut Vec<u8>, tariff: &Tariff) -> Result<(), NoMemory>
    ensures { OnOk result (text.new.items ≡ text.old.items ++ spec.hour_lines (terms_of tariff.now)) }
{
    put_grid(text, "energy weekday ", tariff.energy_hours.weekday())?;
    put_grid(text, "energy weekend ", tariff.energy_hours.weekend())?;
    put_grid(text, "demand weekday ", tariff.demand_hours.weekday())?;
    put_grid(text, "demand weekend ", tariff.demand_hours.weekend())
}

/// Adds the lines of the lists of months: the flat demand periods, and the fractions of an earlier peak.
pub(crate) fn put_months(text: &mut Vec<u8>, tariff: &Tariff) -> Result<(), NoMemory>
    ensures { OnOk result (text.new.items ≡ text.old.items ++ spec.month_lines (terms_of tariff.now)) }
{
    put_word(text, "flat months")?;
    put_numbers(text, &tariff.flat_months)?;
    put_word(text, "ratchet")?;
    put_fractions(text, &tariff.ratchet)
}

/// Adds a line for each month of a grid of hours.
fn put_grid(text: &mut Vec<u8>, word: &str, grid: &[[u8; 24]; 12]) -> Result<(), NoMemory>
    ensures { OnOk result (text.new.items ≡ text.old.items ++ spec.grid_lines word.now grid.now) }
{
    for month in 0..12 {
        put_month(text, word, month, &grid[month])?;
    }
    Ok(())
}

/// Adds the line of a month, counted from 0.
fn put_month(text: &mut Vec<u8>, word: &str, month: usize, hours: &[u8; 24]) -> Result<(), NoMemory>
    requires { month < 12 }
    ensures { OnOk result (text.new.items ≡ text.old.items
        ++ (word.now ++ (whole_text (pos (month + 1)) ++ spec.numbers_line hours.now))) }
{
    put_number(text, word, (month + 1) as i128)?;
    put_numbers(text, hours)
}

/// Adds the end of a line from these numbers on, each behind a blank.
fn put_numbers(text: &mut Vec<u8>, numbers: &[u8]) -> Result<(), NoMemory>
    ensures { OnOk result (text.new.items ≡ text.old.items ++ spec.numbers_line numbers.now) }
{
    for number in numbers {
        put_number(text, " ", i128::from(*number))?;
    }
    put_line_end(text)
}

/// Adds the end of a line from these fractions on, each behind a blank, in units of 10^-20.
fn put_fractions(text: &mut Vec<u8>, fractions: &[u128]) -> Result<(), NoMemory>
    requires { All (λ fraction. fraction ≤ 10 ^ 20) fractions.now }
    ensures { OnOk result (text.new.items ≡ text.old.items ++ spec.numbers_line fractions.now) }
{
    for fraction in fractions {
        put_number(text, " ", *fraction as i128)?;
    }
    put_line_end(text)
}
