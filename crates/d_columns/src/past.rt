//! Tiers past the last one that a period has room for.

ghost use Rattle.std.specs.Prelude.{◌≡◌, ◌↔◌, ◌+◌, ◌<◌, ◌≤◌, ℕ, true, nat_lt, IsTrue, IfOk, Some, length};
ghost use Rattle.std.specs.Str.{str_to_ascii_lowercase};
ghost use Rattle.std.specs.Str.Parse.{digits_value};
ghost use Rattle.d_table.specs.Table.{column_of, cell_in, row_at};
ghost use Rattle.d_columns.specs.Names.{IsTierNumber, IsPastLast};
ghost use Rattle.d_columns.specs.Tiers.{data_row, has_part};
ghost use Rattle.d_columns.specs.Past.{PartCell, IsPastLastFound, IsPastPart, IsPastCell, IsFirstPast, order_of, sooner};

use crate::names::{Part, Structure};
use crate::reading::{TierName, read_tier_name};
use d_num::NoMemory;
use d_table::Table;
use std::alloc::Global;
use std::marker::Model;

/// A cell of a tier past the last. A contract sees the tier's number in place of its digits.
#[derive(Drop)]
struct PastCell<'a> {
    column: usize,
    tier: &'a [u8],
    part: Part,
}

impl<'a> Model for PastCell<'a> {
    ghost use Rattle.std.specs.Str.Parse.{digits_value};
    ghost use Rattle.d_columns.specs.Names.{IsTierNumber};
    ghost use Rattle.d_columns.specs.Past.{PartCell};

    ghost Value = { PartCell };

    ghost view = { λ cell. record { column = cell.column; tier = digits_value 10 cell.tier.now; part = cell.part } };

    ghost invariant = { λ cell. IsTierNumber cell.tier.now };
}

impl<'a> PastCell<'a> {
    /// Whether it comes before another: its tier is before the other's, or the same and its part is.
    fn is_before(&self, other: &PastCell<'_>) -> bool
        ensures { result ≡ nat_lt (order_of self.now) (order_of other.now) }
    {
        is_below(self.tier, other.tier)
            || self.tier == other.tier && self.part.number() < other.part.number()
    }
}

/// The column of the first filled cell of the least tier past the last that a period has, or None exactly where it has none.
pub(crate) fn past_last_column(
    alloc: Global,
    table: &Table,
    row: usize,
    structure: Structure,
    period: u8,
) -> Result<Option<usize>, NoMemory>
    requires row { row + 1 < length table.now }
    requires period { period ≤ 35 }
    ensures { IfOk result (IsPastLastFound (data_row table.now row) structure period) }
{
    let mut first = None;
    for column in 0..table.columns() {
        let cell = past_cell(alloc, table, row, structure, period, column)?;
        first = sooner(first, cell);
    }
    Ok(first.map(|cell| cell.column))
}

/// The cell in a column, if it is one of a tier past the last of the period and isn't empty.
fn past_cell(
    alloc: Global,
    table: &Table,
    row: usize,
    structure: Structure,
    period: u8,
    column: usize,
) -> Result<Option<PastCell<'_>>, NoMemory>
    requires row { row + 1 < length table.now }
    requires period { period ≤ 35 }
    requires column { column < length (row_at table.now 0) }
    ensures { IfOk result (λ found. (cell : PartCell) →
        (found ≡ Some cell) ↔ ((cell.column ≡ column) × IsPastCell (data_row table.now row) structure period cell)) }
{
    let Some(name) = read_tier_name(table.name(column)) else {
        return Ok(None);
    };
    if !is_past(&name, structure, period) {
        return Ok(None);
    }
    if table.cell(row, column).is_empty() {
        return Ok(None);
    }
    if !is_first_of_name(alloc, table, column)? {
        return Ok(None);
    }
    Ok(Some(PastCell {
        column,
        tier: name.tier,
        part: name.part,
    }))
}

/// Whether a name is that of a part of a tier past the last of the period.
fn is_past(name: &TierName<'_>, structure: Structure, period: u8) -> bool
    requires { IsTierNumber name.now.tier.now }
    ensures { IsTrue result ↔ IsPastPart structure period name.now }
{
    name.structure == structure
        && name.period == period
        && structure.has_part(name.part)
        && name.number().is_none()
}

/// Whether no column before this one has its name, ASCII case ignored.
fn is_first_of_name(alloc: Global, table: &Table, column: usize) -> Result<bool, NoMemory>
    requires { column < length (row_at table.now 0) }
    ensures { IfOk result (λ first. IsTrue first
        ↔ (column_of (str_to_ascii_lowercase (cell_in (row_at table.now 0) column)) (row_at table.now 0) ≡ Some column)) }
{
    let mut name = table.name(column).to_vec(alloc)?;
    name.as_mut_slice().make_ascii_lowercase();
    Ok(table.position(name.as_slice()) == Some(column))
}

/// The one of two cells that comes first.
fn sooner<'a>(first: Option<PastCell<'a>>, cell: Option<PastCell<'a>>) -> Option<PastCell<'a>>
    ensures { result ≡ sooner first.entry cell.entry }
{
    let Some(next) = cell else {
        return first;
    };
    let Some(before) = first else {
        return Some(next);
    };
    if next.is_before(&before) {
        Some(next)
    } else {
        Some(before)
    }
}

/// Whether a tier's number is below another, each told by its digits.
fn is_below(digits: &[u8], other: &[u8]) -> bool
    requires digits { IsTierNumber digits.now }
    requires other { IsTierNumber other.now }
    ensures { IsTrue result ↔ (digits_value 10 digits.now < digits_value 10 other.now) }
{
    if digits.len() != other.len() {
        return digits.len() < other.len();
    }
    for place in 0..digits.len() {
        if digits[place] != other[place] {
            return digits[place] < other[place];
        }
    }
    false
}
