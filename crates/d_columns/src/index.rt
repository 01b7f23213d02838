//! Where the columns of tiers are.

ghost use Rattle.std.specs.Prelude.{◌≡◌, ◌≢◌, ℕ, ◌+◌, ◌<◌, ◌≤◌, true, false, Some, None, IfOk, IfSome, length, slice_index_or};
ghost use Rattle.d_table.specs.Table.{row_at};
ghost use Rattle.d_columns.specs.Tiers.{Row, data_row, part_column, has_tier};
ghost use Rattle.d_columns.specs.Index as spec;

use crate::names::{PERIODS, Part, Structure, TIERS};
use crate::reading::read_tier_name;
use d_num::NoMemory;
use d_table::Table;
use std::alloc::Global;
use std::marker::Model;

// Parts of a tier.
const PARTS: usize = 5;

// The periods of all four structures, and the parts of all their tiers.
const ALL_PERIODS: usize = 4 * PERIODS as usize;

const ALL_PARTS: usize = ALL_PERIODS * TIERS as usize * PARTS;

/// Where the columns of the tiers 0 to 15 are, for each period of each structure, and which of the periods may have a tier past those.
#[derive(Drop)]
pub(crate) struct TierIndex {
    columns: Vec<Option<usize>>,
    past_last: Vec<bool>,
}

impl Model for TierIndex {
    ghost use Rattle.std.specs.Prelude.{◌≡◌, length};
    ghost use Rattle.d_columns.specs.Index.{Slots};

    ghost Value = { Slots };

    ghost view = { λ index. record { columns = index.columns.items; marks = index.past_last.items } };

    ghost invariant = { λ index. (length index.columns.items ≡ 11520) × (length index.past_last.items ≡ 144) };
}

impl TierIndex {
    /// The index of a data row of a table, whose columns it goes through once.
    pub(crate) fn new(alloc: Global, table: &Table, row: usize) -> Result<TierIndex, NoMemory>
        requires { row + 1 < length table.now }
        ensures { IfOk result (λ index. spec.IsIndexOf (data_row table.now row) index) }
    {
        let mut index = TierIndex {
            columns: vec![in alloc; None; ALL_PARTS]?,
            past_last: vec![in alloc; false; ALL_PERIODS]?,
        };
        for column in 0..table.columns() {
            index.add_column(table, row, column);
        }
        Ok(index)
    }

    /// The column of a part of a tier, or None exactly where the table has none.
    pub(crate) fn column(
        &self,
        structure: Structure,
        period: u8,
        tier: u8,
        part: Part,
    ) -> Option<usize>
        requires period { period ≤ 35 }
        requires tier { tier ≤ 15 }
        ensures value { (row : Row) → spec.IsIndexOf row self.now → result ≡ part_column row structure period tier part }
        ensures within { (row : Row) → spec.IsIndexOf row self.now → IfSome result (λ column. column < length row.header) }
    {
        self.columns[part_place(structure, period, tier, part)]
    }

    /// Whether a period may have a tier past the last that it has room for, which is 15: false only where it has none.
    pub(crate) fn may_pass_last(&self, structure: Structure, period: u8) -> bool
        requires { period ≤ 35 }
        ensures { (row : Row) → spec.IsIndexOf row self.now → result ≡ false → (tier : ℕ) → 16 ≤ tier → has_tier row structure period tier ≡ false }
    {
        self.past_last[period_place(structure, period)]
    }

    /// Adds what a column says to the index of the columns before it.
    fn add_column(&mut self, table: &Table, row: usize, column: usize)
        requires row { row + 1 < length table.now }
        requires column { column < length (row_at table.now 0) }
        requires before { spec.IsIndexOf (spec.first_columns column (data_row table.now row)) self.old }
        ensures { spec.IsIndexOf (spec.first_columns (column + 1) (data_row table.now row)) self.new }
    {
        let Some(name) = read_tier_name(table.name(column)) else {
            return;
        };
        if !name.structure.has_part(name.part) {
            return;
        }
        match name.number() {
            Some(tier) => self.set_column(name.structure, name.period, tier, name.part, column),
            None => {
                if !table.cell(row, column).is_empty() {
                    self.set_past_last(name.structure, name.period);
                }
            }
        }
    }

    /// Sets the column of a part of a tier, unless it has one.
    fn set_column(&mut self, structure: Structure, period: u8, tier: u8, part: Part, column: usize)
        requires period { period ≤ 35 }
        requires tier { tier ≤ 15 }
        ensures here { spec.KeepsFirst self.old self.new structure period tier part column }
        ensures others { (place : ℕ) → place ≢ spec.part_place structure period tier part
            → slice_index_or self.new.columns place None ≡ slice_index_or self.old.columns place None }
        ensures marks { self.new.marks ≡ self.old.marks }
    {
        let place = part_place(structure, period, tier, part);
        if self.columns[place].is_none() {
            self.columns[place] = Some(column);
        }
    }

    /// Notes that a period may have a tier past the last that it has room for.
    fn set_past_last(&mut self, structure: Structure, period: u8)
        requires { period ≤ 35 }
        ensures here { spec.is_marked self.new structure period ≡ true }
        ensures others { (place : ℕ) → place ≢ spec.period_place structure period
            → slice_index_or self.new.marks place false ≡ slice_index_or self.old.marks place false }
        ensures columns { self.new.columns ≡ self.old.columns }
    {
        self.past_last[period_place(structure, period)] = true;
    }
}

/// The place of a period among the 36 of each structure.
fn period_place(structure: Structure, period: u8) -> usize
    requires { period ≤ 35 }
    ensures value { result ≡ spec.period_place structure period }
    ensures within { result < 144 }
{
    structure.number() * usize::from(PERIODS) + usize::from(period)
}

/// The place of a part among the 5 of each of the 16 tiers of each period.
fn part_place(structure: Structure, period: u8, tier: u8, part: Part) -> usize
    requires period { period ≤ 35 }
    requires tier { tier ≤ 15 }
    ensures value { result ≡ spec.part_place structure period tier part }
    ensures within { result < 11520 }
{
    (period_place(structure, period) * usize::from(TIERS) + usize::from(tier)) * PARTS
        + part.number()
}
