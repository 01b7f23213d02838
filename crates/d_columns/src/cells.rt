//! A record's row and its cells.

ghost use Rattle.std.specs.Prelude.{◌≡◌, ◌+◌, ◌<◌, ◌≤◌, length, IfOk, IfSome};
ghost use Rattle.d_table.specs.Table.{column_of};
ghost use Rattle.d_columns.specs.Names.{cell_at};
ghost use Rattle.d_columns.specs.Tiers.{data_row, named_cell, part_column, part_cell, first_part, has_tier, first_filled, is_filled};
ghost use Rattle.d_columns.specs.Index.{IsIndexOf};

use crate::index::TierIndex;
use crate::names::{Part, Structure};
use d_num::NoMemory;
use d_table::Table;
use std::alloc::Global;

/// The cells of a data row of a table, and where the columns of its tiers are.
#[derive(Drop)]
pub struct Cells<'a> {
    pub(crate) table: &'a Table,
    pub(crate) row: usize,
    pub(crate) index: TierIndex,
    ghost there: { row + 1 < length table.now },
    ghost indexed: { IsIndexOf (data_row table.now row) index },
}

impl<'a> Cells<'a> {
    ghost use Rattle.d_columns.specs.Shown.{row_of};

    /// The cells of a data row, counted from 0. It goes through the columns once.
    pub fn new(alloc: Global, table: &'a Table, row: usize) -> Result<Cells<'a>, NoMemory>
        requires { row + 1 < length table.now }
        ensures { IfOk result (λ cells. row_of cells ≡ data_row table.now row) }
    {
        let index = TierIndex::new(alloc, table, row)?;
        Ok(Cells { table, row, index })
    }

    /// How many columns there are.
    pub fn columns(&self) -> usize
        ensures { result ≡ length (row_of self.now).header }
    {
        self.table.columns()
    }

    /// The column of that name; the name is in small letters.
    pub fn position(&self, name: &[u8]) -> Option<usize>
        ensures value { result ≡ column_of name.now (row_of self.now).header }
        ensures within { IfSome result (λ column. column < length (row_of self.now).header) }
    {
        self.table.position(name)
    }

    /// The cell in a column, or no bytes where there is none.
    fn cell(&self, column: Option<usize>) -> &[u8]
        requires { IfSome column (λ column. column < length (row_of self.now).header) }
        ensures { result.now ≡ cell_at column (row_of self.now).cells }
    {
        match column {
            Some(column) => self.table.cell(self.row, column),
            None => b"",
        }
    }

    /// The cell in the column of that name; the name is in small letters.
    pub fn named_cell(&self, name: &[u8]) -> &[u8]
        ensures { result.now ≡ named_cell (row_of self.now) name.now }
    {
        self.cell(self.position(name))
    }

    /// The column of a part of a tier.
    pub fn part_column(
        &self,
        structure: Structure,
        period: u8,
        tier: u8,
        part: Part,
    ) -> Option<usize>
        requires period { period ≤ 35 }
        requires tier { tier ≤ 15 }
        ensures value { result ≡ part_column (row_of self.now) structure period tier part }
        ensures within { IfSome result (λ column. column < length (row_of self.now).header) }
    {
        self.index.column(structure, period, tier, part)
    }

    /// The cell of a part of a tier.
    pub fn part_cell(&self, structure: Structure, period: u8, tier: u8, part: Part) -> &[u8]
        requires period { period ≤ 35 }
        requires tier { tier ≤ 15 }
        ensures { result.now ≡ part_cell (row_of self.now) structure period tier part }
    {
        self.cell(self.part_column(structure, period, tier, part))
    }

    /// Whether that part of a tier is filled.
    pub fn is_filled(&self, structure: Structure, period: u8, tier: u8, part: Part) -> bool
        requires period { period ≤ 35 }
        requires tier { tier ≤ 15 }
        ensures { result ≡ is_filled (part_cell (row_of self.now) structure period tier part) }
    {
        !self.part_cell(structure, period, tier, part).is_empty()
    }

    /// The first filled part of a tier.
    fn first_part(&self, structure: Structure, period: u8, tier: u8) -> Option<Part>
        requires period { period ≤ 35 }
        requires tier { tier ≤ 15 }
        ensures { result ≡ first_part (row_of self.now) structure period tier }
    {
        if self.is_filled(structure, period, tier, Part::Max) {
            return Some(Part::Max);
        }
        if self.is_filled(structure, period, tier, Part::Unit) {
            return Some(Part::Unit);
        }
        if self.is_filled(structure, period, tier, Part::Rate) {
            return Some(Part::Rate);
        }
        if self.is_filled(structure, period, tier, Part::Adj) {
            return Some(Part::Adj);
        }
        if self.is_filled(structure, period, tier, Part::Sell) {
            return Some(Part::Sell);
        }
        None
    }

    /// Whether a tier is there, that is, one of its parts is filled.
    pub fn has_tier(&self, structure: Structure, period: u8, tier: u8) -> bool
        requires period { period ≤ 35 }
        requires tier { tier ≤ 15 }
        ensures { result ≡ has_tier (row_of self.now) structure period tier }
    {
        self.first_part(structure, period, tier).is_some()
    }

    /// The column of the first filled part of a tier.
    #[tactic(auto, unfolding(crate::specs::Tiers::first_filled))]
    pub(crate) fn first_filled(&self, structure: Structure, period: u8, tier: u8) -> Option<usize>
        requires period { period ≤ 35 }
        requires tier { tier ≤ 15 }
        ensures { result ≡ first_filled (row_of self.now) structure period tier }
    {
        match self.first_part(structure, period, tier) {
            Some(part) => self.part_column(structure, period, tier, part),
            None => None,
        }
    }
}
