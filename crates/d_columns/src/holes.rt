//! Tiers that are there without the one before them.

ghost use Rattle.std.specs.Prelude.{◌≡◌, ◌≤◌, IfOk};
ghost use Rattle.d_columns.specs.Holes.{IsHoleFound, IsInnerHole};
ghost use Rattle.d_columns.specs.Shown.{row_of};
ghost use Rattle.d_columns.specs.Tiers.{is_hole};

use crate::cells::Cells;
use crate::names::{Structure, TIERS};
use crate::past::past_last_column;
use d_num::NoMemory;
use std::alloc::Global;

impl<'a> Cells<'a> {
    /// The column of the first filled cell of the least tier that is there without the one before it, or None exactly where there is no such
    /// tier. A period has room for 16 tiers, and each one past those counts as such.
    pub fn first_hole(
        &self,
        alloc: Global,
        structure: Structure,
        period: u8,
    ) -> Result<Option<usize>, NoMemory>
        requires { period ≤ 35 }
        ensures { IfOk result (IsHoleFound (row_of self.now) structure period) }
    {
        if let Some(tier) = self.inner_hole(structure, period) {
            return Ok(self.first_filled(structure, period, tier));
        }
        if self.index.may_pass_last(structure, period) {
            return past_last_column(alloc, self.table, self.row, structure, period);
        }
        Ok(None)
    }

    /// The least of the tiers 1 to 15 that is there without the one before it.
    fn inner_hole(&self, structure: Structure, period: u8) -> Option<u8>
        requires { period ≤ 35 }
        ensures { IsInnerHole (row_of self.now) structure period result }
    {
        for tier in 1..TIERS {
            if self.is_hole(structure, period, tier) {
                return Some(tier);
            }
        }
        None
    }

    /// Whether one of the tiers 1 to 15 is there without the one before it.
    fn is_hole(&self, structure: Structure, period: u8, tier: u8) -> bool
        requires period { period ≤ 35 }
        requires tier { (1 ≤ tier) × (tier ≤ 15) }
        ensures { result ≡ is_hole (row_of self.now) structure period tier }
    {
        let before = self.has_tier(structure, period, tier - 1);
        self.has_tier(structure, period, tier) && !before
    }
}
