//! A battery.

ghost use Rattle.d_batt.specs.Storage.{IsStorage};

use crate::mode::{ModeList, copied_modes};
use d_num::{NoMemory, Wh};
use std::alloc::Global;

/// What both limits of the grid are where a battery's file sets none, in Wh.
pub const MOST_LIMIT: i64 = 10_000_000_000;

/// A battery: its levels, the limits of import and export in an interval, and its modes.
#[derive(Drop)]
pub struct Battery {
    /// The highest level, from 0 to 255.
    pub capacity: u8,
    /// The lowest level, at most `start`.
    pub floor: u8,
    /// The level at the month's start, from `floor` to `capacity`.
    pub start: u8,
    /// The least level at the month's end, at most `capacity`.
    pub end: u8,
    /// The greatest import of an interval, from 0 to 10^10 Wh.
    pub max_import: Wh,
    /// The greatest export of an interval, from 0 to 10^10 Wh.
    pub max_export: Wh,
    /// What it can do in an interval: 1 to 64 modes of different names.
    pub modes: ModeList,
    pub ghost in_range: { IsStorage (record { floor = floor; capacity = capacity; start = start; end = end; max_import = max_import; max_export = max_export; modes = modes }) },
}

impl Battery {
    ghost use Rattle.std.specs.Prelude.{◌≡◌, IfOk};
    ghost use Rattle.d_batt.specs.Shown.{storage_of};

    /// The same battery once more, in memory of its own.
    pub fn copied(&self, alloc: Global) -> Result<Battery, NoMemory>
        ensures { IfOk result (λ b. storage_of b ≡ storage_of self.now) }
    {
        let modes = copied_modes(alloc, &self.modes)?;
        Ok(Battery {
            capacity: self.capacity,
            floor: self.floor,
            start: self.start,
            end: self.end,
            max_import: self.max_import,
            max_export: self.max_export,
            modes,
        })
    }
}
