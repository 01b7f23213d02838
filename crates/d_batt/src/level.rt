//! The levels of a battery and its limits of the grid.

ghost use Rattle.std.specs.Prelude.{◌≡◌, ◌^◌, ◌-◌, ◌<◌, ◌≤◌, ℤ, pos, codes, length, IfOk, IfSome};
ghost use Rattle.d_num.specs.Amount.{IsUpTo};
ghost use Rattle.d_table.specs.Table.{row_at};
ghost use Rattle.d_batt.specs.BatteryFile as spec;
ghost use Rattle.d_batt.specs.Checks.{Checks};
ghost use Rattle.d_batt.specs.Kinds.{first_named, setting_name, setting_limit};
ghost use Rattle.d_batt.specs.Levels.{AreLevels};
ghost use Rattle.d_batt.specs.Numbers.{Reads};

use crate::battery::MOST_LIMIT;
use crate::fault::BatteryFault;
use crate::number::read_whole;
use crate::row::find_row;
use crate::setting::{Setting, setting_within};
use d_num::Wh;
use d_table::Table;

/// The levels of a battery, in steps.
#[derive(Clone, Copy)]
pub struct Levels {
    /// The greatest level.
    pub capacity: u8,
    /// The least level.
    pub floor: u8,
    /// The level at the month's start.
    pub start: u8,
    /// The least level at the month's end.
    pub end: u8,
}

/// The levels that the rows set, or why they are refused.
pub(crate) fn read_levels(table: &Table) -> Result<Levels, BatteryFault>
    requires columns { length (row_at table.now 0) ≡ 6 }
    ensures refusals { Checks (λ reader. spec.level_refusals reader table.now) result }
    ensures levels { IfOk result (AreLevels table.now) }
{
    if value_of(table, Setting::Capacity).is_none() {
        return Err(BatteryFault::Missing);
    }
    let capacity = level(table, Setting::Capacity, 0);
    let floor = level(table, Setting::Floor, 0);
    let start = level(table, Setting::Start, floor);
    let end = level(table, Setting::End, start);
    if floor > capacity {
        return Err(out_of_range(table, Setting::Floor));
    }
    if is_outside(start, floor, capacity) {
        return Err(out_of_range(table, Setting::Start));
    }
    if end > capacity {
        return Err(out_of_range(table, Setting::End));
    }
    Ok(Levels {
        capacity,
        floor,
        start,
        end,
    })
}

/// Whether a level is below the floor or above the capacity.
fn is_outside(level: u8, floor: u8, capacity: u8) -> bool
    ensures { result ≡ spec.is_outside level floor capacity }
{
    level < floor || level > capacity
}

/// The fault of a setting that is out of its range, by its row.
fn out_of_range(table: &Table, setting: Setting) -> BatteryFault
    requires columns { length (row_at table.now 0) ≡ 6 }
    ensures { result ≡ BatteryFault.Range (spec.row_of table.now setting) }
{
    BatteryFault::Range(setting_row(table, setting).unwrap_or(0) as u64)
}

/// The first row that sets it.
fn setting_row(table: &Table, setting: Setting) -> Option<usize>
    requires columns { length (row_at table.now 0) ≡ 6 }
    ensures value { result ≡ first_named table.now (length table.now - 1) (codes "set") (setting_name setting) }
    ensures within { IfSome result (λ row. row < length table.now - 1) }
{
    find_row(table, table.rows(), b"set", setting.name())
}

/// The number that the first row of a setting gives it, where that is in its range.
fn value_of(table: &Table, setting: Setting) -> Option<i64>
    requires columns { length (row_at table.now 0) ≡ 6 }
    ensures value { Reads (λ reader. spec.value_of reader table.now setting) result }
    ensures range { IfSome result (IsUpTo (setting_limit setting)) }
{
    let row = setting_row(table, setting)?;
    setting_within(read_whole(table.cell(row, 2)), setting)
}

/// A level, or the one that stands for it where no row sets it.
fn level(table: &Table, setting: Setting, absent: u8) -> u8
    requires columns { length (row_at table.now 0) ≡ 6 }
    requires level { setting_limit setting ≡ 255 }
    ensures { Reads (λ reader. spec.level reader table.now setting absent) result }
{
    match value_of(table, setting) {
        Some(level) => level as u8,
        None => absent,
    }
}

/// A limit of the grid; 10^10 Wh where no row sets it.
pub(crate) fn grid_limit(table: &Table, setting: Setting) -> Wh
    requires columns { length (row_at table.now 0) ≡ 6 }
    ensures { Reads (λ reader. spec.grid_limit reader table.now setting) result }
{
    let limit = value_of(table, setting).unwrap_or(MOST_LIMIT);
    match Wh::new(limit) {
        Some(limit) => limit,
        None => unreachable!(),
    }
}
