//! The rows of a battery file.

ghost use Rattle.std.specs.Prelude.{◌≡◌, ◌+◌, ◌-◌, ◌<◌, ◌≤◌, ℤ, length, true, IsTrue, IfOk, IfSome, OnOk};
ghost use Rattle.d_table.specs.Table.{row_at, cell_in};
ghost use Rattle.d_batt.specs.BatteryFile as spec;
ghost use Rattle.d_batt.specs.Checks.{Checks};
ghost use Rattle.d_batt.specs.Kinds.{is_mode_name, is_named, first_named, cells_at};
ghost use Rattle.d_batt.specs.Numbers.{Reads};

use crate::fault::BatteryFault;
use crate::kind::{Kind, kind_of};
use crate::mode::{Mode, ModeList};
use crate::name::Name;
use crate::number::{change_within, grid_within, is_unread, level_within, read_level, read_whole};
use crate::setting::{Setting, setting_within};
use d_table::Table;
use d_text::DecimalFault;
use std::alloc::Global;

const MOST_MODES: usize = 64;

/// The modes of all rows in order, or the first refusal of a row.
pub(crate) fn read_rows(alloc: Global, table: &Table) -> Result<ModeList, BatteryFault>
    requires columns { length (row_at table.now 0) ≡ 6 }
    ensures refusals { Checks (λ reader. spec.rows_refusals reader table.now) result }
    ensures modes { IfOk result (Reads (λ reader. spec.modes reader table.now (length table.now - 1))) }
{
    let mut modes = ModeList::new(alloc);
    for row in 0..table.rows() {
        read_row(table, row, &mut modes)?;
    }
    Ok(modes)
}

/// Tests a row, and adds its mode where it has one.
fn read_row(table: &Table, row: usize, modes: &mut ModeList) -> Result<(), BatteryFault>
    requires row { row + 1 < length table.now }
    requires columns { length (row_at table.now 0) ≡ 6 }
    requires modes { Reads (λ reader. spec.modes reader table.now row) modes.old }
    ensures refusals { Checks (λ reader. spec.row_refusals reader table.now row) result }
    ensures modes { OnOk result (Reads (λ reader. spec.modes reader table.now (row + 1)) modes.new) }
{
    let kind = table.cell(row, 0);
    let name = table.cell(row, 1);
    let Some(says) = kind_of(kind, name) else {
        return Err(BatteryFault::Unknown(row as u64));
    };
    if find_row(table, row, kind, name).is_some() {
        return Err(BatteryFault::Twice(row as u64));
    }
    match says {
        Kind::Sets(setting) => check_setting(table, row, setting),
        Kind::HasMode => add_mode(table, row, modes),
    }
}

/// The first of so many rows that has this kind and name.
pub(crate) fn find_row(table: &Table, count: usize, kind: &[u8], name: &[u8]) -> Option<usize>
    requires count { count ≤ length table.now - 1 }
    requires columns { length (row_at table.now 0) ≡ 6 }
    ensures value { result ≡ first_named table.now count kind.now name.now }
    ensures within { IfSome result (λ row. row < count) }
{
    for row in 0..count {
        if has_name(table, row, kind, name) {
            return Some(row);
        }
    }
    None
}

/// Whether a row has this kind and name.
fn has_name(table: &Table, row: usize, kind: &[u8], name: &[u8]) -> bool
    requires row { row + 1 < length table.now }
    requires columns { length (row_at table.now 0) ≡ 6 }
    ensures { result ≡ is_named kind.now name.now (cells_at table.now row) }
{
    table.cell(row, 0) == kind && table.cell(row, 1) == name
}

/// Tests the number of a row that sets it.
fn check_setting(table: &Table, row: usize, setting: Setting) -> Result<(), BatteryFault>
    requires row { row + 1 < length table.now }
    requires columns { length (row_at table.now 0) ≡ 6 }
    ensures { Checks (λ reader. spec.setting_refusals reader table.now row setting) result }
{
    let number = read_whole(table.cell(row, 2));
    if is_unread(number) {
        return Err(BatteryFault::Number(row as u64));
    }
    if setting_within(number, setting).is_none() {
        return Err(BatteryFault::Range(row as u64));
    }
    Ok(())
}

/// Tests a row that has a mode, and adds the mode.
fn add_mode(table: &Table, row: usize, modes: &mut ModeList) -> Result<(), BatteryFault>
    requires row { row + 1 < length table.now }
    requires columns { length (row_at table.now 0) ≡ 6 }
    requires name { is_mode_name (cell_in (row_at table.now (row + 1)) 1) ≡ true }
    requires modes { Reads (λ reader. spec.modes reader table.now row) modes.old }
    ensures refusals { Checks (λ reader. spec.mode_refusals reader table.now row) result }
    ensures modes { OnOk result (Reads (λ reader. spec.with_mode reader table.now row) modes.new) }
{
    let mode = read_mode(table, row)?;
    if modes.len() >= MOST_MODES {
        return Err(BatteryFault::TooMany(row as u64));
    }
    modes.add(mode)?;
    Ok(())
}

/// The mode of a row that has one.
fn read_mode(table: &Table, row: usize) -> Result<Mode, BatteryFault>
    requires row { row + 1 < length table.now }
    requires columns { length (row_at table.now 0) ≡ 6 }
    requires name { is_mode_name (cell_in (row_at table.now (row + 1)) 1) ≡ true }
    ensures refusals { Checks (λ reader. spec.number_refusals reader table.now row) result }
    ensures mode { IfOk result (λ mode. Reads (λ reader. spec.mode_in reader (cells_at table.now row)) (Some mode)) }
{
    let change = read_whole(table.cell(row, 2));
    let grid = read_whole(table.cell(row, 3));
    let low = read_level(table.cell(row, 4), 0);
    let high = read_level(table.cell(row, 5), 255);
    if are_unread(change, grid, low, high) {
        return Err(BatteryFault::Number(row as u64));
    }
    match mode_of(table.cell(row, 1), change, grid, low, high) {
        Some(mode) => Ok(mode),
        None => Err(BatteryFault::Range(row as u64)),
    }
}

/// Whether one of the numbers of a mode can't be read.
fn are_unread(
    change: Result<i64, DecimalFault>,
    grid: Result<i64, DecimalFault>,
    low: Result<i64, DecimalFault>,
    high: Result<i64, DecimalFault>,
) -> bool
    ensures { result ≡ spec.are_unread change grid low high }
{
    is_unread(change) || is_unread(grid) || is_unread(low) || is_unread(high)
}

/// The mode of a name and numbers, or None where a number is out of its range.
fn mode_of(
    name: &[u8],
    change: Result<i64, DecimalFault>,
    grid: Result<i64, DecimalFault>,
    low: Result<i64, DecimalFault>,
    high: Result<i64, DecimalFault>,
) -> Option<Mode>
    requires { is_mode_name name.now ≡ true }
    ensures { result ≡ spec.mode_of name.now change grid low high }
{
    let change = change_within(change)?;
    let grid = grid_within(grid)?;
    let low = level_within(low)?;
    let high = level_within(high)?;
    if low > high {
        return None;
    }
    let name = Name::new(name)?;
    Some(Mode {
        name,
        change,
        grid,
        low,
        high,
    })
}
