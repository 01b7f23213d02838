//! The reader of a battery file.

ghost use Rattle.std.specs.Prelude.{◌≡◌, ◌⊎◌, Ok, Err, IfOk, IfErr};
ghost use Rattle.d_batt.specs.BatteryFile.{IsOutcome};
ghost use Rattle.d_batt.specs.Shown.{storage_of};

use crate::battery::Battery;
use crate::fault::BatteryFault;
use crate::level::{grid_limit, read_levels};
use crate::row::read_rows;
use crate::setting::Setting;
use d_table::Table;
use std::alloc::Global;

/// The battery in the table, or the first of the reasons why it is refused.
///
/// The header is `kind,name,change,grid_wh,low,high`, in letters of either case. A row of the kind `set` sets the number of that name, and
/// its name and change alone are read; one of the kind `mode` has a mode. Levels are from 0 to 255 in steps, energy is in Wh. The floor is 0
/// where no row sets it, the start is then the floor, the end is then the start, and both limits of the grid are 10^10 Wh.
///
/// Refused, in this order: another header; for each row an unknown kind or name, a kind and name that were there before, a number that
/// isn't whole, a number out of its range, and the 65th mode; then no capacity, a floor above the capacity, a start outside floor and
/// capacity, an end above the capacity, and no mode. All this is our own.
pub fn read_battery(alloc: Global, table: &Table) -> Result<Battery, BatteryFault>
    ensures battery { IfOk result (λ battery. IsOutcome table.now (Ok (storage_of battery))) }
    ensures refused { IfErr result (λ fault. (fault ≡ BatteryFault.Memory) ⊎ IsOutcome table.now (Err fault)) }
{
    if !table.has_header(&[b"kind", b"name", b"change", b"grid_wh", b"low", b"high"]) {
        return Err(BatteryFault::Shape);
    }
    let modes = read_rows(alloc, table)?;
    let levels = read_levels(table)?;
    if modes.is_empty() {
        return Err(BatteryFault::NoModes);
    }
    Ok(Battery {
        capacity: levels.capacity,
        floor: levels.floor,
        start: levels.start,
        end: levels.end,
        max_import: grid_limit(table, Setting::MaxImport),
        max_export: grid_limit(table, Setting::MaxExport),
        modes,
    })
}
