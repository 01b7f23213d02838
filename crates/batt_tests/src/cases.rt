//! Battery files in short texts, and what reading one answers.

use d_batt::{Battery, BatteryFault, Mode, read_battery};
use d_table::read_table;
use std::alloc::Global;
use std::str;
use std::test::Fail;

/// The file of these rows, which are cut by `;`, under the header.
pub fn file_of(alloc: Global, rows: &str) -> Result<String, Fail> {
    let mut file = String::from_str(alloc, "kind,name,change,grid_wh,low,high\n")?;
    for row in rows.split(';') {
        file.push_str(row)?;
        file.push_str("\n")?;
    }
    Ok(file)
}

/// What reading the file answers: the battery's text, or the fault's name and row.
pub fn answer(alloc: Global, file: &str) -> Result<String, Fail> {
    let Ok(table) = read_table(alloc, file.as_bytes()) else {
        return Err(Fail::new("a file that is no table"));
    };
    match read_battery(alloc, &table) {
        Ok(battery) => battery_text(alloc, &battery),
        Err(fault) => fault_text(alloc, fault),
    }
}

/// A battery's levels, its limits, and behind a bar each its modes.
pub fn battery_text(alloc: Global, battery: &Battery) -> Result<String, Fail> {
    let (import, export) = (battery.max_import.value(), battery.max_export.value());
    let mut text = format!(in alloc;
        "{} {} {} {} {import} {export}",
        battery.capacity, battery.floor, battery.start, battery.end
    )?;
    for mode in battery.modes.as_slice() {
        text.push_str("|")?;
        put_mode(&mut text, mode)?;
    }
    Ok(text)
}

fn put_mode(text: &mut String, mode: &Mode) -> Result<(), Fail> {
    let name = str::from_utf8(mode.name.bytes()).unwrap_or("");
    text.push_str(name)?;
    for number in [
        i64::from(mode.change),
        mode.grid.value(),
        i64::from(mode.low),
        i64::from(mode.high),
    ] {
        write!(text, " {number}")?;
    }
    Ok(())
}

fn fault_text(alloc: Global, fault: BatteryFault) -> Result<String, Fail> {
    Ok(match fault {
        BatteryFault::Shape => String::from_str(alloc, "shape")?,
        BatteryFault::Unknown(row) => format!(in alloc; "unknown {row}")?,
        BatteryFault::Missing => String::from_str(alloc, "missing")?,
        BatteryFault::Twice(row) => format!(in alloc; "twice {row}")?,
        BatteryFault::Number(row) => format!(in alloc; "number {row}")?,
        BatteryFault::Range(row) => format!(in alloc; "range {row}")?,
        BatteryFault::NoModes => String::from_str(alloc, "no modes")?,
        BatteryFault::TooMany(row) => format!(in alloc; "too many {row}")?,
        BatteryFault::Memory => return Err(Fail::new("no memory")),
    })
}
