//! Battery files that are read, and their edges.

use crate::cases::{answer, battery_text, file_of};
use d_batt::{Battery, MOST_LIMIT, Mode, ModeList, Name};
use d_num::Wh;
use std::alloc::Global;
use std::test::Fail;

/// Rows of a file, cut by `;`, behind what they are read as and a `=`. A `*` stands for a mode `idle`.
const FILES: &str = "4 0 0 0 10000000000 10000000000|idle 0 0 0 255=set,capacity,4,,,\n*\
    !4 1 1 1 10000000000 10000000000|idle 0 0 0 255=set,capacity,4,,,;set,floor,1,,,\n*\
    !4 1 3 3 10000000000 10000000000|idle 0 0 0 255=set,start,3,,,;set,floor,1,,,;set,capacity,4,,,\n*\
    !4 0 3 0 10000000000 10000000000|idle 0 0 0 255=set,start,3,,,;set,end,0,,,;set,capacity,4,,,\n*\
    !4 4 4 4 0 10000000000|idle 0 0 0 255=set,capacity,4,,,;set,floor,4,,,;set,max_import_wh,0,,,\n*\
    !255 255 255 255 10000000000 0|idle 0 0 0 255=set,capacity,255,,,;set,floor,255,,,;set,max_import_wh,1e10,,,;set,max_export_wh,-0,,,\n*\
    !0 0 0 0 10000000000 10000000000|idle 0 0 0 255=set,capacity,0.0,x,y,z\n*\
    !50 0 0 0 10000000000 10000000000|idle 0 0 0 255=set,capacity,+5e1,,,\n*\
    !4 0 0 0 10000000000 10000000000|capacity 1 1000000000 0 255|floor -1 -1000000000 4 4=set,capacity,4,,,;mode,capacity,1,1e9,,;mode,floor,-1,-1e9,4,4\
    !4 0 0 0 10000000000 10000000000|A_z-9 255 0 255 255|x -255 0 0 0=set,capacity,4,,,;mode,A_z-9,255,0,255,;mode,x,-255,0,,0";

/// Rows that are refused, cut by `;`, behind the fault and a `=`.
const FAULTS: &str = "unknown 0=Set,capacity,4,,,\
    !unknown 0=,,,,,\
    !unknown 0=set,Capacity,4,,,\
    !unknown 0=set,idle,4,,,\
    !unknown 0=mode,,0,0,,\
    !unknown 0=mode,a b,0,0,,\
    !unknown 0=mode,a23456789012345678901234567890123,0,0,,\
    !unknown 0=mode,\u{E4},0,0,,\
    !twice 1=set,capacity,4,,,;set,capacity,x,,,\
    !twice 2=mode,a,0,0,,;set,capacity,4,,,;mode,a,0,0,,\
    !number 0=set,capacity,,,,\
    !number 0=set,capacity,x,,,\
    !number 0=set,max_import_wh,0.5,,,\
    !number 0=mode,a,,0,,\
    !number 0=mode,a,300,x,,\
    !number 0=mode,a,0,2e9,1.5,\
    !number 0=mode,a,0,0,300,x\
    !number 0=mode,a,1e11,0.5,,\
    !range 0=set,capacity,256,,,\
    !range 0=set,capacity,-1,,,\
    !range 0=set,capacity,10000000000.5,,,\
    !range 0=set,max_import_wh,10000000001,,,\
    !range 0=set,max_export_wh,-1,,,\
    !range 0=mode,a,256,0,,\
    !range 0=mode,a,-256,0,,\
    !range 0=mode,a,0,1000000001,,\
    !range 0=mode,a,0,-1000000001,,\
    !range 0=mode,a,0,0,256,256\
    !range 0=mode,a,0,0,0,256\
    !range 0=mode,a,0,0,5,4\
    !range 0=mode,a,0,0,-1,\
    !missing=mode,a,0,0,,\
    !range 1=set,capacity,4,,,;set,floor,5,,,\
    !range 2=set,capacity,4,,,;set,floor,2,,,;set,start,1,,,\
    !range 1=set,capacity,4,,,;set,start,5,,,\
    !range 1=set,capacity,4,,,;set,end,5,,,\
    !no modes=set,capacity,4,,,";

/// The file of these rows, in which a `*` behind a line end stands for a mode `idle`.
fn idle_file(alloc: Global, rows: &str) -> Result<String, Fail> {
    match rows.strip_suffix("\n*") {
        Some(front) => {
            let mut file = file_of(alloc, front)?;
            file.push_str("mode,idle,0,0,,\n")?;
            Ok(file)
        }
        None => file_of(alloc, rows),
    }
}

#[test]
fn reads_each_battery(rt: HostRuntime) -> Result<(), Fail> {
    let alloc = rt.alloc();
    for case in FILES.split('!') {
        let (wanted, rows) = case.split_once('=').unwrap_or((case, ""));
        let found = answer(alloc, idle_file(alloc, rows)?.as_str())?;
        assert!(rt; found.as_str() == wanted, "{found} of {rows}");
    }
    Ok(())
}

#[test]
fn tells_each_fault(rt: HostRuntime) -> Result<(), Fail> {
    let alloc = rt.alloc();
    for case in FAULTS.split('!') {
        let (wanted, rows) = case.split_once('=').unwrap_or((case, ""));
        let found = answer(alloc, file_of(alloc, rows)?.as_str())?;
        assert!(rt; found.as_str() == wanted, "{found} of {rows}");
    }
    Ok(())
}

/// The header may be in letters of either case, and in no other order.
#[test]
fn reads_the_header(rt: HostRuntime) -> Result<(), Fail> {
    let alloc = rt.alloc();
    let other = answer(
        alloc,
        "kind,name,grid_wh,change,low,high\nset,capacity,4,,,\n",
    )?;
    assert_eq!(rt; other.as_str(), "shape");
    let empty = answer(alloc, "")?;
    assert_eq!(rt; empty.as_str(), "shape");
    let short = answer(alloc, "kind,name,change,grid_wh,low\nset,capacity,4,,\n")?;
    assert_eq!(rt; short.as_str(), "shape");
    let large = answer(
        alloc,
        "KIND,Name,change, GRID_WH ,low,high\nset,capacity,4,,,\nmode,a,0,0,,\n",
    )?;
    assert_eq!(rt;
        large.as_str(),
        "4 0 0 0 10000000000 10000000000|a 0 0 0 255"
    );
    Ok(())
}

/// A copy of a battery is the same battery.
#[test]
fn copies_a_battery(rt: HostRuntime) -> Result<(), Fail> {
    let alloc = rt.alloc();
    let (Some(name), Some(grid), Some(limit)) = (
        Name::new(b"idle"),
        Wh::new(5),
        Wh::new(MOST_LIMIT),
    ) else {
        return Err(Fail::new("no name or no energy"));
    };
    let mode = Mode {
        name: name.copied(),
        change: 0,
        grid,
        low: 0,
        high: 255,
    };
    let mut modes = ModeList::new(alloc);
    modes.add(mode.copied())?;
    let battery = Battery {
        capacity: 4,
        floor: 1,
        start: 2,
        end: 3,
        max_import: limit,
        max_export: limit,
        modes,
    };
    let text = battery_text(alloc, &battery.copied(alloc)?)?;
    assert_eq!(rt;
        text.as_str(),
        "4 1 2 3 10000000000 10000000000|idle 0 5 0 255"
    );
    Ok(())
}
