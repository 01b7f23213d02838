//! Plans whose battery moves. The wanted lines were worked out by a program of its own that goes over all levels.

use crate::cases::{PLAN, example, words};
use crate::month::month;
use d_desk::MemoryDesk;
use d_run::{Status, run};
use std::alloc::Global;
use std::str;
use std::test::Fail;

/// The example with these settings of a battery that charges and discharges, and readings in which some lines are others.
fn moving(alloc: Global, settings: &str, place: usize, others: &str) -> Result<MemoryDesk, Fail> {
    let mut desk = example(alloc)?;
    let battery = format!(in alloc;
        "kind,name,change,grid_wh,low,high\n{settings}mode,idle,0,0,,\nmode,charge,1,1000,,\nmode,discharge,-1,-1000,,\n"
    )?;
    desk.put_file("battery", battery.as_str().as_bytes())?;
    let readings = month(alloc, "start,net_wh", "1000", place, others)?;
    desk.put_file("readings", readings.as_str().as_bytes())?;
    Ok(desk)
}

/// The line of the bill and those of the hours that don't idle.
fn telling_lines(alloc: Global, printed: &str) -> Result<String, Fail> {
    let mut lines = String::new(alloc);
    for line in printed.lines() {
        if line.starts_with("bill ") || line.starts_with("2025-") && !line.contains(" idle ") {
            lines.push_str(line)?;
            lines.push_str("\n")?;
        }
    }
    Ok(lines)
}

/// Plans, and compares the bill, the hours that don't idle, and a text that stands somewhere in the plan.
fn check_plan(
    alloc: Global,
    desk: &mut MemoryDesk,
    bill: &str,
    moves: &str,
    part: &str,
) -> Result<(), Fail> {
    let words = words(alloc, PLAN)?;
    let status = run(alloc, words.as_slice(), desk);
    let printed = str::from_utf8(desk.printed_bytes())?;
    let lines = telling_lines(alloc, printed)?;
    let wanted = format!(in alloc; "bill {bill}\n{moves}")?;
    if status == Status::Done
        && lines == wanted
        && printed.lines().count() == 685
        && printed.contains(part)
    {
        Ok(())
    } else {
        Err(Fail::new(lines))
    }
}

#[test]
fn charges_late_to_reach_the_end_level(rt: HostRuntime) -> Result<(), Fail> {
    let mut desk = moving(
        rt.alloc(),
        "set,capacity,4,,,\nset,start,0,,,\nset,end,4,,,\n",
        673,
        "",
    )?;
    check_plan(
        rt.alloc(),
        &mut desk,
        "67.60",
        "2025-02-28T20:00 charge 1 2000\n2025-02-28T21:00 charge 2 2000\n2025-02-28T22:00 charge 3 2000\n2025-02-28T23:00 charge 4 2000\n",
        "\n2025-02-28T19:00 idle 0 1000\n2025-02-28T20:00 charge 1 2000\n",
    )
}

#[test]
fn charges_from_export_and_discharges_at_the_end(rt: HostRuntime) -> Result<(), Fail> {
    let mut desk = moving(
        rt.alloc(),
        "set,capacity,2,,,\nset,end,1,,,\n",
        11,
        "2025-02-01T10:00,-1000\n2025-02-01T11:00,-1000\n2025-02-01T12:00,-1000",
    )?;
    check_plan(
        rt.alloc(),
        &mut desk,
        "66.80",
        "2025-02-01T11:00 charge 1 0\n2025-02-01T12:00 charge 2 0\n2025-02-28T23:00 discharge 1 0\n",
        "\n2025-02-01T10:00 idle 0 -1000\n2025-02-01T11:00 charge 1 0\n2025-02-01T12:00 charge 2 0\n2025-02-01T13:00 idle 2 1000\n",
    )
}

#[test]
fn an_export_limit_makes_it_charge(rt: HostRuntime) -> Result<(), Fail> {
    let mut desk = moving(
        rt.alloc(),
        "set,capacity,1,,,\nset,max_export_wh,0,,,\n",
        13,
        "2025-02-01T12:00,-1000",
    )?;
    check_plan(
        rt.alloc(),
        &mut desk,
        "67.00",
        "2025-02-01T12:00 charge 1 0\n2025-02-28T23:00 discharge 0 0\n",
        "\n2025-02-28T22:00 idle 1 1000\n2025-02-28T23:00 discharge 0 0",
    )
}

/// The example with flat demand, 5 kWh in the hour of the 12th at noon, and a battery that moves 1 kWh an hour.
fn peaked(alloc: Global) -> Result<MemoryDesk, Fail> {
    let mut desk = moving(alloc, "set,capacity,4,,,\n", 277, "2025-02-12T12:00,5000")?;
    desk.put_file(
        "tariff",
        b"label,energyratestructure/period0/tier0rate,flatdemandstructure/period0/tier0rate\nL,0.10,10\n",
    )?;
    Ok(desk)
}

#[test]
fn tells_a_gap_or_the_least_by_the_budget(rt: HostRuntime) -> Result<(), Fail> {
    let alloc = rt.alloc();
    let mut desk = peaked(alloc)?;
    let line = format!(in alloc; "{PLAN} --budget 1")?;
    let one_box = words(alloc, line.as_str())?;
    assert_eq!(rt; run(alloc, one_box.as_slice(), &mut desk).number(), 6);
    let printed = str::from_utf8(desk.printed_bytes())?;
    assert!(rt;
        printed.contains(
            "\nverdict gap budget\nbill 117.60\nlower 67.60\nmetered 117.60\nboxes 1\n"
        )
    );
    let mut desk = peaked(alloc)?;
    let default = words(alloc, PLAN)?;
    assert_eq!(rt; run(alloc, default.as_slice(), &mut desk).number(), 0);
    let printed = str::from_utf8(desk.printed_bytes())?;
    assert!(rt; printed.contains("\nverdict least\nbill 107.60\nmetered 117.60\nboxes 7\n"));
    assert_eq!(rt;
        telling_lines(alloc, printed)?.as_str(),
        "bill 107.60\n2025-02-12T11:00 charge 1 2000\n2025-02-12T12:00 discharge 0 4000\n"
    );
    Ok(())
}
