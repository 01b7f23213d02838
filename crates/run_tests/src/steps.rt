//! Months by the half hour and by the quarter hour, and a record that is settled hour by hour.

use crate::cases::{BILL, PLAN, answer, example};
use crate::month::readings_every;
use d_desk::MemoryDesk;
use std::alloc::Global;
use std::test::Fail;

/// The example with 1000 Wh in each interval of so many minutes, where the record says this rule.
fn every(alloc: Global, minutes: u8, rule: &str) -> Result<MemoryDesk, Fail> {
    let mut desk = example(alloc)?;
    let tariff = format!(in alloc;
        "label,energyratestructure/period0/tier0rate,dgrules\nL,0.10,{rule}\n"
    )?;
    desk.put_file("tariff", tariff.as_str().as_bytes())?;
    desk.put_file(
        "readings",
        readings_every(alloc, minutes)?.as_str().as_bytes(),
    )?;
    Ok(desk)
}

#[test]
fn half_and_quarter_hours_are_billed_and_planned(rt: HostRuntime) -> Result<(), Fail> {
    let alloc = rt.alloc();
    for (minutes, line, wanted) in [
        (30, BILL, "0 bill 134.40"),
        (15, BILL, "0 bill 268.80"),
        (30, PLAN, "0 2025-02-28T23:30 idle 0 1000"),
        (15, PLAN, "0 2025-02-28T23:45 idle 0 1000"),
    ] {
        let mut desk = every(alloc, minutes, "")?;
        let found = answer(alloc, line, &mut desk)?;
        assert!(rt; found.as_str() == wanted, "of {line}: {found}");
    }
    Ok(())
}

#[test]
fn the_hourly_rule_wants_a_reading_an_hour(rt: HostRuntime) -> Result<(), Fail> {
    let alloc = rt.alloc();
    let refused = "2 refused record 15 HourlyRule dgrules 0 Net Billing Hourly";
    for (minutes, line, wanted, openings) in [
        (60, BILL, "0 bill 67.20", 2),
        (30, BILL, refused, 2),
        (15, PLAN, refused, 2),
        (60, PLAN, "0 2025-02-28T23:00 idle 0 1000", 3),
    ] {
        let mut desk = every(alloc, minutes, "Net Billing Hourly")?;
        let found = answer(alloc, line, &mut desk)?;
        assert!(rt; found.as_str() == wanted, "of {line}: {found}");
        assert_eq!(rt; desk.openings().len(), openings);
    }
    Ok(())
}
