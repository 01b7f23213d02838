//! Schedules of February 2025: read of a file, and walked.

use crate::february::{Reading, problem};
use d_bill::{Problem, ScheduleFault, Tally, read_schedule};
use d_num::Watt;
use d_table::read_table;
use std::alloc::{AllocError, Global};
use std::test::Fail;

const RECORD: &str =
    "label,energyratestructure/period0/tier0rate,energyratestructure/period0/tier0sell,fixedchargefirstmeter,fixedchargeunits\n\
    sold,0.10,0.04,0.50,$/day\n";

/// The problem of 1000 Wh an hour, and 5000 Wh at noon of the 12th.
fn steady(alloc: Global) -> Result<Problem, Fail> {
    problem(
        alloc,
        RECORD,
        "sold",
        Reading::Steady,
        Watt::new(0).unwrap(),
    )
}

/// A file of so many rows, which idles in all of them but the sixth.
fn schedule_text(alloc: Global, rows: u16) -> Result<String, AllocError> {
    let mut text = format!(in alloc; "START,Mode\n")?;
    for row in 0..rows {
        let day = row / 24 + 1;
        let hour = row % 24;
        let mode = if row == 5 { "discharge" } else { "idle" };
        let line = format!(in alloc; "2025-02-{day:02} {hour:02}:00,{mode}\n")?;
        text.push_str(line.as_str())?;
    }
    Ok(text)
}

#[test]
fn reads_the_schedule_of_a_month(rt: HostRuntime) -> Result<(), Fail> {
    let alloc = rt.alloc();
    let problem = steady(alloc)?;
    assert!(rt; problem.intervals() == 672);
    let mut schedule = [9; 672];
    let text = schedule_text(alloc, 671)?;
    let table = read_table(alloc, text.as_str().as_bytes())?;
    let short = read_schedule(&table, &problem, &mut schedule);
    assert!(rt; matches!(&short, Err(ScheduleFault::Count(671, 672))));
    let text = schedule_text(alloc, 672)?;
    let table = read_table(alloc, text.as_str().as_bytes())?;
    assert!(rt; read_schedule(&table, &problem, &mut schedule).is_ok());
    assert_eq!(rt; (schedule[4], schedule[5], schedule[671]), (0, 1, 0));
    Ok(())
}

#[test]
fn bills_a_schedule_that_keeps_the_rules(rt: HostRuntime) -> Result<(), Fail> {
    let problem = steady(rt.alloc())?;
    assert!(rt; problem.intervals() == 672);
    let cent = 10_000_000_000_000_000_000;
    let mut tally = Tally::new();
    let mut schedule = [0; 672];
    schedule[3] = 1;
    // 675 kWh at 0.10, 28 days at 0.50, and 2 kWh sold at 0.04
    assert!(rt; problem.walk(&schedule, &mut tally).is_ok());
    assert_eq!(rt; problem.bill(&tally).units(), 8142 * cent);
    // the battery is empty by the eighth hour, and what was counted stays
    schedule[7] = 1;
    match problem.walk(&schedule, &mut tally) {
        Ok(()) => return Err(Fail::new("a schedule that breaks a rule")),
        Err(at) => assert_eq!(rt; at.interval, 7),
    }
    assert_eq!(rt; tally.totals[0].value(), 675_000);
    assert_eq!(rt; tally.credit.units(), 8 * cent);
    Ok(())
}
