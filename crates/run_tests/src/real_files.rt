//! Runs over real files, through the real desk.

use crate::cases::{IDLE, PLAN, RECORD, words};
use crate::month::readings;
use crate::runtime::Signals;
use d_run::{RealDesk, Status, run};
use std::alloc::Global;
use std::fs;
use std::test::Fail;

/// The status of a plan of the example through the real desk of this runtime.
fn status_of_plan(alloc: Global, signals: &Signals) -> Result<Status, Fail> {
    let words = words(alloc, PLAN)?;
    let mut desk = RealDesk::new(signals);
    Ok(run(alloc, words.as_slice(), &mut desk))
}

#[test]
fn plans_the_example_though_every_other_call_is_interrupted(rt: HostRuntime) -> Result<(), Fail> {
    let alloc = rt.alloc();
    fs::write(&rt, "tariff", RECORD)?;
    fs::write(&rt, "readings", readings(alloc)?.as_str())?;
    fs::write(&rt, "battery", IDLE)?;
    let signals = Signals::new(alloc, rt);
    let status = status_of_plan(alloc, &signals)?;
    let printed = signals.into_printed();
    assert_eq!(rt; status, Status::Done);
    let head =
        b"dispatch plan\nlabel L\nmonth 2025-02\nminutes 60\nverdict least\nbill 67.20\nmetered 67.20\nboxes 1\n\
        period 0 import 672000 charge 67.20\ncredit 0.00\nfixed 0.00\nsum 67.20\nminimum none\n2025-02-01T00:00 idle 0 1000\n";
    assert!(rt; printed.as_slice().starts_with(head));
    assert!(rt;
        printed
            .as_slice()
            .ends_with(b"\n2025-02-28T23:00 idle 0 1000\n")
    );
    Ok(())
}
