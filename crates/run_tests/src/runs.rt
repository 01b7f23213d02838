//! Whole runs over a desk in memory.

use crate::cases::{BILL, PLAN, answer, example, words};
use d_desk::DeskCall;
use d_run::{Status, run};
use std::test::Fail;

#[test]
fn plans_the_example(rt: HostRuntime) -> Result<(), Fail> {
    let alloc = rt.alloc();
    let mut desk = example(alloc)?;
    let words = words(alloc, PLAN)?;
    assert_eq!(rt; run(alloc, words.as_slice(), &mut desk), Status::Done);
    let head =
        b"dispatch plan\nlabel L\nmonth 2025-02\nminutes 60\nverdict least\nbill 67.20\nmetered 67.20\nboxes 1\n\
        period 0 import 672000 charge 67.20\ncredit 0.00\nfixed 0.00\nsum 67.20\nminimum none\n2025-02-01T00:00 idle 0 1000\n";
    assert!(rt; desk.printed_bytes().starts_with(head));
    assert!(rt;
        desk.printed_bytes()
            .ends_with(b"2025-02-28T23:00 idle 0 1000\n")
    );
    assert_eq!(rt; desk.openings().len(), 3);
    Ok(())
}

#[test]
fn bills_the_readings_alone(rt: HostRuntime) -> Result<(), Fail> {
    let alloc = rt.alloc();
    let mut desk = example(alloc)?;
    let words = words(alloc, BILL)?;
    assert_eq!(rt; run(alloc, words.as_slice(), &mut desk), Status::Done);
    assert_eq!(rt;
        desk.printed_bytes(),
        b"dispatch bill\nlabel L\nmonth 2025-02\nminutes 60\nbill 67.20\nperiod 0 import 672000 charge 67.20\ncredit 0.00\n\
        fixed 0.00\nsum 67.20\nminimum none\n"
            .as_slice()
    );
    assert_eq!(rt; desk.openings().len(), 2);
    Ok(())
}

#[test]
fn a_failing_desk_ends_the_run(rt: HostRuntime) -> Result<(), Fail> {
    let alloc = rt.alloc();
    let words = words(alloc, PLAN)?;
    for (kind, number) in [
        (DeskCall::OpenIn, 1u32),
        (DeskCall::OpenIn, 3),
        (DeskCall::Read, 2),
        (DeskCall::Print, 2),
    ] {
        let mut desk = example(alloc)?;
        desk.fail_at(kind, number)?;
        assert_eq!(rt;
            run(alloc, words.as_slice(), &mut desk),
            Status::Desk,
            "at {number}"
        );
        assert_eq!(rt; desk.fault_count(), 1);
    }
    Ok(())
}

#[test]
fn a_long_file_is_told_as_such(rt: HostRuntime) -> Result<(), Fail> {
    let alloc = rt.alloc();
    let mut desk = example(alloc)?;
    let long = vec![in alloc; b'x'; 16_777_217]?;
    desk.put_file("readings", long.as_slice())?;
    let found = answer(alloc, PLAN, &mut desk)?;
    assert_eq!(rt; found.as_str(), "3 refused readings 0 TooLong");
    assert_eq!(rt; desk.openings().len(), 2);
    Ok(())
}

#[test]
fn net_billing_is_chosen_by_the_words_behind_the_battery(rt: HostRuntime) -> Result<(), Fail> {
    let alloc = rt.alloc();
    let cases = "--battery battery --rule net-billing>0 2025-02-28T23:00 idle 0 1000\
        |--battery battery --rule net-metering>1 refused words 23 NotYet\
        |--rule net-billing --battery battery>1 refused words 23 NotYet";
    for case in cases.split('|') {
        let Some((end, wanted)) = case.split_once('>') else {
            return Err(Fail::new("a case without an answer"));
        };
        let mut desk = example(alloc)?;
        desk.put_file(
            "tariff",
            b"label,energyratestructure/period0/tier0rate,dgrules\nL,0.10,Net Metering\n",
        )?;
        let line = format!(in alloc; "plan --records tariff --label L --readings readings {end}")?;
        let found = answer(alloc, line.as_str(), &mut desk)?;
        assert!(rt; found.as_str() == wanted, "of {end}: {found}");
    }
    Ok(())
}
