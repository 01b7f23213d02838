//! Shown tariffs.

use crate::cases::{example, words};
use d_run::{Status, run};
use std::str;
use std::test::Fail;

const SHOW: &str = "show --records tariff --label L";

#[test]
fn shows_the_tariff_of_a_record(rt: HostRuntime) -> Result<(), Fail> {
    let alloc = rt.alloc();
    let mut desk = example(alloc)?;
    let words = words(alloc, SHOW)?;
    assert_eq!(rt; run(alloc, words.as_slice(), &mut desk), Status::Done);
    let printed = str::from_utf8(desk.printed_bytes())?;
    assert!(rt;
        printed.starts_with(
            "dispatch tariff\nlabel L\nrule instantaneous\nenergy 0 sell 0.00\ntier 0 end none price 0.10\nenergy weekday 1 0 0 0 "
        )
    );
    assert!(rt;
        printed.ends_with(
            "\nflat months 0 0 0 0 0 0 0 0 0 0 0 0\nratchet 0 0 0 0 0 0 0 0 0 0 0 0\nfixed 0.00 month\nminimum none\n"
        )
    );
    assert_eq!(rt; printed.lines().count(), 57);
    assert_eq!(rt; desk.openings().len(), 1);
    Ok(())
}

#[test]
fn shows_the_rule_that_is_chosen(rt: HostRuntime) -> Result<(), Fail> {
    let alloc = rt.alloc();
    for (end, rule) in [("", "hourly"), (" --rule net-billing", "instantaneous")] {
        let mut desk = example(alloc)?;
        desk.put_file(
            "tariff",
            b"label,energyratestructure/period0/tier0rate,dgrules\nL,0.10,Net Billing Hourly\n",
        )?;
        let line = format!(in alloc; "{SHOW}{end}")?;
        let words = words(alloc, line.as_str())?;
        assert_eq!(rt; run(alloc, words.as_slice(), &mut desk), Status::Done);
        let printed = str::from_utf8(desk.printed_bytes())?;
        assert!(rt; printed.lines().nth(2) == Some(format!(in alloc; "rule {rule}")?.as_str()));
    }
    Ok(())
}
