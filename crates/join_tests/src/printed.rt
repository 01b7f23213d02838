//! A printed bill that has groups of demand, a floor and a minimum.

use crate::february::{Reading, problem};
use d_bill::Tally;
use d_num::Watt;
use d_report::bill_text;
use std::test::Fail;

const RECORD: &str =
    "label,energyratestructure/period0/tier0rate,demandratestructure/period0/tier0rate,flatdemandstructure/period0/tier0rate,\
    lookbackpercent,mincharge,minchargeunits\n\
    groups,0.10,2,10,0.5,200,$/month\n";

// The flat group is charged for half of the earlier 12 kW.
const BILL: &str =
    "dispatch bill\nlabel groups\nmonth 2025-02\nminutes 60\nbill 200.00\nperiod 0 import 676000 charge 67.60\ncredit 0.00\n\
    group 0 peak 5000 charge 10.00\nflat peak 5000 floor 6000 charge 60.00\nfixed 0.00\nsum 137.60\nminimum 200.00\n";

#[test]
fn a_bill_is_printed_with_its_groups(rt: HostRuntime) -> Result<(), Fail> {
    let alloc = rt.alloc();
    let prior = Watt::new(12_000).expect(&rt, "a power");
    let problem = problem(alloc, RECORD, "groups", Reading::Steady, prior)?;
    let mut tally = Tally::new();
    problem.metered(&mut tally);
    let text = bill_text(alloc, "groups", &problem, &tally)?;
    assert!(rt; text.as_slice() == BILL.as_bytes());
    Ok(())
}
