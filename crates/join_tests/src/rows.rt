//! Bills of February 2025 by one energy period.

use crate::february::{Reading, bill};
use d_num::Watt;
use std::test::Fail;

const RECORDS: &str =
    "label,energyratestructure/period0/tier0max,energyratestructure/period0/tier0rate,energyratestructure/period0/tier1rate,\
    energyratestructure/period0/tier0sell,flatdemandstructure/period0/tier0rate,lookbackpercent,\
    fixedchargefirstmeter,fixedchargeunits,mincharge,minchargeunits\n\
    flat,,0.10,,,,,,,,\n\
    demand,,0.10,,,10,,,,,\n\
    ratchet,,0.10,,,10,0.5,,,,\n\
    minimum,,0.10,,,10,,,,200,$/month\n\
    tiers,500,0.10,0.20,,,,,,,\n\
    sold,,0.10,,0.04,,,0.50,$/day,,\n";

#[test]
fn readings_are_billed_by_a_record(rt: HostRuntime) -> Result<(), Fail> {
    let cent = 10_000_000_000_000_000_000;
    let rows = [
        ("flat", Reading::Steady, 0, 6760),
        ("demand", Reading::Steady, 0, 11_760),
        ("ratchet", Reading::Steady, 10_000, 11_760),
        ("ratchet", Reading::Steady, 12_001, 12_760),
        ("minimum", Reading::Steady, 0, 20_000),
        ("tiers", Reading::Steady, 0, 8520),
        ("sold", Reading::Sent, 0, -1288),
    ];
    for (label, reading, prior, cents) in rows {
        let prior = Watt::new(prior).expect(&rt, "a power");
        let bill = bill(rt.alloc(), RECORDS, label, reading, prior)?;
        assert_eq!(rt; bill.units(), cents * cent, "by {label}");
    }
    Ok(())
}
