//! A shown tariff that has tiers, pay for export, demand, flat demand, a ratchet, both charges and a column that nothing is read from.

use d_report::tariff_text;
use d_table::read_table;
use d_urdb::{RuleChoice, read_record};
use std::test::Fail;

// On weekends the last hour of December is in demand period 4, and all other hours of all days are in period 0.
const RECORD: &str =
    "label,caf\u{e9},energyratestructure/period0/tier0max,energyratestructure/period0/tier0rate,energyratestructure/period0/tier1rate,\
    energyratestructure/period0/tier0sell,energyratestructure/period1/tier0rate,demandratestructure/period4/tier0max,\
    demandratestructure/period4/tier0rate,demandratestructure/period4/tier1rate,flatdemandstructure/period1/tier0rate,flatdemandmonth3,\
    lookbackpercent,fixedchargefirstmeter,fixedchargeunits,mincharge,minchargeunits,demandweekendschedule\n\
    seen,any,7.5,0.10,0.3,0.03,-0.05,20,7,5,9,1,0.5,12.5,$/year,1,$/day,\"[\
    [0,0,0,0,0,0,0,0,0,0,0,0,0,0,0,0,0,0,0,0,0,0,0,0],\
    [0,0,0,0,0,0,0,0,0,0,0,0,0,0,0,0,0,0,0,0,0,0,0,0],\
    [0,0,0,0,0,0,0,0,0,0,0,0,0,0,0,0,0,0,0,0,0,0,0,0],\
    [0,0,0,0,0,0,0,0,0,0,0,0,0,0,0,0,0,0,0,0,0,0,0,0],\
    [0,0,0,0,0,0,0,0,0,0,0,0,0,0,0,0,0,0,0,0,0,0,0,0],\
    [0,0,0,0,0,0,0,0,0,0,0,0,0,0,0,0,0,0,0,0,0,0,0,0],\
    [0,0,0,0,0,0,0,0,0,0,0,0,0,0,0,0,0,0,0,0,0,0,0,0],\
    [0,0,0,0,0,0,0,0,0,0,0,0,0,0,0,0,0,0,0,0,0,0,0,0],\
    [0,0,0,0,0,0,0,0,0,0,0,0,0,0,0,0,0,0,0,0,0,0,0,0],\
    [0,0,0,0,0,0,0,0,0,0,0,0,0,0,0,0,0,0,0,0,0,0,0,0],\
    [0,0,0,0,0,0,0,0,0,0,0,0,0,0,0,0,0,0,0,0,0,0,0,0],\
    [0,0,0,0,0,0,0,0,0,0,0,0,0,0,0,0,0,0,0,0,0,0,0,4]]\"\n";

// The lines up to those of the hours, and the first of these.
const FRONT: &str = "dispatch tariff\nlabel seen\nrule instantaneous\n\
    energy 0 sell 0.03\ntier 0 end 7500 price 0.10\ntier 1 end none price 0.30\nenergy 1 sell 0.00\ntier 0 end none price -0.05\n\
    demand 4\ntier 0 end 20000 price 7.00\ntier 1 end none price 5.00\nflat 1\ntier 0 end none price 9.00\n\
    energy weekday 1 0 0 0 0 0 0 0 0 0 0 0 0 0 0 0 0 0 0 0 0 0 0 0 0\n";

// The last of the lines of the hours, and those behind it.
const BACK: &str = "demand weekend 12 0 0 0 0 0 0 0 0 0 0 0 0 0 0 0 0 0 0 0 0 0 0 0 4\n\
    flat months 0 0 1 0 0 0 0 0 0 0 0 0\n\
    ratchet 50000000000000000000 50000000000000000000 50000000000000000000 50000000000000000000 50000000000000000000 \
    50000000000000000000 50000000000000000000 50000000000000000000 50000000000000000000 50000000000000000000 50000000000000000000 \
    50000000000000000000\n\
    fixed 12.50 year\nminimum 1.00 day\nignored caf??\n";

#[test]
fn shows_the_beginning_and_the_end_of_a_tariff(rt: HostRuntime) -> Result<(), Fail> {
    let alloc = rt.alloc();
    let Ok(table) = read_table(alloc, RECORD.as_bytes()) else {
        return Err(Fail::new("a file that is no table"));
    };
    let Ok(tariff) = read_record(alloc, &table, b"seen", RuleChoice::AsRecorded) else {
        return Err(Fail::new("a record that is refused"));
    };
    let text = tariff_text(alloc, &table, "seen", &tariff)?;
    assert!(rt; text.as_slice().starts_with(FRONT.as_bytes()));
    assert!(rt; text.as_slice().ends_with(BACK.as_bytes()));
    Ok(())
}
