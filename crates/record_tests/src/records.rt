//! Small records, and what is read of them or why they are refused.

use crate::cases::check_records;
use d_urdb::RuleChoice;
use std::test::Fail;

#[test]
fn a_label_is_found_once(rt: HostRuntime) -> Result<(), Fail> {
    let cases = "100000000000000000=label,~0rate\nL,0.10\n\
        |200000000000000000=label,~0rate\nK,x\nL,0.20\nM,0.30\n\
        |1 - 0=label,~0rate\nl,0.10\n\
        |2 - 0=label,~0rate\nL,0.10\nL,0.20\n\
        |3 - 0=name,~0rate\nL,0.10\n";
    check_records(rt.alloc(), RuleChoice::AsRecorded, cases)
}

#[test]
fn numbers_are_read_or_refused(rt: HostRuntime) -> Result<(), Fail> {
    let cases = "4 2 1=label,~0rate,~0adj\nL,0.10,0.1x\n\
        |4 2 2=label,~0rate,~0sell\nL,0.10,1000.000000000000000001\n\
        |4 1 3=label,~0rate\nL,0.1000000000000000001\n\
        |100000000000000001=label,~0rate\nL,0.1000000000000000010\n\
        |4 6 1=label,~0rate,~1max,~1rate,~0sell,~0adj,~0max\nL,0.10,y,0.2,s,a,m\n\
        |103910000000000010=label,~0rate,~0adj,~0max\nL,0.10390000000000001,1e-05,1e+38\n\
        |100000000000000000=label,~0rate,~0max\nL,0.10,m\n";
    check_records(rt.alloc(), RuleChoice::AsRecorded, cases)
}

#[test]
fn tiers_keep_their_rules(rt: HostRuntime) -> Result<(), Fail> {
    let cases = "7 4 0=label,~0rate,~0max,~2sell,~2unit\nL,0.10,5,0.1,kWh\n\
        |7 2 0=label,~0rate,~16rate\nL,0.10,0.1\n\
        |7 3 0=label,~0rate,~0adj,~2rate\nL,0.10,x,0.1\n\
        |200000000000000000=label,~0rate,~0max,~1rate\nL,0.10,5,0.20\n\
        |8 3 0=label,~0rate,~0max,~1max,~1rate,~2rate\nL,0.10,5,5,0.2,0.3\n\
        |8 2 0=label,~0rate,~0max,~1rate\nL,0.10,1e+38,0.2\n\
        |8 - 0=label,~0rate,~1rate\nL,0.10,0.2\n\
        |9 4 0=label,~0rate,~0max,~1rate,~1unit\nL,0.10,5,0.2,kWh/kW\n\
        |100000000000000000=label,~0rate,~0unit\nL,0.10,kWh/kW\n\
        |10 5 0=label,~0rate,~0max,~0sell,~1rate,~1sell\nL,0.10,5,0.04,0.2,0.05\n";
    check_records(rt.alloc(), RuleChoice::AsRecorded, cases)
}

#[test]
fn hours_are_in_periods_that_are_there(rt: HostRuntime) -> Result<(), Fail> {
    let cases = "5 2 3=label,~0rate,energyweekendschedule\nL,0.10,[[36\n\
        |6 - 0=label,energyratestructure/period1/tier0rate\nL,0.10\n\
        |6 - 7=label,~0rate,energyratestructure/period10/tier0sell,energyratestructure/period11/tier0adj,energyweekdayschedule\n\
        L,0.10,0.02,0.3,\"[^,[0,0,0,9,0,0,0,0,0,0,0,0,0,0,0,0,0,0,0,0,0,0,0,0],^,^,^,^,^,^,^,^,^,[0,0,0,0,0,7,7,0,0,0,0,0,0,0,0,0,0,0,0,0,0,0,0,0]]\"\n\
        |6 - 7=label,~0rate,energyratestructure/period9/tier0sell,energyratestructure/period11/tier0adj,energyweekdayschedule\n\
        L,0.10,0.02,0.3,\"[^,[0,0,0,9,0,0,0,0,0,0,0,0,0,0,0,0,0,0,0,0,0,0,0,0],^,^,^,^,^,^,^,^,^,[0,0,0,0,0,7,7,0,0,0,0,0,0,0,0,0,0,0,0,0,0,0,0,0]]\"\n\
        |6 - 9=label,~0rate,energyratestructure/period7/tier0sell,energyratestructure/period11/tier0adj,energyweekdayschedule\n\
        L,0.10,0.02,0.3,\"[^,[0,0,0,9,0,0,0,0,0,0,0,0,0,0,0,0,0,0,0,0,0,0,0,0],^,^,^,^,^,^,^,^,^,[0,0,0,0,0,7,7,0,0,0,0,0,0,0,0,0,0,0,0,0,0,0,0,0]]\"\n\
        |100000000000000000=label,~0rate,energyratestructure/period7/tier0sell,energyratestructure/period9/tier0adj,energyweekdayschedule\n\
        L,0.10,0.02,0.3,\"[^,[0,0,0,9,0,0,0,0,0,0,0,0,0,0,0,0,0,0,0,0,0,0,0,0],^,^,^,^,^,^,^,^,^,[0,0,0,0,0,7,7,0,0,0,0,0,0,0,0,0,0,0,0,0,0,0,0,0]]\"\n";
    check_records(rt.alloc(), RuleChoice::AsRecorded, cases)
}

#[test]
fn a_recorded_rule_is_read_or_refused(rt: HostRuntime) -> Result<(), Fail> {
    let cases = "13 2 0=label,~0rate,dgrules\nL,0.10,Net Metering\n\
        |14 2 0=label,~0rate,dgrules\nL,0.10,buy all SELL all\n\
        |21 2 0=label,~0rate,dgrules\nL,x,Net  Metering\n\
        |100000000000000000=label,~0rate,dgrules\nL,0.10,Net Billing Hourly\n\
        |100000000000000000=label,fixedchargefirstmeter,~0rate\nL,45.50,0.10\n\
        |100000000000000000=label,FlatDemandMonth7,flatdemandstructure/period0/tier0rate,~0rate\nL,,10,0.10\n";
    check_records(rt.alloc(), RuleChoice::AsRecorded, cases)
}

#[test]
fn net_billing_takes_the_place_of_each_rule(rt: HostRuntime) -> Result<(), Fail> {
    let cases = "100000000000000000=label,~0rate,dgrules\nL,0.10,Net Metering\n\
        |100000000000000000=label,~0rate,dgrules\nL,0.10,Buy All Sell All\n\
        |100000000000000000=label,~0rate,dgrules\nL,0.10,Net  Metering\n";
    check_records(rt.alloc(), RuleChoice::NetBilling, cases)
}
