//! An office in February 2025: two energy periods, a demand period in the afternoons of weekdays, and flat demand.

use crate::february::{Reading, bill};
use d_num::Watt;
use std::test::Fail;

const RECORD: &str =
    "label,energyratestructure/period0/tier0rate,energyratestructure/period0/tier0adj,energyratestructure/period0/tier0sell,\
    energyratestructure/period1/tier0rate,energyratestructure/period1/tier0adj,energyratestructure/period1/tier0sell,\
    demandratestructure/period1/tier0rate,flatdemandstructure/period0/tier0rate,fixedchargefirstmeter,fixedchargeunits,\
    energyweekdayschedule,demandweekdayschedule\n\
    office,0.0815,0.0123,0.03,0.1542,0.0123,0.03,8.75,6.20,45.50,$/month,\"[\
    [0,0,0,0,0,0,0,0,0,0,0,0,1,1,1,1,1,1,0,0,0,0,0,0],\
    [0,0,0,0,0,0,0,0,0,0,0,0,1,1,1,1,1,1,0,0,0,0,0,0],\
    [0,0,0,0,0,0,0,0,0,0,0,0,1,1,1,1,1,1,0,0,0,0,0,0],\
    [0,0,0,0,0,0,0,0,0,0,0,0,1,1,1,1,1,1,0,0,0,0,0,0],\
    [0,0,0,0,0,0,0,0,0,0,0,0,1,1,1,1,1,1,0,0,0,0,0,0],\
    [0,0,0,0,0,0,0,0,0,0,0,0,1,1,1,1,1,1,0,0,0,0,0,0],\
    [0,0,0,0,0,0,0,0,0,0,0,0,1,1,1,1,1,1,0,0,0,0,0,0],\
    [0,0,0,0,0,0,0,0,0,0,0,0,1,1,1,1,1,1,0,0,0,0,0,0],\
    [0,0,0,0,0,0,0,0,0,0,0,0,1,1,1,1,1,1,0,0,0,0,0,0],\
    [0,0,0,0,0,0,0,0,0,0,0,0,1,1,1,1,1,1,0,0,0,0,0,0],\
    [0,0,0,0,0,0,0,0,0,0,0,0,1,1,1,1,1,1,0,0,0,0,0,0],\
    [0,0,0,0,0,0,0,0,0,0,0,0,1,1,1,1,1,1,0,0,0,0,0,0]]\
    \",\"[\
    [0,0,0,0,0,0,0,0,0,0,0,0,1,1,1,1,1,1,0,0,0,0,0,0],\
    [0,0,0,0,0,0,0,0,0,0,0,0,1,1,1,1,1,1,0,0,0,0,0,0],\
    [0,0,0,0,0,0,0,0,0,0,0,0,1,1,1,1,1,1,0,0,0,0,0,0],\
    [0,0,0,0,0,0,0,0,0,0,0,0,1,1,1,1,1,1,0,0,0,0,0,0],\
    [0,0,0,0,0,0,0,0,0,0,0,0,1,1,1,1,1,1,0,0,0,0,0,0],\
    [0,0,0,0,0,0,0,0,0,0,0,0,1,1,1,1,1,1,0,0,0,0,0,0],\
    [0,0,0,0,0,0,0,0,0,0,0,0,1,1,1,1,1,1,0,0,0,0,0,0],\
    [0,0,0,0,0,0,0,0,0,0,0,0,1,1,1,1,1,1,0,0,0,0,0,0],\
    [0,0,0,0,0,0,0,0,0,0,0,0,1,1,1,1,1,1,0,0,0,0,0,0],\
    [0,0,0,0,0,0,0,0,0,0,0,0,1,1,1,1,1,1,0,0,0,0,0,0],\
    [0,0,0,0,0,0,0,0,0,0,0,0,1,1,1,1,1,1,0,0,0,0,0,0],\
    [0,0,0,0,0,0,0,0,0,0,0,0,1,1,1,1,1,1,0,0,0,0,0,0]]\
    \"\n";

#[test]
fn an_office_is_billed_by_its_hours(rt: HostRuntime) -> Result<(), Fail> {
    let none = Watt::new(0).expect(&rt, "a power");
    let bill = bill(rt.alloc(), RECORD, "office", Reading::Office, none)?;
    assert_eq!(rt; bill.units(), 982_727_200_000_000_000_000_000);
    Ok(())
}
