//! What a record's tariff charges a month whatever is used, and the floor of its flat demand.

use d_cal::Month;
use d_num::Watt;
use d_table::read_table;
use d_tariff::Tariff;
use d_urdb::{RuleChoice, read_record};
use std::alloc::Global;
use std::test::Fail;

const CHARGES: &str =
    "label,energyratestructure/period0/tier0rate,fixedchargefirstmeter,fixedchargeunits,mincharge,minchargeunits,lookbackpercent\n\
    yearly,0.10,-5,$/year,,,\n\
    daily,0.10,1.50,$/day,0.25,$/day,50\n";

fn tariff(alloc: Global, label: &[u8]) -> Result<Tariff, Fail> {
    let Ok(table) = read_table(alloc, CHARGES.as_bytes()) else {
        return Err(Fail::new("a file that is no table"));
    };
    match read_record(alloc, &table, label, RuleChoice::AsRecorded) {
        Ok(tariff) => Ok(tariff),
        Err(_) => Err(Fail::new("a record that is refused")),
    }
}

#[test]
fn a_twelfth_of_a_yearly_charge_is_rounded_down(rt: HostRuntime) -> Result<(), Fail> {
    let tariff = tariff(rt.alloc(), b"yearly")?;
    let month = Month::new(2025, 12).expect(&rt, "a month");
    assert_eq!(rt;
        tariff.fixed_of(month).units(),
        -416_666_666_666_666_666_667
    );
    assert!(rt; tariff.minimum_of(month).is_none());
    Ok(())
}

#[test]
fn charges_by_day_count_the_days(rt: HostRuntime) -> Result<(), Fail> {
    let tariff = tariff(rt.alloc(), b"daily")?;
    let month = Month::new(2024, 2).expect(&rt, "a month");
    assert_eq!(rt;
        tariff.fixed_of(month).units(),
        43_500_000_000_000_000_000_000
    );
    let minimum = tariff.minimum_of(month).expect(&rt, "a minimum");
    assert_eq!(rt; minimum.units(), 7_250_000_000_000_000_000_000);
    let prior = Watt::new(10_001).expect(&rt, "a power");
    assert_eq!(rt; tariff.floor_of(month, prior).value(), 5000);
    Ok(())
}
