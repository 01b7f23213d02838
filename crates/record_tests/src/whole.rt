//! A record with most of what a tariff has.

use d_cal::Month;
use d_table::read_table;
use d_tariff::{Charge, ChargeUnit, Tariff};
use d_urdb::{RuleChoice, read_record};
use std::alloc::Global;
use std::test::Fail;

/// The twelve months in two ways, a column of one name twice, and columns that nothing is read from.
const WHOLE: &str =
    "label,energyratestructure/period0/tier0rate,demandratestructure/period3/tier0max,demandratestructure/period3/tier0rate,\
    demandratestructure/period3/tier1rate,demandratestructure/period3/tier1adj,flatdemandstructure/period2/tier0rate,\
    flatdemandmonths,flatdemandmonth1,demandratchetpercentage2,lookbackpercent,fixedchargefirstmeter,fixedchargeunits,mincharge,\
    demandwindow,energyratestructure/period0/tier0rate,coincidentratestructure/period0/tier16rate,note\n\
    L,0.10,50,10,12,-1.5,5,\"[2,2,2,2,2,2,2,2,2,2,2,35]\",3,90,0.5,1.50,$/day,20,15,0.9,1,\n";

fn whole_tariff(alloc: Global) -> Result<Tariff, Fail> {
    let Ok(table) = read_table(alloc, WHOLE.as_bytes()) else {
        return Err(Fail::new("a file that is no table"));
    };
    match read_record(alloc, &table, b"L", RuleChoice::AsRecorded) {
        Ok(tariff) => Ok(tariff),
        Err(_) => Err(Fail::new("a record that is refused")),
    }
}

#[test]
fn tiers_of_demand_are_read(rt: HostRuntime) -> Result<(), Fail> {
    let tariff = whole_tariff(rt.alloc())?;
    assert!(rt; tariff.demand_tiers(0).is_none());
    let tiers = tariff.demand_tiers(3).expect(&rt, "tiers of demand");
    assert!(rt; tiers.count() == 2);
    assert!(rt; tiers.lowest_price().units() == 10_000_000_000_000_000_000);
    assert!(rt; tiers.highest_price().units() == 10_500_000_000_000_000_000);
    Ok(())
}

#[test]
fn a_month_has_its_periods(rt: HostRuntime) -> Result<(), Fail> {
    let tariff = whole_tariff(rt.alloc())?;
    let june = Month::new(2025, 6).expect(&rt, "a month");
    assert!(rt; june.days() >= 1);
    let period = tariff.period_at(june, 1, 23);
    assert!(rt; period.tiers.lowest_price().units() == 100_000_000_000_000_000);
    let tiers = tariff.flat_tiers(june).expect(&rt, "tiers of flat demand");
    assert!(rt; tiers.lowest_price().units() == 5_000_000_000_000_000_000);
    let december = Month::new(2025, 12).expect(&rt, "a month");
    assert!(rt; tariff.flat_tiers(december).is_none());
    Ok(())
}

#[test]
fn months_and_fractions_are_read(rt: HostRuntime) -> Result<(), Fail> {
    let tariff = whole_tariff(rt.alloc())?;
    assert!(rt; tariff.flat_months == [2, 2, 2, 2, 2, 2, 2, 2, 2, 2, 2, 35]);
    let half = 50_000_000_000_000_000_000;
    let mut fractions = [half; 12];
    fractions[1] = 90_000_000_000_000_000_000;
    assert!(rt; tariff.ratchet == fractions);
    Ok(())
}

#[test]
fn charges_are_read(rt: HostRuntime) -> Result<(), Fail> {
    let tariff = whole_tariff(rt.alloc())?;
    let minimum = tariff.minimum.expect(&rt, "a minimum");
    assert!(rt; is_charge(minimum, 20_000_000_000_000_000_000_000, "month"));
    let fixed = tariff.fixed;
    assert!(rt; is_charge(fixed, 1_500_000_000_000_000_000_000, "day"));
    Ok(())
}

fn is_charge(charge: Charge, units: i128, unit: &str) -> bool {
    let said = match charge.unit {
        ChargeUnit::Day => "day",
        ChargeUnit::Month => "month",
        ChargeUnit::Year => "year",
    };
    charge.amount.units() == units && said == unit
}

#[test]
fn columns_that_nothing_is_read_from_are_listed(rt: HostRuntime) -> Result<(), Fail> {
    let tariff = whole_tariff(rt.alloc())?;
    assert!(rt; tariff.ignored.as_slice() == [8, 14, 15, 16].as_slice());
    Ok(())
}
