//! The refusals of a record, alone and in their order.

use crate::cases::answer;
use d_urdb::RuleChoice;
use std::alloc::Global;
use std::test::Fail;

/// A refusal of each kind, in the order in which they come, cut by `|`: the number, the column and the detail of a record that has these
/// cells alone behind a label and a rate, a `=`, and the cells, cut by `;`, each behind its column's name and a `:`. A cell of `@` is a
/// grid with period 30 in each hour.
const FAULTS: &str = "13 2 0=dgrules:Net Metering\
    |14 2 0=dgrules:Buy All Sell All\
    |21 2 0=dgrules:Net\
    |7 2 0=energyratestructure/period1/tier5rate:1\
    |4 2 1=energyratestructure/period1/tier0rate:x\
    |9 3 0=energyratestructure/period1/tier0max:5;energyratestructure/period1/tier1unit:kW\
    |8 2 0=energyratestructure/period1/tier0max:0;energyratestructure/period1/tier1rate:1\
    |10 4 0=energyratestructure/period1/tier0max:7;energyratestructure/period1/tier0sell:1;energyratestructure/period1/tier1sell:2\
    |7 2 0=energyratestructure/period2/tier16adj:1\
    |5 2 1=energyweekdayschedule:[\
    |5 2 2=energyweekendschedule:[[x\
    |6 - 30=energyweekendschedule:@\
    |7 2 0=demandratestructure/period1/tier5rate:1\
    |4 2 2=demandratestructure/period1/tier0adj:1001\
    |8 2 0=demandratestructure/period1/tier0max:-1;demandratestructure/period1/tier1rate:1\
    |11 3 0=demandratestructure/period1/tier0rate:0.2;demandratestructure/period1/tier0adj:-0.5\
    |11 2 0=demandratestructure/period2/tier0rate:-0.5\
    |12 2 0=demandrateunit:kWh\
    |5 2 1=demandweekdayschedule:[]\
    |5 2 0=demandweekendschedule:x\
    |7 2 0=flatdemandstructure/period1/tier5adj:1\
    |4 2 3=flatdemandstructure/period1/tier0rate:0.1000000000000000001\
    |8 4 0=flatdemandstructure/period1/tier0rate:1;flatdemandstructure/period1/tier1rate:1;flatdemandstructure/period1/tier0max:\
    |11 3 0=flatdemandstructure/period1/tier0rate:0.2;flatdemandstructure/period1/tier0adj:-0.5\
    |12 2 0=flatdemandunit:hp\
    |5 2 4=flatdemandmonths:[0,1\
    |5 2 0=flatdemandmonth3:36\
    |5 2 4=demandratchetpercentage:[0,1]\
    |4 2 1=demandratchetpercentage2:x\
    |4 2 2=lookbackpercent:101\
    |22 2 0=demandratchetpercentage1:-1\
    |22 2 0=lookbackpercent:-0.5\
    |4 2 1=fixedchargefirstmeter:x\
    |20 3 0=fixedchargefirstmeter:5;fixedchargeunits:$/Month\
    |4 2 1=mincharge:x\
    |20 3 0=mincharge:5;minchargeunits:month\
    |18 3 0=mincharge:5;minchargeunits:$/year\
    |4 2 1=annualmincharge:x\
    |18 2 0=annualmincharge:5\
    |4 2 1=coincidentratestructure/period3/tier2adj:x\
    |16 2 0=coincidentratestructure/period0/tier0rate:1\
    |4 2 1=demandreactivepowercharge:x\
    |17 2 0=demandreactivepowercharge:1\
    |5 2 0=fueladjustmentsmonthly:0\
    |4 2 1=fueladjustmentsmonthly12:x\
    |19 2 0=fueladjustmentsmonthly1:0.01";

/// Each fault is refused: alone, beside the next one, and where all those behind it are in the record as well.
#[test]
fn the_first_refusal_is_told(rt: HostRuntime) -> Result<(), Fail> {
    let mut faults = Vec::new(rt.alloc());
    for fault in FAULTS.split('|') {
        faults.push(fault)?;
    }
    for first in 0..faults.len() {
        check_first(rt.alloc(), &faults[first..])?;
    }
    Ok(())
}

/// Refuses a record with the first of these faults alone, with the first two, and with all.
fn check_first(alloc: Global, faults: &[&str]) -> Result<(), Fail> {
    for count in [1, 2, faults.len()] {
        if count <= faults.len() {
            check_fault(alloc, &faults[..count])?;
        }
    }
    Ok(())
}

/// Refuses a record with these faults as one with the first of them alone.
fn check_fault(alloc: Global, faults: &[&str]) -> Result<(), Fail> {
    let file = file_of(alloc, faults)?;
    let found = answer(alloc, file.as_str(), RuleChoice::AsRecorded)?;
    let first = faults.first().copied().unwrap_or("");
    let wanted = first.split_once('=').map_or("", |parts| parts.0);
    if found.as_str() != wanted {
        return Err(Fail::new(format!(in alloc; "{found} of {file}")?));
    }
    Ok(())
}

/// A record with the cells of all these faults behind a label and a rate.
fn file_of(alloc: Global, faults: &[&str]) -> Result<String, Fail> {
    let mut header = String::from_str(alloc, "label,energyratestructure/period0/tier0rate")?;
    let mut row = String::from_str(alloc, "L,0.10")?;
    for fault in faults {
        let Some((_, cells)) = fault.split_once('=') else {
            return Err(Fail::new("a fault without cells"));
        };
        for cell in cells.split(';') {
            put_cell(&mut header, &mut row, cell)?;
        }
    }
    Ok(format!(in alloc; "{header}\n{row}\n")?)
}

/// Adds a column and its cell.
fn put_cell(header: &mut String, row: &mut String, cell: &str) -> Result<(), Fail> {
    let Some((name, text)) = cell.split_once(':') else {
        return Err(Fail::new("a cell without a column"));
    };
    header.push_str(",")?;
    header.push_str(name)?;
    row.push_str(",\"")?;
    if text == "@" {
        put_grid(row)?;
    } else {
        row.push_str(text)?;
    }
    row.push_str("\"")?;
    Ok(())
}

/// Adds a grid with period 30 in each hour.
fn put_grid(row: &mut String) -> Result<(), Fail> {
    for month in 0..12 {
        row.push_str(if month == 0 { "[[30" } else { ",[30" })?;
        for _ in 1..24 {
            row.push_str(",30")?;
        }
        row.push_str("]")?;
    }
    row.push_str("]")?;
    Ok(())
}
