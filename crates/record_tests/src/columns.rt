//! Names of columns, and where those of tiers are.

use d_columns::{Cells, Part, Structure};
use d_table::{Table, read_table};
use d_urdb::{RuleChoice, read_record};
use std::alloc::Global;
use std::test::Fail;

fn table_of(alloc: Global, file: &str) -> Result<Table, Fail> {
    match read_table(alloc, file.as_bytes()) {
        Ok(table) => Ok(table),
        Err(_) => Err(Fail::new("a file that is no table")),
    }
}

/// From each of these names something is read.
#[test]
fn names_of_tiers_are_read(rt: HostRuntime) -> Result<(), Fail> {
    let names =
        "energyratestructure/period0/tier0max,EnergyRateStructure/Period35/Tier0Unit,ENERGYRATESTRUCTURE/PERIOD9/TIER0SELL,\
        demandratestructure/period35/tier0adj,flatdemandstructure/period10/tier0rate,coincidentratestructure/period35/tier15adj";
    check_ignored(rt.alloc(), names, "1,kWh,1,1,1,0", "")
}

/// From none of these names is anything read.
#[test]
fn other_names_are_ignored(rt: HostRuntime) -> Result<(), Fail> {
    let names =
        "name,energyratestructure,energyratestructure/period0/tier0,energyratestructure/period/tier0rate,\
        energyratestructure/period36/tier0rate,energyratestructure/period100/tier0rate,energyratestructure/period01/tier0rate,\
        energyratestructure/period0/tierrate,energyratestructure/period0/tier00rate,energyratestructure/period0/tier0rates,\
        energyratestructure/period0/tier0 rate,coincidentratestructures/period0/tier0rate,demandratestructure/period0/tier0sell,\
        coincidentratestructure/period0/tier16rate";
    check_ignored(
        rt.alloc(),
        names,
        "1,2,3,4,5,6,7,8,9,10,11,12,13,14",
        "2 3 4 5 6 7 8 9 10 11 12 13 14 15 ",
    )
}

/// Reads a record of a label, a rate and these columns, and compares the columns that it lists as those that nothing is read from.
fn check_ignored(alloc: Global, names: &str, cells: &str, wanted: &str) -> Result<(), Fail> {
    let file = format!(in alloc;
        "label,energyratestructure/period0/tier0rate,{names}\nL,0.10,{cells}\n"
    )?;
    let table = table_of(alloc, file.as_str())?;
    let Ok(tariff) = read_record(alloc, &table, b"L", RuleChoice::AsRecorded) else {
        return Err(Fail::new("a record that is refused"));
    };
    let mut found = String::new(alloc);
    for column in tariff.ignored.as_slice() {
        write!(&mut found, "{column} ")?;
    }
    if found.as_str() != wanted {
        return Err(Fail::new(found));
    }
    Ok(())
}

#[test]
fn the_first_column_of_a_name_counts(rt: HostRuntime) -> Result<(), Fail> {
    let file =
        "label,energyratestructure/period3/tier0rate,ENERGYRateStructure/Period35/Tier15Sell,\
        energyratestructure/period3/tier0rate,demandratestructure/period0/tier1unit,\
        demandratestructure/period0/tier1adj\n\
        one,0.1,,0.2,kW,0.3\n";
    let table = table_of(rt.alloc(), file)?;
    assert!(rt; table.rows() > 0);
    let Ok(cells) = Cells::new(rt.alloc(), &table, 0) else {
        return Err(Fail::new("no memory"));
    };
    assert!(rt; cells.part_column(Structure::Energy, 3, 0, Part::Rate) == Some(1));
    assert!(rt; cells.part_column(Structure::Energy, 35, 15, Part::Sell) == Some(2));
    assert!(rt;
        cells
            .part_column(Structure::Demand, 0, 1, Part::Unit)
            .is_none()
    );
    assert!(rt; cells.part_column(Structure::Demand, 0, 1, Part::Adj) == Some(5));
    assert!(rt;
        cells
            .part_column(Structure::FlatDemand, 0, 1, Part::Adj)
            .is_none()
    );
    Ok(())
}

#[test]
fn the_least_tier_past_the_last_is_found(rt: HostRuntime) -> Result<(), Fail> {
    let file = "energyratestructure/period0/tier100rate,energyratestructure/period0/tier17sell,\
        energyratestructure/period0/tier17unit,energyratestructure/period0/tier16max,\
        energyratestructure/period0/tier17max,energyratestructure/period0/tier17max,\
        energyratestructure/period1/tier12345678901234567890123456789012345678901234567890123456789012345rate,\
        demandratestructure/period0/tier16unit\n\
        1,2,3,,,4,5,kW\n";
    let table = table_of(rt.alloc(), file)?;
    assert!(rt; table.rows() > 0);
    let alloc = rt.alloc();
    let Ok(cells) = Cells::new(alloc, &table, 0) else {
        return Err(Fail::new("no memory"));
    };
    assert!(rt; matches!(cells.first_hole(alloc, Structure::Energy, 0), Ok(Some(2))));
    assert!(rt; matches!(cells.first_hole(alloc, Structure::Energy, 1), Ok(Some(6))));
    assert!(rt; matches!(cells.first_hole(alloc, Structure::Demand, 0), Ok(None)));
    Ok(())
}
