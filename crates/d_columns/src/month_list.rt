//! The lists that have an item for each month, and the names of their columns.

ghost use Rattle.std.specs.Prelude.{◌≡◌, ◌<◌, ◌≤◌, length, map};
ghost use Rattle.d_columns.specs.MonthLists as spec;

// The columns of the months, in small letters.
const FLAT_NAMES: [&[u8]; 12] = [
    b"flatdemandmonth1",
    b"flatdemandmonth2",
    b"flatdemandmonth3",
    b"flatdemandmonth4",
    b"flatdemandmonth5",
    b"flatdemandmonth6",
    b"flatdemandmonth7",
    b"flatdemandmonth8",
    b"flatdemandmonth9",
    b"flatdemandmonth10",
    b"flatdemandmonth11",
    b"flatdemandmonth12",
];

const RATCHET_NAMES: [&[u8]; 12] = [
    b"demandratchetpercentage1",
    b"demandratchetpercentage2",
    b"demandratchetpercentage3",
    b"demandratchetpercentage4",
    b"demandratchetpercentage5",
    b"demandratchetpercentage6",
    b"demandratchetpercentage7",
    b"demandratchetpercentage8",
    b"demandratchetpercentage9",
    b"demandratchetpercentage10",
    b"demandratchetpercentage11",
    b"demandratchetpercentage12",
];

const FUEL_NAMES: [&[u8]; 12] = [
    b"fueladjustmentsmonthly1",
    b"fueladjustmentsmonthly2",
    b"fueladjustmentsmonthly3",
    b"fueladjustmentsmonthly4",
    b"fueladjustmentsmonthly5",
    b"fueladjustmentsmonthly6",
    b"fueladjustmentsmonthly7",
    b"fueladjustmentsmonthly8",
    b"fueladjustmentsmonthly9",
    b"fueladjustmentsmonthly10",
    b"fueladjustmentsmonthly11",
    b"fueladjustmentsmonthly12",
];

/// A list with an item for each month: written in brackets into one cell, or into twelve columns.
#[derive(Clone, Copy)]
pub enum MonthList {
    /// The flat demand period of each month.
    FlatPeriods,
    /// The fraction of the earlier peak that each month is billed for at least.
    Ratchets,
    /// What is added to energy prices for fuel.
    FuelAdjustments,
}

impl MonthList {
    /// The column of the whole list, in small letters.
    pub fn list_name(self) -> &'static [u8]
        ensures value { result.now ≡ spec.list_name self }
        ensures length { length result.now ≤ 23 }
    {
        match self {
            MonthList::FlatPeriods => b"flatdemandmonths",
            MonthList::Ratchets => b"demandratchetpercentage",
            MonthList::FuelAdjustments => b"fueladjustmentsmonthly",
        }
    }

    /// The column of a month, from 0, in small letters.
    pub fn month_name(self, month: u8) -> &'static [u8]
        requires { month < 12 }
        ensures { result.now ≡ spec.month_name self month }
    {
        match self {
            MonthList::FlatPeriods => name_at(self, &FLAT_NAMES, month),
            MonthList::Ratchets => name_at(self, &RATCHET_NAMES, month),
            MonthList::FuelAdjustments => name_at(self, &FUEL_NAMES, month),
        }
    }
}

/// The column of a month in a table of a list's twelve.
fn name_at(list: MonthList, names: &[&'static [u8]; 12], month: u8) -> &'static [u8]
    requires month { month < 12 }
    requires names { map (λ name. name.now) names.now ≡ spec.month_names list }
    ensures { result.now ≡ spec.month_name list month }
{
    names[usize::from(month)]
}
