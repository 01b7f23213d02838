//! The columns that nothing is read from.

ghost use Rattle.std.specs.Prelude.{◌≡◌, ◌<◌, length, map};
ghost use Rattle.std.specs.List.{list_any, range_with_len};
ghost use Rattle.d_columns.specs.Ignored as spec;
ghost use Rattle.d_columns.specs.MonthLists.{month_name};
ghost use Rattle.d_columns.specs.Shown.{row_of};

use crate::cells::Cells;
use crate::month_list::MonthList;
use crate::reading::read_tier_name;

// The columns of one name each, in small letters.
const PLAIN_NAMES: [&[u8]; 15] = [
    b"label",
    b"dgrules",
    b"energyweekdayschedule",
    b"energyweekendschedule",
    b"demandrateunit",
    b"demandweekdayschedule",
    b"demandweekendschedule",
    b"flatdemandunit",
    b"lookbackpercent",
    b"fixedchargefirstmeter",
    b"fixedchargeunits",
    b"mincharge",
    b"minchargeunits",
    b"annualmincharge",
    b"demandreactivepowercharge",
];

impl<'a> Cells<'a> {
    /// Whether a column is filled though nothing is read from it.
    pub fn is_ignored(&self, column: usize) -> bool
        requires { column < length (row_of self.now).header }
        ensures { result ≡ spec.is_ignored (row_of self.now) column }
    {
        !self.table.cell(self.row, column).is_empty() && !self.is_read(column)
    }

    /// Whether something is read from a column.
    fn is_read(&self, column: usize) -> bool
        requires { column < length (row_of self.now).header }
        ensures { result ≡ spec.is_read (row_of self.now) column }
    {
        if self.is_tier_column(column) {
            return true;
        }
        self.has_one_of(column, &PLAIN_NAMES) || self.is_in_month_list(column)
    }

    /// Whether a column is that of a part of a tier, of the tiers 0 to 15 of the periods 0 to 35.
    fn is_tier_column(&self, column: usize) -> bool
        requires { column < length (row_of self.now).header }
        ensures { result ≡ spec.is_tier_column (row_of self.now) column }
    {
        let Some(name) = read_tier_name(self.table.name(column)) else {
            return false;
        };
        let Some(tier) = name.number() else {
            return false;
        };
        is_place(
            self.part_column(name.structure, name.period, tier, name.part),
            column,
        )
    }

    /// Whether a column is one of the three lists of months.
    fn is_in_month_list(&self, column: usize) -> bool
        ensures { result ≡ list_any (spec.is_month_column (row_of self.now) column) spec.month_lists }
    {
        if self.is_month_column(column, MonthList::FlatPeriods) {
            return true;
        }
        self.is_month_column(column, MonthList::Ratchets)
            || self.is_month_column(column, MonthList::FuelAdjustments)
    }

    /// Whether a column is that of a list of months: the one of the list, or one of the twelve where that isn't filled.
    fn is_month_column(&self, column: usize, list: MonthList) -> bool
        ensures { result ≡ spec.is_month_column (row_of self.now) column list }
    {
        if self.has_name(column, list.list_name()) {
            return true;
        }
        self.named_cell(list.list_name()).is_empty() && self.is_one_of_twelve(column, list)
    }

    /// Whether a column is one of the twelve of a list of months.
    fn is_one_of_twelve(&self, column: usize, list: MonthList) -> bool
        ensures { result ≡ list_any (λ month. spec.has_name (row_of self.now) column (month_name list month)) (range_with_len 0 12) }
    {
        for month in 0..12 {
            if self.has_name(column, list.month_name(month)) {
                return true;
            }
        }
        false
    }

    /// Whether a column is that of one of the names, which are in small letters.
    fn has_one_of(&self, column: usize, names: &[&[u8]]) -> bool
        ensures { result ≡ list_any (spec.has_name (row_of self.now) column) (map (λ name. name.now) names.now) }
    {
        for place in 0..names.len() {
            if self.has_name(column, names[place]) {
                return true;
            }
        }
        false
    }

    /// Whether a column is that of this name, which is in small letters: of two of one name the first.
    fn has_name(&self, column: usize, name: &[u8]) -> bool
        ensures { result ≡ spec.has_name (row_of self.now) column name.now }
    {
        is_place(self.position(name), column)
    }
}

/// Whether a place is this column.
fn is_place(place: Option<usize>, column: usize) -> bool
    ensures { result ≡ spec.is_column column place }
{
    place == Some(column)
}
