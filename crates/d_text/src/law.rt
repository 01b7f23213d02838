//! What holds of all decimals, grids and lists.

ghost use Rattle.d_text.specs.Law.{HasOneReading, HasValueOrNone, HasOneGrid, HasOneList, HasOneFloor, HasValueOrFault, HasFloorOrFault, HasGridOrFault, HasListOrFault};

/// A text says at most one thing as a decimal, so that a cell has one value at most.
pub fn reads_one_way()
    ensures { HasOneReading }
{}

/// Each text has exactly one value as a decimal with so many places and that limit, or none.
pub fn reads_or_not()
    ensures { HasValueOrNone }
{}

/// A cell is at most one grid, and at most one list of twelve items.
pub fn splits_one_way()
    ensures grid { HasOneGrid }
    ensures list { HasOneList }
{}

/// A cell has at most one value rounded down, with so many places and that limit.
pub fn rounds_one_way()
    ensures { HasOneFloor }
{}

/// Each cell is read in one way or refused for one reason, and never both: as a decimal, as a decimal rounded down, as a grid, and as a
/// list of twelve items.
pub fn reads_or_refuses()
    ensures decimal { HasValueOrFault }
    ensures floor { HasFloorOrFault }
    ensures grid { HasGridOrFault }
    ensures list { HasListOrFault }
{}
