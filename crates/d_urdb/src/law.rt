//! What holds of all records.

ghost use Rattle.d_urdb.specs.FlatMonths.{ReadsAsInGrids};
ghost use Rattle.d_urdb.specs.Law.{AcceptsTariffs, AcceptsTables, AcceptsGrids};
ghost use Rattle.d_urdb.specs.Numbers.{HasOneReader};
ghost use Rattle.d_urdb.specs.OwnTiers.{ChargesAsRecorded};
ghost use Rattle.d_urdb.specs.Record.{HasOneOutcome};

/// Each cell of a record is read in exactly one way, so that each record, by its label and the rule of billing, has exactly one outcome.
/// A period is written in a list of months as it is in a grid of hours.
pub fn reads_once()
    ensures cells { HasOneReader }
    ensures outcome { HasOneOutcome }
    ensures periods { ReadsAsInGrids }
{}

/// The terms of each record that isn't refused are a valid tariff, whoever reads it: prices, charges and fractions are in range, and each
/// hour has an energy period that is there. The tiers of each period are a table, with 1 to 16 tiers whose ends rise. Each schedule has 24
/// periods, from 0 to 35, for each of twelve months, and each list of months twelve entries. The ranges are our own.
pub fn accepts_tariffs()
    ensures tariffs { AcceptsTariffs }
    ensures tables { AcceptsTables }
    ensures grids { AcceptsGrids }
{}

/// Where nothing of a period is refused, its table, in which neighbours of one price are one tier, charges every amount as the tiers that
/// the record has.
pub fn charges_as_recorded()
    ensures { ChargesAsRecorded }
{}
