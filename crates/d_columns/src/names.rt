//! The names of the columns of tiers.

ghost use Rattle.std.specs.Prelude.{◌≡◌, ◌≤◌, ◌<◌, length};
ghost use Rattle.d_columns.specs.Names as spec;
ghost use Rattle.d_columns.specs.Tiers.{has_part};

/// How many periods a structure has room for, which are counted from 0.
pub const PERIODS: u8 = 36;

/// How many tiers a period has room for, which are counted from 0.
pub const TIERS: u8 = 16;

/// A group of a record's tiers.
#[derive(Clone, Copy, PartialEq, Eq)]
pub enum Structure {
    Energy,
    Demand,
    FlatDemand,
    Coincident,
}

impl Structure {
    /// How the names of its columns begin.
    pub(crate) fn text(self) -> &'static [u8]
        ensures value { result.now ≡ spec.structure_text self }
        ensures length { length result.now ≤ 23 }
    {
        match self {
            Structure::Energy => b"energyratestructure",
            Structure::Demand => b"demandratestructure",
            Structure::FlatDemand => b"flatdemandstructure",
            Structure::Coincident => b"coincidentratestructure",
        }
    }

    /// Its place among the structures, from 0.
    pub(crate) fn number(self) -> usize
        ensures value { result ≡ spec.structure_number self }
        ensures within { result < 4 }
    {
        match self {
            Structure::Energy => 0,
            Structure::Demand => 1,
            Structure::FlatDemand => 2,
            Structure::Coincident => 3,
        }
    }

    /// Whether its tiers have that part: units and sell rates are for energy alone, and tiers of coincident demand have no end.
    pub(crate) fn has_part(self, part: Part) -> bool
        ensures { result ≡ has_part self part }
    {
        match self {
            Structure::Energy => true,
            Structure::Demand | Structure::FlatDemand => !matches!(part, Part::Unit | Part::Sell),
            Structure::Coincident => matches!(part, Part::Rate | Part::Adj),
        }
    }
}

/// What a column says of a tier: where it ends, in which unit, its price, what is added to that, and what is paid for energy sent out.
/// Tiers of demand have `Max`, `Rate` and `Adj` alone, those of coincident demand `Rate` and `Adj`.
#[derive(Clone, Copy)]
pub enum Part {
    Max,
    Unit,
    Rate,
    Adj,
    Sell,
}

impl Part {
    /// How the names of its columns end.
    pub(crate) fn text(self) -> &'static [u8]
        ensures value { result.now ≡ spec.part_text self }
        ensures length { length result.now ≤ 4 }
    {
        match self {
            Part::Max => b"max",
            Part::Unit => b"unit",
            Part::Rate => b"rate",
            Part::Adj => b"adj",
            Part::Sell => b"sell",
        }
    }

    /// Its place among the parts, from 0.
    pub(crate) fn number(self) -> usize
        ensures value { result ≡ spec.part_number self }
        ensures within { result < 5 }
    {
        match self {
            Part::Max => 0,
            Part::Unit => 1,
            Part::Rate => 2,
            Part::Adj => 3,
            Part::Sell => 4,
        }
    }
}
