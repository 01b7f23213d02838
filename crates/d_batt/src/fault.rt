//! Why a battery file is refused.

use d_num::NoMemory;

/// Why there is no battery in a table. Rows are counted from 0 behind the header. The causes and their order are our own rules.
#[derive(Clone, Copy)]
pub enum BatteryFault {
    /// The header isn't that of a battery file.
    Shape,
    /// The row's kind, the name that it sets or the form of its mode's name is none that a row may have.
    Unknown(u64),
    /// No row sets the capacity.
    Missing,
    /// An earlier row is of the same kind and name.
    Twice(u64),
    /// A number of the row is none, or no whole one.
    Number(u64),
    /// A number of the row is out of its range, or out of order with another.
    Range(u64),
    /// No row has a mode.
    NoModes,
    /// The row has the 65th mode.
    TooMany(u64),
    /// Memory was wanted and there was none.
    Memory,
}

impl From<NoMemory> for BatteryFault {
    ghost use Rattle.std.specs.Prelude.{◌≡◌};
    ghost use Rattle.d_batt.specs.declared.fault.BatteryFault.TheVariants.{Memory};

    ghost from_gives = { λ e f. f ≡ Memory };

    fn from(_error: NoMemory) -> BatteryFault {
        BatteryFault::Memory
    }
}
