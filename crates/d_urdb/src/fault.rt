//! Why a record is refused.

use d_num::NoMemory;

/// A refusal by its number, the position of the column that it names, counted from 0, or the number of columns where it names none, and a
/// detail: the kind of a number's fault, the place of a grid's fault, or a period, and 0 for all other refusals.
#[derive(Clone, Copy)]
pub struct Refused {
    /// The number of its cause, from 1 to 22.
    pub number: u8,
    /// The position of a column, or the number of columns.
    pub column: usize,
    /// The kind of a number's fault from 1 to 3, the place of a grid's or a list's fault in bytes from the cell's first, or a period from 0
    /// to 35; 0 where there is none to tell.
    pub detail: u64,
}

/// Why no tariff is made of a record.
#[derive(Clone, Copy)]
pub enum RecordFault {
    /// The record is refused.
    Refused(Refused),
    /// Memory was wanted and there was none.
    Memory,
}

impl From<Refused> for RecordFault {
    ghost use Rattle.std.specs.Prelude.{◌≡◌};
    ghost use Rattle.d_urdb.specs.declared.fault.RecordFault.TheVariants.{Refused};

    ghost from_gives = { λ e f. f ≡ Refused e };

    fn from(refused: Refused) -> RecordFault {
        RecordFault::Refused(refused)
    }
}

impl From<NoMemory> for RecordFault {
    ghost use Rattle.std.specs.Prelude.{◌≡◌};
    ghost use Rattle.d_urdb.specs.declared.fault.RecordFault.TheVariants.{Memory};

    ghost from_gives = { λ e f. f ≡ Memory };

    fn from(_error: NoMemory) -> RecordFault {
        RecordFault::Memory
    }
}
