//! Why no readings are read.

use d_num::NoMemory;

/// Why a table has no month of readings. Rows are its data rows, counted from 0.
#[derive(Clone, Copy)]
pub enum MeterFault {
    /// The header isn't `start,net_wh`.
    Shape,
    /// The row's start isn't of the form, or names no minute of the calendar.
    Start(u64),
    /// The row's start isn't the one that is due in this place. Row 0 is due at 00:00 of the first day of a month.
    Order(u64),
    /// The second start isn't 15, 30 or 60 minutes after the first.
    Step,
    /// How many rows there are, and how many there have to be.
    Count(u64, u64),
    /// The row's net reading is no whole number.
    Number(u64),
    /// The row's net reading is above 10^9 Wh in size.
    TooLarge(u64),
    /// Memory was wanted and there was none.
    Memory,
}

impl From<NoMemory> for MeterFault {
    ghost use Rattle.std.specs.Prelude.{◌≡◌};
    ghost use Rattle.d_meter.specs.declared.fault.MeterFault.TheVariants.{Memory};

    ghost from_gives = { λ e f. f ≡ Memory };

    fn from(_error: NoMemory) -> MeterFault {
        MeterFault::Memory
    }
}
