//! What holds of all tables of readings.

ghost use Rattle.d_meter.specs.Law.{HasOneReader, HasOneOutcome, AcceptsMonths};

/// Each cell is read in exactly one way, so that each table has exactly one outcome: its readings, or one refusal.
pub fn meters_once()
    ensures cells { HasOneReader }
    ensures outcome { HasOneOutcome }
{}

/// Accepted readings, whoever reads them, are those of a month of the calendar, from its first minute to its last, every 15, 30 or 60
/// minutes, and each is at most 10^9 Wh in size.
pub fn accepts_months()
    ensures { AcceptsMonths }
{}
