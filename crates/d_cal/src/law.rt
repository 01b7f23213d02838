//! What holds of all cells.

ghost use Rattle.d_cal.specs.Starts.{HasOneStart};

/// A cell is the start of an interval in one way at most.
pub fn names_one_start()
    ensures { HasOneStart }
{}
