//! What holds of all battery files.

ghost use Rattle.d_batt.specs.Law.{HasOneOutcome, AcceptsBatteries};
ghost use Rattle.d_batt.specs.Numbers.{HasOneReader};

/// Each cell of a number is read in exactly one way, so that each battery file has exactly one outcome.
pub fn reads_once()
    ensures cells { HasOneReader }
    ensures outcome { HasOneOutcome }
{}

/// The battery of each file that isn't refused is one: its levels are in order, its limits are in range, and it has 1 to 64 modes in their
/// ranges and of different names.
pub fn accepts_batteries()
    ensures { AcceptsBatteries }
{}
