ghost use Rattle.std.specs.Prelude.{◌≡◌, IsTrue, OnOk, OnErr};
ghost use Rattle.d_desk.specs.Cause.{HasCause};
ghost use Rattle.d_desk.specs.Stages.{PrintsOnly, PrintsFront, SavesOnly, SavesFront};

use crate::desk::Desk;
use crate::fault::DeskFault;

/// Prints the whole part. After an error a front of it was printed. Nothing else changes.
pub fn print_all<D: Desk>(desk: &mut D, part: &[u8]) -> Result<(), DeskFault>
    ensures all { D.tells → OnOk result (PrintsOnly part.now (D.scene desk.old) (D.scene desk.new)) }
    ensures cut_short { D.tells → OnErr result (PrintsFront part.now (D.scene desk.old) (D.scene desk.new)) }
    ensures input { D.input_open desk.new ≡ D.input_open desk.old }
    ensures output { D.output_open desk.new ≡ D.output_open desk.old }
    ensures taken { D.taken desk.new ≡ D.taken desk.old }
    ensures cause { HasCause (D.faults desk.old) (D.faults desk.new) result }
{
    let mut done = 0;
    while done < part.len() {
        let count = desk.print(&part[done..])?;
        done += count;
    }
    Ok(())
}

/// Appends the whole part to the open output. After an error the output has taken a front of it.
/// Nothing else changes.
pub fn save_all<D: Desk>(desk: &mut D, part: &[u8]) -> Result<(), DeskFault>
    requires { IsTrue (D.output_open desk.old) }
    ensures all { D.tells → OnOk result (SavesOnly part.now (D.scene desk.old) (D.scene desk.new)) }
    ensures cut_short { D.tells → OnErr result (SavesFront part.now (D.scene desk.old) (D.scene desk.new)) }
    ensures input { D.input_open desk.new ≡ D.input_open desk.old }
    ensures output { D.output_open desk.new ≡ D.output_open desk.old }
    ensures taken { D.taken desk.new ≡ D.taken desk.old }
    ensures cause { HasCause (D.faults desk.old) (D.faults desk.new) result }
{
    let mut done = 0;
    while done < part.len() {
        let count = desk.save(&part[done..])?;
        done += count;
    }
    Ok(())
}
