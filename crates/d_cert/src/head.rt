//! The lines in front of the tree.

ghost use Rattle.std.specs.Prelude.{◌≡◌, ◌++◌, [], IsTrue, OnOk, string_bytes};
ghost use Rattle.d_desk.specs.Cause.{HasCause};
ghost use Rattle.d_bill.specs.Slopes.{tiered};
ghost use Rattle.d_certline.specs.Lines.{text_of};
ghost use Rattle.d_cert.specs.Saved.{SavesText};
ghost use Rattle.d_cert.specs.Heads.{month_lines, size_lines, verdict_line};

use crate::save::{save_counts, save_text};
use d_bill::Problem;
use d_desk::{Desk, DeskFault};
use d_report::month_text;
use d_search::Verdict;
use std::alloc::Global;

/// Saves the lines of the version, the label, the month and its intervals.
pub fn save_month<D: Desk>(
    alloc: Global,
    desk: &mut D,
    line: &mut Vec<u8>,
    problem: &Problem,
    label: &str,
) -> Result<(), DeskFault>
    requires output { IsTrue (D.output_open desk.old) }
    requires empty { line.old.items ≡ [] }
    ensures told { D.tells → SavesText (text_of (month_lines problem.now label.now)) (D.scene desk.old) (D.scene desk.new) result }
    ensures empty { OnOk result (line.new.items ≡ []) }
    ensures input { D.input_open desk.new ≡ D.input_open desk.old }
    ensures output { D.output_open desk.new ≡ D.output_open desk.old }
    ensures taken { D.taken desk.new ≡ D.taken desk.old }
    ensures cause { HasCause (D.faults desk.old) (D.faults desk.new) result }
{
    let month = month_text(alloc, problem.month())?;
    save_counts(desk, line, "dispatch-certificate 1", &[])?;
    save_text(desk, line, "label ", label)?;
    save_text(desk, line, "month ", month.as_str())?;
    save_counts(desk, line, "minutes", &[problem.minutes() as u64])?;
    save_counts(desk, line, "intervals", &[problem.intervals() as u64])
}

/// Saves the lines of the battery's levels, and of how many modes, groups and tiered periods there are.
pub fn save_sizes<D: Desk>(
    desk: &mut D,
    line: &mut Vec<u8>,
    problem: &Problem,
) -> Result<(), DeskFault>
    requires untiered { tiered problem.now ≡ [] }
    requires output { IsTrue (D.output_open desk.old) }
    requires empty { line.old.items ≡ [] }
    ensures told { D.tells → SavesText (text_of (size_lines problem.now)) (D.scene desk.old) (D.scene desk.new) result }
    ensures empty { OnOk result (line.new.items ≡ []) }
    ensures input { D.input_open desk.new ≡ D.input_open desk.old }
    ensures output { D.output_open desk.new ≡ D.output_open desk.old }
    ensures taken { D.taken desk.new ≡ D.taken desk.old }
    ensures cause { HasCause (D.faults desk.old) (D.faults desk.new) result }
{
    let battery = problem.battery();
    let levels = [
        battery.floor as u64,
        battery.capacity as u64,
        battery.start as u64,
        battery.end as u64,
    ];
    save_counts(desk, line, "levels", &levels)?;
    save_counts(
        desk,
        line,
        "modes",
        &[battery.modes.as_slice().len() as u64],
    )?;
    save_counts(desk, line, "groups", &[problem.groups().len() as u64])?;
    save_counts(desk, line, "tiered", &[0])
}

/// Saves the line of what is claimed.
pub fn save_verdict<D: Desk>(
    desk: &mut D,
    line: &mut Vec<u8>,
    verdict: Verdict,
) -> Result<(), DeskFault>
    requires output { IsTrue (D.output_open desk.old) }
    requires empty { line.old.items ≡ [] }
    ensures told { D.tells → SavesText (text_of (verdict_line verdict)) (D.scene desk.old) (D.scene desk.new) result }
    ensures empty { OnOk result (line.new.items ≡ []) }
    ensures input { D.input_open desk.new ≡ D.input_open desk.old }
    ensures output { D.output_open desk.new ≡ D.output_open desk.old }
    ensures taken { D.taken desk.new ≡ D.taken desk.old }
    ensures cause { HasCause (D.faults desk.old) (D.faults desk.new) result }
{
    let claim = match verdict {
        Verdict::Least => "least",
        Verdict::GapBudget => "gap",
        Verdict::GapDuality => "gap",
        Verdict::Infeasible => "none",
    };
    save_text(desk, line, "verdict ", claim)
}
