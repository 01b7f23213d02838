//! The lines of a leaf.

ghost use Rattle.std.specs.Prelude.{◌≡◌, ◌+◌, ◌^◌, ◌≤◌, [], List, length, IsTrue, OnOk};
ghost use Rattle.d_num.specs.declared.pot.Pot.{Pot};
ghost use Rattle.d_desk.specs.Cause.{HasCause};
ghost use Rattle.d_bill.specs.Slopes.{tiered};
ghost use Rattle.d_bound.specs.Roots.{IsProblemBox};
ghost use Rattle.d_bound.specs.Bounders.{IsBounderOf};
ghost use Rattle.d_bound.specs.Nodes.{box_arcs};
ghost use Rattle.d_path.specs.Arcs.{intervals_of};
ghost use Rattle.d_bound.specs.Bounders.{IsFilled, held_arcs};
ghost use Rattle.d_bill.specs.Inputs.{Inputs};
ghost use Rattle.d_certline.specs.Lines.{text_of};
ghost use Rattle.d_certline.specs.Certificates.{leaf_of, tree_lines, layer_lines};
ghost use Rattle.d_cert.specs.Saved.{SavesText};
ghost use Rattle.d_cert.specs.Written.{AreRows};

use crate::save::{save_counts, save_layer};
use d_bill::Problem;
use d_bound::Bounder;
use d_box::{Slopes, Space};
use d_desk::{Desk, DeskFault};

/// Saves a leaf: its slopes, of which there are none as long as no period is tiered, and its layers from the month's end back.
pub fn save_leaf<D: Desk>(
    desk: &mut D,
    line: &mut Vec<u8>,
    problem: &Problem,
    space: &Space,
    slopes: &Slopes,
    bounder: &mut Bounder,
) -> Result<(), DeskFault>
    requires untiered { tiered problem.now ≡ [] }
    requires bounder { IsBounderOf problem.now bounder.old }
    requires boxed { IsProblemBox bounder.old.candidates space.now }
    requires output { IsTrue (D.output_open desk.old) }
    requires empty { line.old.items ≡ [] }
    ensures told { (layers : List (List Pot)) → AreRows (box_arcs problem.now space.now slopes.now) layers → length layers ≡ length problem.now.net + 1
        → D.tells → SavesText (text_of (tree_lines (leaf_of [] layers))) (D.scene desk.old) (D.scene desk.new) result }
    ensures bounder { IsBounderOf problem.now bounder.new }
    ensures candidates { bounder.new.candidates ≡ bounder.old.candidates }
    ensures empty { OnOk result (line.new.items ≡ []) }
    ensures input { D.input_open desk.new ≡ D.input_open desk.old }
    ensures output { D.output_open desk.new ≡ D.output_open desk.old }
    ensures taken { D.taken desk.new ≡ D.taken desk.old }
    ensures cause { HasCause (D.faults desk.old) (D.faults desk.new) result }
{
    bounder.fill(problem, space, slopes);
    save_counts(desk, line, "leaf", &[])?;
    save_counts(desk, line, "slopes", &[])?;
    save_layers(desk, line, problem.intervals(), bounder)
}

/// Saves the layers with which the bounder was filled, from the month's end, which has the number of intervals, back to the first interval.
fn save_layers<D: Desk>(
    desk: &mut D,
    line: &mut Vec<u8>,
    intervals: u32,
    bounder: &mut Bounder,
) -> Result<(), DeskFault>
    requires filled { IsFilled bounder.old }
    requires intervals { intervals ≡ intervals_of (held_arcs bounder.old) }
    requires few { intervals ≤ 10 ^ 4 }
    requires output { IsTrue (D.output_open desk.old) }
    requires empty { line.old.items ≡ [] }
    ensures told { (layers : List (List Pot)) → AreRows (held_arcs bounder.old) layers → length layers ≡ intervals + 1
        → D.tells → SavesText (text_of (layer_lines layers)) (D.scene desk.old) (D.scene desk.new) result }
    ensures bounder { (i : Inputs) → IsBounderOf i bounder.old → IsBounderOf i bounder.new }
    ensures candidates { bounder.new.candidates ≡ bounder.old.candidates }
    ensures empty { OnOk result (line.new.items ≡ []) }
    ensures input { D.input_open desk.new ≡ D.input_open desk.old }
    ensures output { D.output_open desk.new ≡ D.output_open desk.old }
    ensures taken { D.taken desk.new ≡ D.taken desk.old }
    ensures cause { HasCause (D.faults desk.old) (D.faults desk.new) result }
{
    let mut left = intervals + 1;
    while left > 0 {
        left -= 1;
        bounder.turn_to(left);
        save_layer(desk, line, left, bounder.layer(left))?;
    }
    Ok(())
}
