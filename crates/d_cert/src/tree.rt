//! The lines of the tree.

ghost use Rattle.std.specs.Prelude.{◌≡◌, ◌<◌, [], length, IsTrue, OnOk};
ghost use Rattle.d_desk.specs.Cause.{HasCause};
ghost use Rattle.d_bill.specs.Slopes.{tiered};
ghost use Rattle.d_bound.specs.Bounders.{IsBounderOf};
ghost use Rattle.d_search.specs.Shapes.{FormTree};
ghost use Rattle.d_certline.specs.Lines.{text_of, Line};
ghost use Rattle.d_certline.specs.Certificates.{Tree as Branch, tree_lines};
ghost use Rattle.d_cert.specs.Saved.{SavesText};
ghost use Rattle.d_cert.specs.Written.{IsTreeOf};
ghost use Rattle.d_cert.specs.Cuts.{cut_line};

use crate::leaf::save_leaf;
use crate::save::save_numbers;
use d_bill::Problem;
use d_bound::Bounder;
use d_box::Split;
use d_desk::{Desk, DeskFault};
use d_search::Tree;

/// Saves the tree from the node of this number on: the node's split and the trees of its halves, the left one first, or its leaf. How deep it
/// goes is how often a box can be split: each split of a peak halves the candidates of one group, and each split of a total takes the end
/// of a tier.
pub fn save_tree<D: Desk>(
    desk: &mut D,
    line: &mut Vec<u8>,
    problem: &Problem,
    tree: &Tree,
    number: u32,
    bounder: &mut Bounder,
) -> Result<(), DeskFault>
    requires untiered { tiered problem.now ≡ [] }
    requires bounder { IsBounderOf problem.now bounder.old }
    requires tree { FormTree bounder.old.candidates tree.now }
    requires number { number < length tree.now }
    requires output { IsTrue (D.output_open desk.old) }
    requires empty { line.old.items ≡ [] }
    ensures told { (branch : Branch) → IsTreeOf problem.now tree.now number branch
        → D.tells → SavesText (text_of (tree_lines branch)) (D.scene desk.old) (D.scene desk.new) result }
    ensures bounder { IsBounderOf problem.now bounder.new }
    ensures candidates { bounder.new.candidates ≡ bounder.old.candidates }
    ensures empty { OnOk result (line.new.items ≡ []) }
    ensures input { D.input_open desk.new ≡ D.input_open desk.old }
    ensures output { D.output_open desk.new ≡ D.output_open desk.old }
    ensures taken { D.taken desk.new ≡ D.taken desk.old }
    ensures cause { HasCause (D.faults desk.old) (D.faults desk.new) result }
{
    let node = tree.node(number);
    match node.split {
        None => save_leaf(desk, line, problem, &node.space, &node.node.slopes, bounder),
        Some(split) => {
            save_split(desk, line, split)?;
            save_tree(desk, line, problem, tree, node.left, bounder)?;
            save_tree(desk, line, problem, tree, node.right, bounder)
        }
    }
}

/// Saves the line of a split.
fn save_split<D: Desk>(desk: &mut D, line: &mut Vec<u8>, split: Split) -> Result<(), DeskFault>
    requires output { IsTrue (D.output_open desk.old) }
    requires empty { line.old.items ≡ [] }
    ensures told { D.tells → SavesText (text_of (cut_line split)) (D.scene desk.old) (D.scene desk.new) result }
    ensures empty { OnOk result (line.new.items ≡ []) }
    ensures input { D.input_open desk.new ≡ D.input_open desk.old }
    ensures output { D.output_open desk.new ≡ D.output_open desk.old }
    ensures taken { D.taken desk.new ≡ D.taken desk.old }
    ensures cause { HasCause (D.faults desk.old) (D.faults desk.new) result }
{
    match split {
        Split::Total { index, at } => save_numbers(
            desk,
            line,
            "split total",
            &[index as i128, at as i128],
        ),
        Split::Peak { group, at } => save_numbers(
            desk,
            line,
            "split peak",
            &[group as i128, at as i128],
        ),
    }
}
