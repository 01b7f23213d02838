//! The leaves of a search's tree, and how one is split.

ghost use Rattle.std.specs.Prelude.{◌≡◌, ◌<◌, ◌≤◌, ◌+◌, ◌++◌, ◌∷◌, ℕ, [], Some, None, false, length, option_map};
ghost use Rattle.d_bill.specs.Slopes.{tiered};
ghost use Rattle.d_bound.specs.Bounders.{IsBounderOf};
ghost use Rattle.d_bound.specs.Roots.{IsProblemBox};
ghost use Rattle.d_search.specs.Growths.{HasLeaf, IsHeld};
ghost use Rattle.d_search.specs.Problems.{rules_of};
ghost use Rattle.d_search.specs.Rooms.{IsEmpty};
ghost use Rattle.d_search.specs.Rules.{IsBelow};
ghost use Rattle.d_search.specs.Trees.{leaf_of, bill_at, root_alone, IsFirstLeaf, IsSplitOnce};

use crate::boxes::{bound_box, halve, place_of, root_at};
use crate::growth::{Growth, keep_less, mark_split, push_leaf, put_key};
use d_bill::Problem;
use d_bound::Bounder;
use d_box::{Slopes, Space};
use d_front::Key;

/// Makes the node of the root.
pub(crate) fn add_root(problem: &Problem, bounder: &mut Bounder, growth: &mut Growth)
    requires untiered { tiered problem.now ≡ [] }
    requires bounder { IsBounderOf problem.now bounder.old }
    requires empty { IsEmpty (length problem.now.net) growth.old.front.room growth.old }
    requires some { 1 ≤ growth.old.front.room }
    requires few { growth.old.front.room ≤ 65535 }
    ensures bounder { IsBounderOf problem.now bounder.new }
    ensures held { IsHeld problem.now bounder.new.candidates growth.new None }
    ensures nodes { growth.new.nodes.items ≡ root_alone (rules_of problem.now bounder.new.candidates) }
    ensures places { growth.new.front.room ≡ growth.old.front.room }
{
    let space = root_at(problem, bounder);
    add_leaf(problem, bounder, growth, &space, None);
}

/// Makes the node of a box whose parent has these slopes.
fn add_leaf(
    problem: &Problem,
    bounder: &mut Bounder,
    growth: &mut Growth,
    space: &Space,
    parent: Option<&Slopes>,
)
    requires untiered { tiered problem.now ≡ [] }
    requires bounder { IsBounderOf problem.now bounder.old }
    requires boxed { IsProblemBox bounder.old.candidates space.now }
    requires held { IsHeld problem.now bounder.old.candidates growth.old None }
    requires room { length growth.old.nodes.items < growth.old.front.room }
    ensures bounder { IsBounderOf problem.now bounder.new }
    ensures candidates { bounder.new.candidates ≡ bounder.old.candidates }
    ensures held { IsHeld problem.now bounder.old.candidates growth.new None }
    ensures nodes { HasLeaf problem.now bounder.old.candidates growth.old space.now (option_map (λ s. s.now) parent.entry) growth.new }
    ensures places { growth.new.front.room ≡ growth.old.front.room }
{
    let node = bound_box(problem, bounder, space, parent, &mut growth.trial);
    let number = growth.nodes.len() as u32;
    push_leaf(&mut growth.nodes, space, &node);
    keep_less(
        &mut growth.bill,
        &mut growth.kept,
        &mut growth.trial,
        node.bill,
    );
    let point = place_of(problem, bounder.candidates(), space).is_none();
    put_key(&mut growth.front, node.bound, point, number);
}

/// Splits the leaf of the first key, which was taken out, and makes the nodes of its halves.
pub(crate) fn split_leaf(problem: &Problem, bounder: &mut Bounder, growth: &mut Growth, key: &Key)
    requires untiered { tiered problem.now ≡ [] }
    requires bounder { IsBounderOf problem.now bounder.old }
    requires held { IsHeld problem.now bounder.old.candidates growth.old (Some key.now) }
    requires first { IsFirstLeaf (rules_of problem.now bounder.old.candidates) growth.old.nodes.items key.now }
    requires below { (number : ℕ) → IsBelow (Some key.now.bound) (bill_at growth.old.nodes.items number) }
    requires apart { key.now.point ≡ false }
    requires room { length growth.old.nodes.items + 2 ≤ growth.old.front.room }
    ensures bounder { IsBounderOf problem.now bounder.new }
    ensures candidates { bounder.new.candidates ≡ bounder.old.candidates }
    ensures held { IsHeld problem.now bounder.old.candidates growth.new None }
    ensures split { IsSplitOnce (rules_of problem.now bounder.old.candidates) growth.old.nodes.items growth.new.nodes.items }
    ensures places { growth.new.front.room ≡ growth.old.front.room }
{
    let parent = &growth.nodes[key.node as usize];
    let slopes = parent.node.slopes;
    let mut left = parent.space;
    let mut right = parent.space;
    let split = halve(
        problem,
        bounder.candidates(),
        &parent.space,
        &mut left,
        &mut right,
    )
    .unwrap();
    mark_split(&mut growth.nodes, key.node, split);
    add_leaf(problem, bounder, growth, &left, Some(&slopes));
    add_leaf(problem, bounder, growth, &right, Some(&slopes));
}
