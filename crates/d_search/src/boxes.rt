//! What a search goes by, found by the calls of the crates below.

ghost use Rattle.std.specs.Prelude.{◌≡◌, [], ◌≤◌, length, option_map, IfSome, MatchOption};
ghost use Rattle.d_bill.specs.Slopes.{tiered};
ghost use Rattle.d_bound.specs.Bounders.{IsBounderOf};
ghost use Rattle.d_bound.specs.Roots.{IsProblemBox};
ghost use Rattle.d_box.specs.Halves.{IsCut, above_of, below_of};
ghost use Rattle.d_search.specs.Growths.{HasHalves, IsGroupThere};
ghost use Rattle.d_search.specs.Problems.{rules_of};

use d_bill::Problem;
use d_bound::{Bounder, Node, halves_are_boxes, roots_are_boxes};
use d_box::{Candidates, Slopes, Space, Split, halves, split_of, splits_are_cuts};

/// The root.
pub(crate) fn root_at(problem: &Problem, bounder: &Bounder) -> Space
    requires untiered { tiered problem.now ≡ [] }
    requires bounder { IsBounderOf problem.now bounder.now }
    ensures root { result ≡ (rules_of problem.now bounder.now.candidates).root }
    ensures boxed { IsProblemBox bounder.now.candidates result }
{
    roots_are_boxes();
    bounder.root(problem)
}

/// The node of a box whose parent has these slopes. Where it has a bill its schedule is written to the trial.
pub(crate) fn bound_box(
    problem: &Problem,
    bounder: &mut Bounder,
    space: &Space,
    parent: Option<&Slopes>,
    trial: &mut Vec<u8>,
) -> Node
    requires untiered { tiered problem.now ≡ [] }
    requires bounder { IsBounderOf problem.now bounder.old }
    requires boxed { IsProblemBox bounder.old.candidates space.now }
    requires trial { length trial.old.items ≡ length problem.now.net }
    ensures bounder { IsBounderOf problem.now bounder.new }
    ensures candidates { bounder.new.candidates ≡ bounder.old.candidates }
    ensures node { result ≡ (rules_of problem.now bounder.old.candidates).node_of space.now (option_map (λ s. s.now) parent.entry) }
    ensures schedule { IfSome result.bill (λ _. trial.new.items ≡ (rules_of problem.now bounder.old.candidates).schedule_of space.now result.slopes) }
    ensures trial { length trial.new.items ≡ length problem.now.net }
{
    bounder.node(problem, space, parent, trial.as_mut_slice())
}

/// Where a box is split, or None for a point.
pub(crate) fn place_of(problem: &Problem, candidates: &Candidates, space: &Space) -> Option<Split>
    requires untiered { tiered problem.now ≡ [] }
    requires long { length candidates.now ≡ length problem.now.peaks }
    requires boxed { IsProblemBox candidates.now space.now }
    ensures place { result ≡ (rules_of problem.now candidates.now).split_of space.now }
    ensures cut { IfSome result (IsCut candidates.now space.now) }
{
    splits_are_cuts();
    split_of(space, &[], problem.groups(), candidates)
}

/// Where the left half of a split ends.
fn end_of(split: Split) -> i64
    ensures { result ≡ below_of split }
{
    match split {
        Split::Total { index: _, at } => at,
        Split::Peak { group: _, at } => at,
    }
}

/// Where the right half of a split begins.
fn begin_of(candidates: &Candidates, split: Split) -> i64
    requires { IsGroupThere (length candidates.now) split }
    ensures { result ≡ above_of candidates.now split }
{
    match split {
        Split::Total { index: _, at } => at,
        Split::Peak { group, at } => candidates.next_above(group, at),
    }
}

/// Splits a box and writes its halves, or answers None for a point.
pub(crate) fn halve(
    problem: &Problem,
    candidates: &Candidates,
    space: &Space,
    left: &mut Space,
    right: &mut Space,
) -> Option<Split>
    requires untiered { tiered problem.now ≡ [] }
    requires long { length candidates.now ≡ length problem.now.peaks }
    requires boxed { IsProblemBox candidates.now space.now }
    ensures split { HasHalves (rules_of problem.now candidates.now) space.now result left.new right.new }
    ensures left { IfSome result (λ _. IsProblemBox candidates.now left.new) }
    ensures right { IfSome result (λ _. IsProblemBox candidates.now right.new) }
{
    halves_are_boxes();
    let split = place_of(problem, candidates, space)?;
    let below = end_of(split);
    let above = begin_of(candidates, split);
    halves(space, split, below, above, left, right);
    Some(split)
}
