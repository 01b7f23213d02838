//! The candidates of each group, and the box that holds every feasible schedule.

ghost use Rattle.std.specs.Prelude.{◌<◌, ◌≤◌, IfOk, length};
ghost use Rattle.d_box.specs.Candidates.{lists_of};
ghost use Rattle.d_bound.specs.Roots.{AreCandidates};
ghost use Rattle.d_bound.specs.RootSteps.{AreDrawn, AreDrawnLists, IsFoundDrawn, IsRootBy};

use d_bill::Problem;
use d_box::{Candidates, Range, Space};
use d_num::NoMemory;
use std::alloc::Global;

/// The range of 0 alone.
const NOTHING: Range = Range { low: 0, high: 0 };

/// The candidates of each group: the different powers that it may draw.
pub(crate) fn candidates_of(alloc: Global, problem: &Problem) -> Result<Candidates, NoMemory>
    ensures { IfOk result (AreCandidates problem.now) }
{
    let lists = drawn_lists(alloc, problem)?;
    Ok(Candidates::from_lists(lists))
}

/// For each group the powers that it may draw.
fn drawn_lists(alloc: Global, problem: &Problem) -> Result<Vec<Vec<i64>>, NoMemory>
    ensures { IfOk result (λ lists. AreDrawnLists problem.now (length problem.now.peaks) (lists_of lists.items)) }
{
    let count = problem.groups().len();
    let mut lists = Vec::with_capacity(alloc, count)?;
    for group in 0..count {
        let list = drawn_powers(alloc, problem, group as u8)?;
        lists.push(list)?;
    }
    Ok(lists)
}

/// The powers that a group may draw, interval by interval.
fn drawn_powers(alloc: Global, problem: &Problem, group: u8) -> Result<Vec<i64>, NoMemory>
    requires { group < length problem.now.peaks }
    ensures { IfOk result (λ list. AreDrawn problem.now group list.items) }
{
    let modes = problem.battery().modes.len();
    let count = problem.intervals() as usize * modes;
    let mut list = Vec::new(alloc);
    for place in 0..count {
        let interval = (place / modes) as u32;
        let mode = (place % modes) as u8;
        if let Some(power) = drawn_at(problem, group, interval, mode) {
            list.push(power)?;
        }
    }
    Ok(list)
}

/// The power of a mode in an interval that the group holds; None where the group doesn't hold it or the mode isn't permitted.
fn drawn_at(problem: &Problem, group: u8, interval: u32, mode: u8) -> Option<i64>
    requires interval { interval < length problem.now.net }
    requires mode { mode < length problem.now.storage.modes }
    ensures { IsFoundDrawn problem.now group interval mode result }
{
    if !problem.in_group(interval, group) {
        return None;
    }
    let arc = problem.arc(interval, mode)?;
    Some(arc.power.value())
}

/// The box that holds every feasible schedule, of a problem in which no period is tiered.
pub(crate) fn root_of(candidates: &Candidates) -> Space
    requires { length candidates.now ≤ 37 }
    ensures { IsRootBy candidates.now result }
{
    let mut space = Space {
        peaks: [NOTHING; 37],
        totals: [NOTHING; 36],
    };
    for group in 0..candidates.count() {
        space.peaks[group] = candidates.range(group as u8);
    }
    space
}
