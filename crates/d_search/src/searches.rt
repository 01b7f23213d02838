//! The search for the schedule with the least bill.

ghost use Rattle.std.specs.Prelude.{◌≡◌, []};
ghost use Rattle.d_bill.specs.Slopes.{tiered};
ghost use Rattle.d_search.specs.ProblemLaws.{IsDecidedByEnough};
ghost use Rattle.d_search.specs.Problems.{IsPromised, IsSearched};
ghost use Rattle.d_search.specs.Rooms.{IsRoomOf};

use crate::ends::{finish, nothing, verdict_at};
use crate::law::{searches_keep_promises, searches_suffice};
use crate::leaves::{add_root, split_leaf};
use crate::outcome::{Outcome, Verdict};
use crate::room::Room;
use d_bill::Problem;
use d_bound::bounds_come_with_bills;

/// Searches for the schedule with the least bill, in the room that was made for this problem; it takes no further memory. It begins with the
/// box of all schedules, and splits, again and again, the leaf that comes first, until no bound is below the least bill, or the first leaf
/// can't be split, or its halves would be more boxes than the room's budget. Our own rule.
pub fn search(problem: &Problem, room: Room) -> Outcome
    requires untiered { tiered problem.now ≡ [] }
    requires room { IsRoomOf problem.now room }
    ensures outcome { IsSearched problem.now room.budget result }
    ensures promise { IsPromised problem.now room.budget result }
    ensures enough { IsDecidedByEnough problem.now room.budget result }
{
    // shows the ranges of the problem
    let _count = problem.intervals();
    searches_keep_promises();
    searches_suffice();
    grow(problem, room)
}

/// Splits the first leaf, again and again, until there is a reason to stop.
fn grow(problem: &Problem, room: Room) -> Outcome
    requires untiered { tiered problem.now ≡ [] }
    requires room { IsRoomOf problem.now room }
    ensures outcome { IsSearched problem.now room.budget result }
{
    bounds_come_with_bills();
    let Room {
        mut bounder,
        mut growth,
        budget,
    } = room;
    add_root(problem, &mut bounder, &mut growth);
    while let Some(key) = growth.front.take_least() {
        let count = growth.nodes.len();
        if let Some(verdict) = verdict_at(growth.bill, count, budget, &key) {
            return finish(growth, verdict, Some(key.bound));
        }
        split_leaf(problem, &mut bounder, &mut growth, &key);
    }
    if growth.bill.is_none() {
        return nothing(growth);
    }
    finish(growth, Verdict::Least, None)
}
