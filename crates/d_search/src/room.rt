//! The room of a search.

ghost use Rattle.std.specs.Prelude.{◌≡◌, ◌≤◌, [], IfOk};
ghost use Rattle.d_bill.specs.Slopes.{tiered};
ghost use Rattle.d_search.specs.Rooms.{IsRoomOf};

use crate::growth::Growth;
use d_bill::Problem;
use d_bound::Bounder;
use d_num::NoMemory;
use std::alloc::Global;

/// All memory that one search of a problem takes: what its boxes are bounded by, and places for as many nodes and keys as its budget says,
/// and for two schedules.
#[derive(Drop)]
pub struct Room {
    pub(crate) bounder: Bounder,
    pub(crate) growth: Growth,
    pub(crate) budget: u32,
}

impl Room {
    /// The room of a search that may look at so many boxes, from 1 to 65535, for a problem in which no period is tiered; it answers
    /// `NoMemory` where memory ran out.
    pub fn make(alloc: Global, problem: &Problem, budget: u32) -> Result<Room, NoMemory>
        requires untiered { tiered problem.now ≡ [] }
        requires some { 1 ≤ budget }
        requires few { budget ≤ 65535 }
        ensures room { IfOk result (IsRoomOf problem.now) }
        ensures budget { IfOk result (λ room. room.budget ≡ budget) }
    {
        let bounder = Bounder::make(alloc, problem)?;
        let growth = Growth::make(alloc, problem.intervals(), budget)?;
        Ok(Room {
            bounder,
            growth,
            budget,
        })
    }
}
