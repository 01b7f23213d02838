ghost use Rattle.std.specs.Prelude.{◌≡◌, ◌+◌, ◌-◌, ◌^◌, [], ◌∷◌, ◌++◌, min, ◌↔◌, IsTrue, Contains, replicate, OnOk, OnErr, slice_index, slice_set};
ghost use Rattle.d_desk.specs.Planned.{number_of};

use std::alloc::{AllocError, Global};

/// A kind of call on a desk.
#[derive(Clone, Copy, PartialEq, Eq)]
pub enum DeskCall {
    OpenIn,
    Read,
    OpenOut,
    Save,
    CloseOut,
    Print,
}

/// A call that is to fail: that of this number among the calls of its kind, which count from 1.
#[derive(Clone, Copy, PartialEq, Eq)]
pub struct PlannedFault {
    /// Its kind.
    pub kind: DeskCall,
    /// Its number among the calls of its kind, which count from 1.
    pub number: u32,
}

/// Which calls are to fail, and how many calls of each kind came. Each count stays at its last
/// value.
#[derive(Drop)]
pub struct Plan {
    /// The calls that are to fail.
    pub planned: Vec<PlannedFault>,
    /// How many calls of each kind came.
    pub counts: [u32; 6],
}

impl Plan {
    /// No call is to fail, and none came.
    pub fn new(alloc: Global) -> Plan
        ensures planned { result.planned.items ≡ [] }
        ensures counts { result.counts ≡ replicate 6 0 }
    {
        Plan {
            planned: Vec::new(alloc),
            counts: [0; 6],
        }
    }

    /// Adds a call that is to fail.
    pub fn add(&mut self, kind: DeskCall, number: u32) -> Result<(), AllocError>
        ensures ok { OnOk result
            (self.new.planned.items
            ≡ self.old.planned.items ++ record { kind = kind; number = number } ∷ []) }
        ensures err { OnErr result (self.new.planned.items ≡ self.old.planned.items) }
        ensures counts { self.new.counts ≡ self.old.counts }
    {
        self.planned.push(PlannedFault { kind, number })?;
        Ok(())
    }

    /// Counts a call of this kind, and answers whether it is to fail.
    pub fn fails(&mut self, kind: DeskCall) -> bool
        ensures counted { let count = slice_index self.old.counts (number_of kind) in
            self.new.counts
            ≡ slice_set self.old.counts (number_of kind) (min (count + 1) (2 ^ 32 - 1)) }
        ensures planned { self.new.planned.items ≡ self.old.planned.items }
        ensures fails { let count = slice_index self.new.counts (number_of kind) in
            IsTrue result
            ↔ Contains self.old.planned.items (record { kind = kind; number = count }) }
    {
        let place = kind as usize;
        let number = self.counts[place].saturating_add(1);
        self.counts[place] = number;
        self.planned.contains(&PlannedFault { kind, number })
    }
}
