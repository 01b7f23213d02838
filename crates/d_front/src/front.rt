//! The front of a search.

ghost use Rattle.std.specs.Prelude.{◌≡◌, ◌<◌, ◌≤◌, ◌↔◌, [], ◌∷◌, length, IfOk, IsTrue};
ghost use Rattle.std.specs.List.Sorted.{IsPermutation};
ghost use Rattle.d_front.specs.Fronts.{IsFirst, IsTaken};

use crate::key::Key;
use d_num::NoMemory;
use std::alloc::Global;
use std::cmp::Reverse;
use std::collections::BinaryHeap;
use std::marker::Model;

/// The open boxes of a search by their keys, with room for a number of them. A contract sees it as the list of its keys, in no order that
/// a clause names, and its room.
#[derive(Drop)]
pub struct Front {
    heap: BinaryHeap<Reverse<Key>>,
    room: u32,
}

impl Model for Front {
    ghost use Rattle.std.specs.Prelude.{◌≤◌};
    ghost use Rattle.std.specs.BinaryHeap.{heap_items, heap_capacity, IsHeap};
    ghost use Rattle.d_front.specs.Fronts.{Waiting, shown, last_cmp};

    ghost Value = { Waiting };

    ghost view = { λ a. record { keys = shown (heap_items a.heap); room = a.room } };

    ghost invariant = { λ a. IsHeap last_cmp (heap_items a.heap) × (a.room ≤ heap_capacity a.heap) };
}

impl Front {
    /// An empty front with room for so many keys, which is taken at once. It answers `NoMemory` where memory ran out.
    pub fn make(alloc: Global, capacity: u32) -> Result<Front, NoMemory>
        ensures { IfOk result (λ front. (front.keys ≡ []) × (front.room ≡ capacity)) }
    {
        let heap = BinaryHeap::with_capacity(alloc, capacity as usize)?;
        Ok(Front {
            heap,
            room: capacity,
        })
    }

    /// Whether no further key has room.
    pub fn is_full(&self) -> bool
        ensures { IsTrue result ↔ (self.now.room ≤ length self.now.keys) }
    {
        self.room as usize <= self.heap.len()
    }

    /// Puts a key in, for which there has to be room. It takes no memory.
    pub fn put(&mut self, key: Key)
        requires { length self.old.keys < self.old.room }
        ensures keys { IsPermutation (key ∷ self.old.keys) self.new.keys }
        ensures room { self.new.room ≡ self.old.room }
    {
        self.heap.push(Reverse(key)).unwrap();
    }

    /// The key that comes first, or None exactly where there is none.
    pub fn least(&self) -> Option<Key>
        ensures { IsFirst self.now.keys result }
    {
        let first = self.heap.peek()?;
        Some(first.0)
    }

    /// Takes out the key that comes first, or answers None exactly where there is none.
    pub fn take_least(&mut self) -> Option<Key>
        ensures taken { IsTaken self.old.keys result self.new.keys }
        ensures room { self.new.room ≡ self.old.room }
    {
        let Reverse(key) = self.heap.pop()?;
        Some(key)
    }
}
