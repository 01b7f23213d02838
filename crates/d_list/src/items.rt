//! A list of things in order.

ghost use Rattle.std.specs.Prelude.{◌≡◌, ◌==◌, None, [], ◌∷◌, ◌++◌, length, option_map, slice_index_or, IfOk, OnOk, OnErr};

use d_num::NoMemory;
use std::alloc::Global;
use std::marker::Model;

/// Things of one kind in order, counted from 0. A contract sees them as a list.
#[derive(Drop)]
pub struct Items<T> {
    items: Vec<T>,
}

impl<T> Model for Items<T> {
    ghost use Rattle.std.specs.Prelude.{List};
    ghost use Rattle.std.specs.Coded.{coded_list};

    ghost Value = { List T };

    ghost coded = { coded_list T.code };

    ghost view = { λ list. list.items.items };
}

impl<T> Items<T> {
    /// Nothing.
    pub fn new(alloc: Global) -> Items<T>
        ensures { result ≡ [] }
    {
        Items {
            items: Vec::new(alloc),
        }
    }

    /// How many there are.
    pub fn len(&self) -> usize
        ensures { result ≡ length self.now }
    {
        self.items.len()
    }

    /// Whether there is none.
    pub fn is_empty(&self) -> bool
        ensures { result ≡ (length self.now == 0) }
    {
        self.items.is_empty()
    }

    /// All of them.
    pub fn as_slice(&self) -> &[T]
        ensures { result.now ≡ self.now }
    {
        self.items.as_slice()
    }
}

impl<T: Drop> Items<T> {
    /// Adds one at the end. Without memory nothing changes.
    pub fn add(&mut self, item: T) -> Result<(), NoMemory>
        ensures ok { OnOk result (self.new ≡ self.old ++ item ∷ []) }
        ensures err { OnErr result (self.new ≡ self.old) }
    {
        if self.items.push(item).is_err() {
            return Err(NoMemory);
        }
        Ok(())
    }
}

impl<T: Copy> Items<T> {
    /// The same things once more, in memory of their own.
    pub fn copied(&self, alloc: Global) -> Result<Items<T>, NoMemory>
        ensures { IfOk result (λ list. list ≡ self.now) }
    {
        let items = Vec::from_slice(alloc, self.items.as_slice())?;
        Ok(Items { items })
    }
}

impl<T> Items<Option<T>> {
    /// What stands at that place, or None exactly where nothing does or there is no such place.
    pub fn entry(&self, place: u8) -> Option<&T>
        ensures { option_map (λ item. item.now) result ≡ slice_index_or self.now place None }
    {
        let place = usize::from(place);
        if place < self.items.len() {
            self.items[place].as_ref()
        } else {
            None
        }
    }
}
