//! What a battery can do in an interval.

ghost use Rattle.std.specs.Prelude.{◌≡◌, IfOk};

use crate::name::Name;
use d_list::Items;
use d_num::{NoMemory, Wh};
use std::alloc::Global;

/// A mode: by how many levels it changes the battery, what it adds to the net reading of an interval, and from which to which level
/// it may begin.
#[derive(Drop)]
pub struct Mode {
    /// Its name, which no other mode of the battery has.
    pub name: Name,
    /// By how many levels it changes the battery, from -255 to 255.
    pub change: i16,
    /// What it adds to the net reading of an interval, at most 10^9 Wh in size.
    pub grid: Wh,
    /// The lowest level at which it may begin.
    pub low: u8,
    /// The highest level at which it may begin, at least the lowest.
    pub high: u8,
}

impl Mode {
    /// The same mode once more. It takes no memory.
    pub fn copied(&self) -> Mode
        ensures { result ≡ self.now }
    {
        Mode {
            name: self.name.copied(),
            change: self.change,
            grid: self.grid,
            low: self.low,
            high: self.high,
        }
    }
}

/// Modes in order, counted from 0.
pub type ModeList = Items<Mode>;

/// The same modes once more, in memory of their own.
pub(crate) fn copied_modes(alloc: Global, modes: &ModeList) -> Result<ModeList, NoMemory>
    ensures { IfOk result (λ copy. copy ≡ modes.now) }
{
    let mut copy = Items::new(alloc);
    for mode in modes.as_slice() {
        copy.add(mode.copied())?;
    }
    Ok(copy)
}
