//! Cells one after the other, in one block of bytes.

ghost use Rattle.std.specs.Prelude.{◌≡◌, ◌∷◌, ◌++◌, ◌+◌, ◌*◌, ◌<◌, [], length, slice_index_or, OnOk, IfErr};
ghost use Rattle.csv.specs.Records.{prev};
ghost use Rattle.d_table.specs.Cells.{cells_of};

use crate::cell::cell_of;
use crate::table::TableFault;
use csv::ByteRecord;
use std::alloc::Global;
use std::marker::Model;

/// Cells one after the other. A contract sees it as the list of the cells.
#[derive(Drop)]
pub(crate) struct Block {
    // The bytes of all cells.
    bytes: Vec<u8>,
    // Where each cell ends among the bytes. It begins where the one before it ends.
    ends: Vec<u32>,
}

impl Model for Block {
    ghost use Rattle.std.specs.Prelude.{List, ℕ, length};
    ghost use Rattle.csv.specs.Records.{cut_from};
    ghost use Rattle.d_table.specs.Block.{IsCut};

    ghost Value = { List (List ℕ) };

    ghost view = { λ b. cut_from 0 b.ends.items b.bytes.items };

    ghost invariant = { λ b. IsCut b.ends.items (length b.bytes.items) };
}

impl Block {
    /// No cells.
    pub(crate) fn new(alloc: Global) -> Block
        ensures { result ≡ [] }
    {
        Block {
            bytes: Vec::new(alloc),
            ends: Vec::new(alloc),
        }
    }

    /// Puts a cell at the end.
    fn add(&mut self, cell: &[u8]) -> Result<(), TableFault>
        ensures value { OnOk result (self.new ≡ self.old ++ cell.now ∷ []) }
        ensures fault { IfErr result (λ fault. fault ≡ TableFault.Memory) }
    {
        // Where a cell ends is kept in 32 bits, so a block of 4 GiB or more has no room.
        let Ok(end) = u32::try_from(self.bytes.len() + cell.len()) else {
            return Err(TableFault::Memory);
        };
        // With room for one more end only the bytes can lack memory, and then nothing has changed.
        self.ends.reserve(1)?;
        self.bytes.extend_from_slice(cell)?;
        self.ends.push(end)?;
        Ok(())
    }

    /// Puts the cells of a record at the end.
    pub(crate) fn add_row(&mut self, row: &ByteRecord) -> Result<(), TableFault>
        ensures value { OnOk result (self.new ≡ self.old ++ cells_of row.now) }
        ensures fault { IfErr result (λ fault. fault ≡ TableFault.Memory) }
    {
        for column in 0..row.len() {
            self.add(cell_of(row, column))?;
        }
        Ok(())
    }

    /// The cell of a row and a column, where each row has so many cells.
    pub(crate) fn at(&self, width: usize, row: usize, column: usize) -> &[u8]
        requires { row * width + column < length self.now }
        ensures { result.now ≡ slice_index_or self.now (row * width + column) [] }
    {
        let ends = self.ends.as_slice();
        let place = row * width + column;
        &self.bytes[start_of(ends, place)..ends[place] as usize]
    }
}

/// Where a cell begins: where the one before it ends.
fn start_of(ends: &[u32], place: usize) -> usize
    requires { place < length ends.now }
    ensures { result ≡ prev 0 ends.now place }
{
    if place == 0 {
        0
    } else {
        ends[place - 1] as usize
    }
}
