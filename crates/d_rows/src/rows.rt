//! Rows of one width in one block.

ghost use Rattle.std.specs.Prelude.{◌≡◌, ◌≢◌, ◌<◌, ◌^◌, [], length, replicate, slice_index_or, IfOk};
ghost use Rattle.std.specs.Borrow.{sem};
ghost use Rattle.d_num.specs.declared.pot.Pot.TheVariants.{NoWay};
ghost use Rattle.d_rows.specs.Lending.{LendsRow};

use crate::cuts::cut_apart;
use crate::packed::Packed;
use std::alloc::{AllocError, Global};
use std::marker::Model;

/// So many rows, each with one cost a level. A contract sees it as the list of the rows.
#[derive(Drop)]
pub struct Rows {
    levels: usize,
    count: usize,
    block: Vec<Packed>,
}

impl Model for Rows {
    ghost use Rattle.std.specs.Prelude.{◌≡◌, ◌*◌, List, length};
    ghost use Rattle.d_num.specs.declared.pot.Pot.{Pot};
    ghost use Rattle.d_rows.specs.Blocks.{block_rows};

    ghost Value = { List (List Pot) };

    ghost view = { λ a. block_rows a.levels a.count a.block.items };

    ghost invariant = { λ a. length a.block.items ≡ a.count * a.levels };
}

impl Rows {
    /// So many rows of so many levels, in which no way is known, unless memory ran out.
    pub fn make(alloc: Global, count: usize, levels: u16) -> Result<Rows, AllocError>
        requires { count < 2 ^ 33 }
        ensures { IfOk result (λ rows. rows ≡ replicate count (replicate levels NoWay)) }
    {
        let levels = levels as usize;
        Ok(Rows {
            levels,
            count,
            block: Vec::from_elem(alloc, Packed::no_way(), count * levels)?,
        })
    }

    /// Row t.
    pub fn row_at(&self, t: usize) -> &[Packed]
        requires { t < length self.now }
        ensures { result.now ≡ slice_index_or self.now t [] }
    {
        let start = t * self.levels;
        &self.block[start..start + self.levels]
    }

    /// Row `write` for writing beside another, row `read`, for reading.
    pub fn pair_at(&mut self, write: usize, read: usize) -> (&mut [Packed], &[Packed])
        requires write { write < length self.old }
        requires read { read < length self.old }
        requires apart { write ≢ read }
        ensures* writes_back { sem 𝓛 (LendsRow self.entry write result.0) }
        ensures row { result.0.now ≡ slice_index_or self.old write [] }
        ensures other { result.1.now ≡ slice_index_or self.old read [] }
    {
        let start = write * self.levels;
        let end = start + self.levels;
        let from = read * self.levels;
        let to = from + self.levels;
        cut_apart(&mut self.block, start, end, from, to)
    }

    /// Row t for writing.
    pub fn row_mut(&mut self, t: usize) -> &mut [Packed]
        requires { t < length self.old }
        ensures* writes_back { sem 𝓛 (LendsRow self.entry t result) }
        ensures row { result.now ≡ slice_index_or self.old t [] }
    {
        let start = t * self.levels;
        let end = start + self.levels;
        let (row, _) = cut_apart(&mut self.block, start, end, end, end);
        row
    }
}
