//! A table of cells under a header.

ghost use Rattle.std.specs.Prelude.{◌≡◌, ◌∷◌, ◌++◌, ◌+◌, ◌-◌, ◌<◌, ◌↔◌, ℕ, List, [], length, map, bytes_eq, IsTrue, OnOk, IfOk, IfErr, IfSome};
ghost use Rattle.std.specs.Str.{str_to_ascii_lowercase};
ghost use Rattle.csv.specs.Records.{fields_of};
ghost use Rattle.indexmap.specs.IndexMap.{get_by};
ghost use Rattle.d_table.specs.Table.{row_at, cell_in, IsRectangular, IsHeader, column_of};
ghost use Rattle.d_table.specs.Cells.{cells_of};

use crate::block::Block;
use crate::cell::cell_of;
use csv::ByteRecord;
use indexmap::IndexMap;
use std::alloc::{AllocError, AllocFailed, Global};
use std::marker::Model;

/// Why no table was made of a file.
#[derive(Clone, Copy, Debug)]
pub enum TableFault {
    /// The first data row, counted from 0, with another number of cells than the header.
    Shape(u64),
    /// Memory was wanted and there was none.
    Memory,
}

impl From<AllocError> for TableFault {
    ghost use Rattle.std.specs.Prelude.{◌≡◌};
    ghost use Rattle.d_table.specs.declared.table.TableFault.TheVariants.{Memory};

    ghost from_gives = { λ e f. f ≡ Memory };

    fn from(_error: AllocError) -> TableFault {
        TableFault::Memory
    }
}

impl<T: Drop> From<AllocFailed<T>> for TableFault {
    ghost use Rattle.std.specs.Prelude.{◌≡◌};
    ghost use Rattle.d_table.specs.declared.table.TableFault.TheVariants.{Memory};

    ghost from_gives = { λ e f. f ≡ Memory };

    fn from(_failed: AllocFailed<T>) -> TableFault {
        TableFault::Memory
    }
}

/// A file's rows, the header first, each with as many cells as the header. A contract sees it as the list of the rows, each a list
/// of cells, and a cell as its bytes without the spaces and tabs at its ends.
#[derive(Drop)]
pub struct Table {
    // How many cells each row has.
    width: usize,
    // How many rows there are, the header among them.
    count: usize,
    // The cells of the rows, one row after the other.
    cells: Block,
    // The first column of each name, in small letters.
    columns: IndexMap<Vec<u8>, usize>,
}

impl Model for Table {
    ghost use Rattle.std.specs.Prelude.{◌≡◌, ◌*◌, List, ℕ, length, bytes_eq};
    ghost use Rattle.indexmap.specs.IndexMap.{get_by};
    ghost use Rattle.d_table.specs.Table.{row_at, column_of};
    ghost use Rattle.d_table.specs.Block.{block_rows};

    ghost Value = { List (List (List ℕ)) };

    ghost view = { λ t. block_rows t.width t.count t.cells };

    ghost invariant = { λ t. (length t.cells ≡ t.count * t.width)
        × ((name : List ℕ) → get_by (λ k. bytes_eq name k.items) t.columns ≡ column_of name (row_at (block_rows t.width t.count t.cells) 0)) };
}

impl Table {
    /// The table of an empty file: no columns and no rows.
    pub(crate) fn new(alloc: Global) -> Table
        ensures { result ≡ [] }
    {
        Table {
            width: 0,
            count: 0,
            cells: Block::new(alloc),
            columns: IndexMap::new(alloc),
        }
    }

    /// The table of a header alone.
    pub(crate) fn of_header(alloc: Global, header: &ByteRecord) -> Result<Table, TableFault>
        ensures value { IfOk result (λ table. table ≡ cells_of header.now ∷ []) }
        ensures fault { IfErr result (λ fault. fault ≡ TableFault.Memory) }
    {
        let columns = columns_of(alloc, header)?;
        let mut cells = Block::new(alloc);
        cells.add_row(header)?;
        Ok(Table {
            width: header.len(),
            count: 1,
            cells,
            columns,
        })
    }

    /// The table with one more row at its end.
    pub(crate) fn with_row(self, row: &ByteRecord) -> Result<Table, TableFault>
        requires there { 0 < length self }
        requires width { length (fields_of row.now) ≡ length (row_at self 0) }
        ensures value { IfOk result (λ table. table ≡ self ++ cells_of row.now ∷ []) }
        ensures fault { IfErr result (λ fault. fault ≡ TableFault.Memory) }
    {
        let Table {
            width,
            count,
            mut cells,
            columns,
        } = self;
        // No memory holds so many rows that they can't be counted.
        let Some(count) = count.checked_add(1) else {
            return Err(TableFault::Memory);
        };
        cells.add_row(row)?;
        Ok(Table {
            width,
            count,
            cells,
            columns,
        })
    }

    /// The number of columns that the header has; none where the file is empty.
    pub fn columns(&self) -> usize
        ensures count { result ≡ length (row_at self.now 0) }
        ensures rectangular { IsRectangular self.now }
    {
        if self.count == 0 { 0 } else { self.width }
    }

    /// The number of data rows, the header not among them.
    pub fn rows(&self) -> usize
        ensures count { result ≡ length self.now - 1 }
        ensures there { (row : ℕ) → row < result → row + 1 < length self.now }
        ensures rectangular { IsRectangular self.now }
    {
        self.count.saturating_sub(1)
    }

    /// The header's cell of a column, as it is written.
    pub fn name(&self, column: usize) -> &[u8]
        requires { column < length (row_at self.now 0) }
        ensures { result.now ≡ cell_in (row_at self.now 0) column }
    {
        self.cells.at(self.width, 0, column)
    }

    /// The first column of that name, ASCII case ignored. The name is in small letters. It takes no memory.
    pub fn position(&self, name: &[u8]) -> Option<usize>
        ensures value { result ≡ column_of name.now (row_at self.now 0) }
        ensures within { IfSome result (λ column. column < length (row_at self.now 0)) }
    {
        self.columns.get(name).copied()
    }

    /// A cell of a data row, without the spaces and tabs at its ends. Rows and columns are counted from 0.
    pub fn cell(&self, row: usize, column: usize) -> &[u8]
        requires row { row + 1 < length self.now }
        requires column { column < length (row_at self.now 0) }
        ensures { result.now ≡ cell_in (row_at self.now (row + 1)) column }
    {
        // shows the range of the count, and so of the row behind this one
        let _count = self.count;
        self.cells.at(self.width, row + 1, column)
    }

    /// Whether the header is exactly these names, ASCII case ignored. The names are in small letters.
    pub fn has_header(&self, names: &[&[u8]]) -> bool
        ensures { IsTrue result ↔ IsHeader (map (λ name. name.now) names.now) (row_at self.now 0) }
    {
        if self.columns() != names.len() {
            return false;
        }
        for column in 0..names.len() {
            if !is_named(self.name(column), names[column]) {
                return false;
            }
        }
        true
    }
}

/// The first column of each of a header's names, in small letters.
fn columns_of(alloc: Global, header: &ByteRecord) -> Result<IndexMap<Vec<u8>, usize>, TableFault>
    ensures value { IfOk result (λ columns. (name : List ℕ) → get_by (λ k. bytes_eq name k.items) columns ≡ column_of name (cells_of header.now)) }
    ensures fault { IfErr result (λ fault. fault ≡ TableFault.Memory) }
{
    let mut columns = IndexMap::new(alloc);
    for column in 0..header.len() {
        let name = lowered(alloc, cell_of(header, column))?;
        if !columns.contains_key(name.as_slice()) {
            columns.insert(name, column)?;
        }
    }
    Ok(columns)
}

/// The cell in ASCII small letters.
fn lowered(alloc: Global, cell: &[u8]) -> Result<Vec<u8>, TableFault>
    ensures value { IfOk result (λ name. name.items ≡ str_to_ascii_lowercase cell.now) }
    ensures fault { IfErr result (λ fault. fault ≡ TableFault.Memory) }
{
    let mut name = cell.to_vec(alloc)?;
    name.as_mut_slice().make_ascii_lowercase();
    Ok(name)
}

/// Whether the cell is the name, ASCII case ignored. The name is in small letters.
pub fn is_named(cell: &[u8], name: &[u8]) -> bool
    ensures { IsTrue result ↔ (str_to_ascii_lowercase cell.now ≡ name.now) }
{
    if cell.len() != name.len() {
        return false;
    }
    for place in 0..cell.len() {
        if cell[place].to_ascii_lowercase() != name[place] {
            return false;
        }
    }
    true
}
