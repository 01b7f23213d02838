//! The rows of a file, read one after the other.

ghost use Rattle.std.specs.Prelude.{◌≡◌, ◌∷◌, ◌↔◌, [], true, false, IsTrue, IfOk, IfErr};
ghost use Rattle.csv.specs.Reading.{strip_bom};
ghost use Rattle.d_table.specs.Table.{HasMark, rows_of};
ghost use Rattle.d_table.specs.Cells.{cells_of};
ghost use Rattle.d_table.specs.Reading.{IsReading, rows_left};

use crate::table::TableFault;
use csv::{ByteRecord, Reader, ReaderBuilder};
use std::alloc::Global;

/// A reader of the rows of these bytes. One byte order mark is taken off them first.
pub(crate) fn reader_of(alloc: Global, bytes: &[u8]) -> Reader<&[u8]>
    ensures reading { IsReading result }
    ensures rows { rows_left result ≡ rows_of bytes.now }
{
    ReaderBuilder::new()
        .has_headers(false)
        .flexible(true)
        .from_reader(alloc, behind_mark(bytes))
}

/// Reads the next row into `row`, and answers whether there was one.
pub(crate) fn next_row(reader: &mut Reader<&[u8]>, row: &mut ByteRecord) -> Result<bool, TableFault>
    requires { IsReading reader.old }
    ensures reading { IfOk result (λ found. found ≡ true → IsReading reader.new) }
    ensures row { IfOk result (λ found. found ≡ true → rows_left reader.old ≡ cells_of row.new ∷ rows_left reader.new) }
    ensures end { IfOk result (λ found. found ≡ false → rows_left reader.old ≡ []) }
    ensures fault { IfErr result (λ fault. fault ≡ TableFault.Memory) }
{
    // From bytes in memory the reader fails for want of memory alone.
    let Ok(found) = reader.read_byte_record(row) else {
        return Err(TableFault::Memory);
    };
    Ok(found)
}

/// The bytes behind one byte order mark of UTF-8, or all of them where there is none.
fn behind_mark(bytes: &[u8]) -> &[u8]
    ensures { result.now ≡ strip_bom bytes.now }
{
    if has_mark(bytes) { &bytes[3..] } else { bytes }
}

/// Whether the bytes begin with a byte order mark of UTF-8.
fn has_mark(bytes: &[u8]) -> bool
    ensures { IsTrue result ↔ HasMark bytes.now }
{
    bytes.len() >= 3 && bytes[0] == 0xEF && bytes[1] == 0xBB && bytes[2] == 0xBF
}
