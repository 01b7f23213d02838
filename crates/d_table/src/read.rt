//! Reading a file into a table, as a whole or with the rows that are asked for.

ghost use Rattle.std.specs.Prelude.{◌≡◌, ◌++◌, [], length, OnOk, IfOk, IfErr, IfSome, IfNone};
ghost use Rattle.d_table.specs.Table.{rows_of, kept_rows, IsRectangular};
ghost use Rattle.d_table.specs.Fault.{IsTableFault};
ghost use Rattle.d_table.specs.Choice.{kept_of};
ghost use Rattle.d_table.specs.Reading.{IsReading, rows_left};

use crate::choice::Choice;
use crate::reading::{next_row, reader_of};
use crate::table::{Table, TableFault};
use csv::{ByteRecord, Reader};
use std::alloc::Global;

/// The table of these bytes. One byte order mark is taken off them first; the first row is the header, and an empty file has no
/// columns and no rows. It is refused where a data row has another number of cells than the header.
pub fn read_table(alloc: Global, bytes: &[u8]) -> Result<Table, TableFault>
    ensures value { IfOk result (λ table. table ≡ rows_of bytes.now) }
    ensures fault { IfErr result (IsTableFault (rows_of bytes.now)) }
    ensures rectangular { OnOk result (IsRectangular (rows_of bytes.now)) }
{
    let mut reader = reader_of(alloc, bytes);
    match read_header(alloc, &mut reader)? {
        Some(table) => read_rows(alloc, &mut reader, table, Choice::Every),
        None => Ok(Table::new(alloc)),
    }
}

/// The table of the header and the first two of the data rows whose cell in the column of that name is the value; of the header alone
/// where there is no such column. A third such row tells a reader of one row no more than the second, so it isn't kept. The column's name
/// is in small letters. It is refused where any data row, also one that isn't kept, has another number of cells than the header. The
/// bytes are read once, and no row that isn't kept stays in memory.
pub fn read_where(
    alloc: Global,
    bytes: &[u8],
    column: &[u8],
    value: &[u8],
) -> Result<Table, TableFault>
    ensures value { IfOk result (λ table. table ≡ kept_rows column.now value.now (rows_of bytes.now)) }
    ensures fault { IfErr result (IsTableFault (rows_of bytes.now)) }
    ensures rectangular { OnOk result (IsRectangular (rows_of bytes.now)) }
{
    let mut reader = reader_of(alloc, bytes);
    match read_header(alloc, &mut reader)? {
        Some(table) => {
            let choice = match table.position(column) {
                Some(column) => Choice::Where { column, value },
                None => Choice::Nothing,
            };
            read_rows(alloc, &mut reader, table, choice)
        }
        None => Ok(Table::new(alloc)),
    }
}

/// The table of a file's first row, the header, where it has one.
fn read_header(alloc: Global, reader: &mut Reader<&[u8]>) -> Result<Option<Table>, TableFault>
    requires { IsReading reader.old }
    ensures reading { IfOk result (λ found. IfSome found (λ _. IsReading reader.new)) }
    ensures header { IfOk result (λ found. IfSome found (λ table. (length table ≡ 1) × (rows_left reader.old ≡ table ++ rows_left reader.new))) }
    ensures empty { IfOk result (λ found. IfNone found (rows_left reader.old ≡ [])) }
    ensures fault { IfErr result (λ fault. fault ≡ TableFault.Memory) }
{
    let mut row = ByteRecord::new(alloc);
    if !next_row(reader, &mut row)? {
        return Ok(None);
    }
    Ok(Some(Table::of_header(alloc, &row)?))
}

/// The header's table with the chosen ones of the rows that are left. The first row of another length ends it.
fn read_rows(
    alloc: Global,
    reader: &mut Reader<&[u8]>,
    header: Table,
    choice: Choice<'_>,
) -> Result<Table, TableFault>
    requires reading { IsReading reader.old }
    requires header { length header ≡ 1 }
    ensures value { IfOk result (λ table. table ≡ header ++ kept_of choice.entry (rows_left reader.old)) }
    ensures fault { IfErr result (IsTableFault (header ++ rows_left reader.old)) }
    ensures rectangular { OnOk result (IsRectangular (header ++ rows_left reader.old)) }
{
    let width = header.columns();
    let mut table = header;
    let mut row = ByteRecord::new(alloc);
    for number in 0..u64::MAX {
        if !next_row(reader, &mut row)? {
            return Ok(table);
        }
        if row.len() != width {
            return Err(TableFault::Shape(number));
        }
        table = choice.keep(table, &row)?;
    }
    // No memory holds a file of so many rows.
    Err(TableFault::Memory)
}
