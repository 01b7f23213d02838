//! The line that says why a record is refused.

ghost use Rattle.std.specs.Prelude.{◌≡◌, ◌∷◌, ◌++◌, IfOk, OnOk, string_bytes, codes};
ghost use Rattle.std.specs.Fmt.{decimal};
ghost use Rattle.d_table.specs.Table.{row_at, cell_in};
ghost use Rattle.d_report.specs.Shown.{behind_blank};
ghost use Rattle.d_run.specs.RecordText.{record_text, column_text};
ghost use Rattle.d_urdb.specs.RefusalNames.{refusal_name};

use d_num::NoMemory;
use d_report::{put_behind_blank, put_shown};
use d_table::Table;
use d_urdb::{Refused, refusal_name};
use std::alloc::{AllocError, Global};

/// The line of a record's refusal: its number and name, the column that it names, its detail, and the cell of the first data row in
/// that column, where it isn't empty.
pub fn record_line(alloc: Global, table: &Table, refused: Refused) -> Result<Vec<u8>, NoMemory>
    ensures { IfOk result (λ text. text.items ≡ record_text table.now refused) }
{
    let front = front_text(alloc, refused.number)?;
    let detail = detail_text(alloc, refused.detail)?;
    let mut text = Vec::new(alloc);
    text.extend_from_slice(front.as_str().as_bytes())?;
    put_column(&mut text, table, refused.column)?;
    text.extend_from_slice(detail.as_str().as_bytes())?;
    put_cell(&mut text, table, refused.column)?;
    text.push(b'\n')?;
    Ok(text)
}

/// The front of the line: the number and the name of the refusal.
fn front_text(alloc: Global, number: u8) -> Result<String, AllocError>
    ensures { IfOk result (λ text. string_bytes text ≡ codes "refused record " ++ (decimal number ++ 32 ∷ (refusal_name number ++ codes " "))) }
{
    let name = refusal_name(number);
    format!(in alloc; "refused record {number} {name} ")
}

/// The detail of the refusal behind a blank.
fn detail_text(alloc: Global, detail: u64) -> Result<String, AllocError>
    ensures { IfOk result (λ text. string_bytes text ≡ 32 ∷ decimal detail) }
{
    format!(in alloc; " {detail}")
}

/// Adds the name of a column as it is shown, or `none` where there is no such column.
fn put_column(text: &mut Vec<u8>, table: &Table, column: usize) -> Result<(), NoMemory>
    ensures { OnOk result (text.new.items ≡ text.old.items ++ column_text (row_at table.now 0) column) }
{
    if column < table.columns() {
        put_shown(text, table.name(column))
    } else {
        text.extend_from_slice(b"none")?;
        Ok(())
    }
}

/// Adds a blank and the first data row's cell in a column as it is shown, or nothing where it is empty or there is no such cell.
fn put_cell(text: &mut Vec<u8>, table: &Table, column: usize) -> Result<(), NoMemory>
    ensures { OnOk result (text.new.items ≡ text.old.items ++ behind_blank (cell_in (row_at table.now 1) column)) }
{
    if table.rows() > 0 && column < table.columns() {
        put_behind_blank(text, table.cell(0, column))
    } else {
        Ok(())
    }
}
