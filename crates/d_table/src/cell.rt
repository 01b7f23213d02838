//! The cells of a record: its fields, without the spaces and tabs at their ends.

ghost use Rattle.std.specs.Prelude.{◌≡◌};
ghost use Rattle.d_table.specs.Table.{cell_in, is_blank, without_front, without_back};
ghost use Rattle.d_table.specs.Cells.{cells_of};

use csv::ByteRecord;

/// A cell of a record; no bytes where the record has no such cell.
pub(crate) fn cell_of(row: &ByteRecord, column: usize) -> &[u8]
    ensures { result.now ≡ cell_in (cells_of row.now) column }
{
    match row.get(column) {
        Some(field) => before_blanks(behind_blanks(field)),
        None => &[],
    }
}

/// A field without the spaces and tabs at its front.
fn behind_blanks(field: &[u8]) -> &[u8]
    ensures { result.now ≡ without_front is_blank field.now }
{
    let mut start = 0;
    while start < field.len() && is_blank(field[start]) {
        start += 1;
    }
    &field[start..]
}

/// A field without the spaces and tabs at its end.
fn before_blanks(field: &[u8]) -> &[u8]
    ensures { result.now ≡ without_back is_blank field.now }
{
    let mut end = field.len();
    while end > 0 && is_blank(field[end - 1]) {
        end -= 1;
    }
    &field[..end]
}

/// Whether the byte is a space or a tab.
fn is_blank(byte: u8) -> bool
    ensures { result ≡ is_blank byte }
{
    byte == b' ' || byte == b'\t'
}
