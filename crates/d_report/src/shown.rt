//! Names and cells of files as they are shown.

ghost use Rattle.std.specs.Prelude.{◌≡◌, ◌++◌, OnOk};
ghost use Rattle.d_report.specs.Shown.{shown, shown_byte, behind_blank};

use d_num::NoMemory;

// How many bytes of a name or a cell are shown at most.
const MOST_SHOWN: usize = 60;

/// Adds a name or a cell as it is shown: its first 60 bytes, with a question mark for each that isn't printable ASCII.
pub fn put_shown(text: &mut Vec<u8>, cell: &[u8]) -> Result<(), NoMemory>
    ensures { OnOk result (text.new.items ≡ text.old.items ++ shown cell.now) }
{
    for place in 0..cell.len().min(MOST_SHOWN) {
        text.push(shown_byte(cell[place]))?;
    }
    Ok(())
}

/// Adds a blank and the cell as it is shown, or nothing where the cell is empty.
pub fn put_behind_blank(text: &mut Vec<u8>, cell: &[u8]) -> Result<(), NoMemory>
    ensures { OnOk result (text.new.items ≡ text.old.items ++ behind_blank cell.now) }
{
    if !cell.is_empty() {
        text.push(b' ')?;
        put_shown(text, cell)?;
    }
    Ok(())
}

/// The byte itself where it is printable ASCII, or a question mark.
fn shown_byte(byte: u8) -> u8
    ensures { result ≡ shown_byte byte }
{
    if byte >= b' ' && byte <= b'~' {
        byte
    } else {
        b'?'
    }
}
