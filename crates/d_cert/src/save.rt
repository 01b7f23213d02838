//! Lines that are saved one by one.

ghost use Rattle.std.specs.Prelude.{◌≡◌, ◌<◌, ◌^◌, ◌++◌, ◌∷◌, [], pos, map, unsigned_abs, All, IsTrue, OnOk};
ghost use Rattle.std.specs.List.{flat_map};
ghost use Rattle.d_num.specs.declared.pot.Pot.TheVariants.{To};
ghost use Rattle.d_desk.specs.Cause.{HasCause};
ghost use Rattle.d_certline.specs.Wholes.{whole};
ghost use Rattle.d_certline.specs.Lines.{Line, word as front, parts, spaced, line_text, text_of, day, layer};
ghost use Rattle.d_cert.specs.Saved.{SavesText};

use crate::line::{put_number, put_pot};
use d_desk::{Desk, DeskFault, save_all};
use d_rows::Packed;
use std::alloc::AllocError;

/// Saves the line with a line feed behind it, and empties it.
pub fn save_line<D: Desk>(desk: &mut D, line: &mut Vec<u8>) -> Result<(), DeskFault>
    requires { IsTrue (D.output_open desk.old) }
    ensures told { D.tells → SavesText (line.old.items ++ 10 ∷ []) (D.scene desk.old) (D.scene desk.new) result }
    ensures empty { OnOk result (line.new.items ≡ []) }
    ensures input { D.input_open desk.new ≡ D.input_open desk.old }
    ensures output { D.output_open desk.new ≡ D.output_open desk.old }
    ensures taken { D.taken desk.new ≡ D.taken desk.old }
    ensures cause { HasCause (D.faults desk.old) (D.faults desk.new) result }
{
    line.push(b'\n')?;
    save_all(desk, line.as_slice())?;
    line.clear();
    Ok(())
}

/// Saves a line of two texts, one behind the other.
pub fn save_text<D: Desk>(
    desk: &mut D,
    line: &mut Vec<u8>,
    word: &str,
    text: &str,
) -> Result<(), DeskFault>
    requires output { IsTrue (D.output_open desk.old) }
    requires empty { line.old.items ≡ [] }
    ensures told { (l : Line) → line_text l ≡ word.now ++ text.now → D.tells → SavesText (text_of (l ∷ [])) (D.scene desk.old) (D.scene desk.new) result }
    ensures empty { OnOk result (line.new.items ≡ []) }
    ensures input { D.input_open desk.new ≡ D.input_open desk.old }
    ensures output { D.output_open desk.new ≡ D.output_open desk.old }
    ensures taken { D.taken desk.new ≡ D.taken desk.old }
    ensures cause { HasCause (D.faults desk.old) (D.faults desk.new) result }
{
    line.extend_from_slice(word.as_bytes())?;
    line.extend_from_slice(text.as_bytes())?;
    save_line(desk, line)
}

/// Saves a line of a word and numbers, each behind a space.
pub fn save_numbers<D: Desk>(
    desk: &mut D,
    line: &mut Vec<u8>,
    word: &str,
    numbers: &[i128],
) -> Result<(), DeskFault>
    requires output { IsTrue (D.output_open desk.old) }
    requires empty { line.old.items ≡ [] }
    requires small { All (λ z. unsigned_abs z < 10 ^ 38) numbers.now }
    ensures told { (l : Line) → front l ≡ word.now → parts l ≡ map (λ z. To z) numbers.now
        → D.tells → SavesText (text_of (l ∷ [])) (D.scene desk.old) (D.scene desk.new) result }
    ensures empty { OnOk result (line.new.items ≡ []) }
    ensures input { D.input_open desk.new ≡ D.input_open desk.old }
    ensures output { D.output_open desk.new ≡ D.output_open desk.old }
    ensures taken { D.taken desk.new ≡ D.taken desk.old }
    ensures cause { HasCause (D.faults desk.old) (D.faults desk.new) result }
{
    line.extend_from_slice(word.as_bytes())?;
    put_numbers(line, numbers)?;
    save_line(desk, line)
}

/// Saves a line of a word and counts.
pub fn save_counts<D: Desk>(
    desk: &mut D,
    line: &mut Vec<u8>,
    word: &str,
    counts: &[u64],
) -> Result<(), DeskFault>
    requires output { IsTrue (D.output_open desk.old) }
    requires empty { line.old.items ≡ [] }
    ensures told { (l : Line) → front l ≡ word.now → parts l ≡ map (λ n. To (pos n)) counts.now
        → D.tells → SavesText (text_of (l ∷ [])) (D.scene desk.old) (D.scene desk.new) result }
    ensures empty { OnOk result (line.new.items ≡ []) }
    ensures input { D.input_open desk.new ≡ D.input_open desk.old }
    ensures output { D.output_open desk.new ≡ D.output_open desk.old }
    ensures taken { D.taken desk.new ≡ D.taken desk.old }
    ensures cause { HasCause (D.faults desk.old) (D.faults desk.new) result }
{
    line.extend_from_slice(word.as_bytes())?;
    put_counts(line, counts)?;
    save_line(desk, line)
}

/// Saves the line of a day, counted from 1: the numbers of its modes.
pub fn save_day<D: Desk>(
    desk: &mut D,
    line: &mut Vec<u8>,
    number: u32,
    modes: &[u8],
) -> Result<(), DeskFault>
    requires output { IsTrue (D.output_open desk.old) }
    requires empty { line.old.items ≡ [] }
    ensures told { D.tells → SavesText (text_of (day number (map (λ m. pos m) modes.now) ∷ [])) (D.scene desk.old) (D.scene desk.new) result }
    ensures empty { OnOk result (line.new.items ≡ []) }
    ensures input { D.input_open desk.new ≡ D.input_open desk.old }
    ensures output { D.output_open desk.new ≡ D.output_open desk.old }
    ensures taken { D.taken desk.new ≡ D.taken desk.old }
    ensures cause { HasCause (D.faults desk.old) (D.faults desk.new) result }
{
    line.extend_from_slice(b"day".as_slice())?;
    put_number(line, number as i128)?;
    put_modes(line, modes)?;
    save_line(desk, line)
}

/// Saves the line of a layer: its potentials.
pub fn save_layer<D: Desk>(
    desk: &mut D,
    line: &mut Vec<u8>,
    t: u32,
    row: &[Packed],
) -> Result<(), DeskFault>
    requires output { IsTrue (D.output_open desk.old) }
    requires empty { line.old.items ≡ [] }
    ensures told { D.tells → SavesText (text_of (layer t row.now ∷ [])) (D.scene desk.old) (D.scene desk.new) result }
    ensures empty { OnOk result (line.new.items ≡ []) }
    ensures input { D.input_open desk.new ≡ D.input_open desk.old }
    ensures output { D.output_open desk.new ≡ D.output_open desk.old }
    ensures taken { D.taken desk.new ≡ D.taken desk.old }
    ensures cause { HasCause (D.faults desk.old) (D.faults desk.new) result }
{
    line.extend_from_slice(b"at".as_slice())?;
    put_number(line, t as i128)?;
    put_pots(line, row)?;
    save_line(desk, line)
}

/// Adds numbers, each behind a space.
fn put_numbers(line: &mut Vec<u8>, numbers: &[i128]) -> Result<(), AllocError>
    requires { All (λ z. unsigned_abs z < 10 ^ 38) numbers.now }
    ensures { OnOk result (line.new.items ≡ line.old.items ++ flat_map (λ z. 32 ∷ whole z) numbers.now) }
{
    for &number in numbers {
        put_number(line, number)?;
    }
    Ok(())
}

/// Adds counts, each behind a space.
fn put_counts(line: &mut Vec<u8>, counts: &[u64]) -> Result<(), AllocError>
    ensures { OnOk result (line.new.items ≡ line.old.items ++ flat_map (λ n. 32 ∷ whole (pos n)) counts.now) }
{
    for &count in counts {
        put_number(line, count as i128)?;
    }
    Ok(())
}

/// Adds the numbers of modes.
fn put_modes(line: &mut Vec<u8>, modes: &[u8]) -> Result<(), AllocError>
    ensures { OnOk result (line.new.items ≡ line.old.items ++ flat_map (λ m. 32 ∷ whole (pos m)) modes.now) }
{
    for &mode in modes {
        put_number(line, mode as i128)?;
    }
    Ok(())
}

/// Adds potentials.
fn put_pots(line: &mut Vec<u8>, row: &[Packed]) -> Result<(), AllocError>
    ensures { OnOk result (line.new.items ≡ line.old.items ++ flat_map spaced row.now) }
{
    for &pot in row {
        put_pot(line, pot)?;
    }
    Ok(())
}
