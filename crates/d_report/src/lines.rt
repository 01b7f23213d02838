//! The lines of which the printed texts are made.

ghost use Rattle.std.specs.Prelude.{◌≡◌, ℤ, [], ◌∷◌, ◌++◌, IfOk, OnOk};
ghost use Rattle.d_text.specs.Text as spec;
ghost use Rattle.d_report.specs.Lines.{line, money_line, rate_line, title_lines};

use crate::dates::month_text;
use d_bill::Problem;
use d_num::{Money, NoMemory, Rate};
use d_text::{money_text, rate_text, whole_text};
use std::alloc::Global;

/// Adds a line of a word and a value.
pub fn put_line(text: &mut Vec<u8>, word: &str, value: &str) -> Result<(), NoMemory>
    ensures { OnOk result (text.new.items ≡ text.old.items ++ line (word.now ++ value.now)) }
{
    text.extend_from_slice(word.as_bytes())?;
    text.extend_from_slice(value.as_bytes())?;
    text.push(b'\n')?;
    Ok(())
}

/// A text of this line alone.
pub fn line_text(alloc: Global, word: &str, value: &str) -> Result<Vec<u8>, NoMemory>
    ensures { IfOk result (λ text. text.items ≡ line (word.now ++ value.now)) }
{
    let mut text = Vec::new(alloc);
    put_line(&mut text, word, value)?;
    Ok(text)
}

/// Adds a word.
pub(crate) fn put_word(text: &mut Vec<u8>, word: &str) -> Result<(), NoMemory>
    ensures { OnOk result (text.new.items ≡ text.old.items ++ word.now) }
{
    text.extend_from_slice(word.as_bytes())?;
    Ok(())
}

/// Adds the end of a line.
pub(crate) fn put_line_end(text: &mut Vec<u8>) -> Result<(), NoMemory>
    ensures { OnOk result (text.new.items ≡ text.old.items ++ 10 ∷ []) }
{
    text.push(b'\n')?;
    Ok(())
}

/// Adds a word and a whole number, without the end of a line.
pub(crate) fn put_number(text: &mut Vec<u8>, word: &str, number: i128) -> Result<(), NoMemory>
    ensures { OnOk result (text.new.items ≡ text.old.items ++ (word.now ++ spec.whole_text number)) }
{
    let mut room = [0; 64];
    let length = whole_text(number, &mut room);
    text.extend_from_slice(word.as_bytes())?;
    text.extend_from_slice(&room[..length])?;
    Ok(())
}

/// Adds a line of a word and an amount of money, or the end of a line from that word on.
pub(crate) fn put_money(text: &mut Vec<u8>, word: &str, money: Money) -> Result<(), NoMemory>
    ensures { OnOk result (text.new.items ≡ text.old.items ++ money_line word.now money) }
{
    let mut room = [0; 64];
    let length = money_text(money, &mut room);
    text.extend_from_slice(word.as_bytes())?;
    text.extend_from_slice(&room[..length])?;
    text.push(b'\n')?;
    Ok(())
}

/// Adds the end of a line from a word and a price on.
pub(crate) fn put_rate(text: &mut Vec<u8>, word: &str, rate: Rate) -> Result<(), NoMemory>
    ensures { OnOk result (text.new.items ≡ text.old.items ++ rate_line word.now rate) }
{
    let mut room = [0; 64];
    let length = rate_text(rate, &mut room);
    text.extend_from_slice(word.as_bytes())?;
    text.extend_from_slice(&room[..length])?;
    text.push(b'\n')?;
    Ok(())
}

/// Adds the lines that say what is answered: the command, the record's label, the month and the length of an interval.
pub(crate) fn put_title(
    alloc: Global,
    text: &mut Vec<u8>,
    command: &str,
    label: &str,
    problem: &Problem,
) -> Result<(), NoMemory>
    ensures { OnOk result (text.new.items ≡ text.old.items ++ title_lines command.now problem.now label.now) }
{
    let month = month_text(alloc, problem.month())?;
    let minutes = format!(in alloc; "{}", problem.minutes())?;
    put_line(text, "dispatch ", command)?;
    put_line(text, "label ", label)?;
    put_line(text, "month ", month.as_str())?;
    put_line(text, "minutes ", minutes.as_str())
}
