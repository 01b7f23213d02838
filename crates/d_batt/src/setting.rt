//! What rows of a battery file may set.

ghost use Rattle.std.specs.Prelude.{◌≡◌, ◌^◌, pos, bytes_eq, IfSome};
ghost use Rattle.d_num.specs.Amount.{IsUpTo};
ghost use Rattle.d_batt.specs.Kinds as spec;

use crate::battery::MOST_LIMIT;
use crate::number::within;
use d_text::DecimalFault;

/// A number of the battery that a row may set.
#[derive(Clone, Copy)]
pub enum Setting {
    /// The greatest level, from 0 to 255.
    Capacity,
    /// The least level, from 0 to 255.
    Floor,
    /// The level at the start of the month, from 0 to 255.
    Start,
    /// The least level at the end of the month, from 0 to 255.
    End,
    /// The greatest import of an interval, from 0 to 10^10 Wh.
    MaxImport,
    /// The greatest export of an interval, from 0 to 10^10 Wh.
    MaxExport,
}

impl Setting {
    /// Its name in the file.
    pub(crate) fn name(self) -> &'static [u8]
        ensures { result.now ≡ spec.setting_name self }
    {
        match self {
            Setting::Capacity => b"capacity",
            Setting::Floor => b"floor",
            Setting::Start => b"start",
            Setting::End => b"end",
            Setting::MaxImport => b"max_import_wh",
            Setting::MaxExport => b"max_export_wh",
        }
    }

    /// Its greatest value: a level, or energy in Wh. The least is 0.
    pub(crate) fn limit(self) -> i64
        ensures value { result ≡ pos (spec.setting_limit self) }
        ensures range { IsUpTo (10 ^ 10) result }
    {
        match self {
            Setting::Capacity | Setting::Floor | Setting::Start | Setting::End => 255,
            Setting::MaxImport | Setting::MaxExport => MOST_LIMIT,
        }
    }
}

/// A number that was read, where it is in the setting's range.
pub(crate) fn setting_within(number: Result<i64, DecimalFault>, setting: Setting) -> Option<i64>
    ensures value { result ≡ spec.setting_within setting number }
    ensures range { IfSome result (IsUpTo (spec.setting_limit setting)) }
{
    within(number, 0, setting.limit())
}

/// The setting of that name, or None where there is none.
pub(crate) fn setting_of(name: &[u8]) -> Option<Setting>
    ensures { result ≡ spec.setting_of name.now }
{
    if is_word(name, "capacity") {
        Some(Setting::Capacity)
    } else if is_word(name, "floor") {
        Some(Setting::Floor)
    } else if is_word(name, "start") {
        Some(Setting::Start)
    } else if is_word(name, "end") {
        Some(Setting::End)
    } else if is_word(name, "max_import_wh") {
        Some(Setting::MaxImport)
    } else if is_word(name, "max_export_wh") {
        Some(Setting::MaxExport)
    } else {
        None
    }
}

/// Whether the cell is this word, exactly.
pub(crate) fn is_word(cell: &[u8], word: &str) -> bool
    ensures { result ≡ bytes_eq cell.now word.now }
{
    cell == word.as_bytes()
}
