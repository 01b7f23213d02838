//! The start of an interval.

ghost use Rattle.std.specs.Prelude.{◌≡◌, ◌↔◌, ◌⊎◌, ℕ, ◌+◌, ◌*◌, ◌/◌, ◌%◌, ◌<◌, ◌≤◌, ◌++◌, [], ◌∷◌, List, length, codes, Some, IsTrue, IfNone, IfSome};
ghost use Rattle.jiff_core.specs.Calendar.{days_in_month};
ghost use Rattle.d_text.specs.Text.{zero_padded};
ghost use Rattle.d_cal.specs.Starts.{date_text, time_text, text_of, start_of, IsInCalendar, IsMoment, IsStart};
ghost use Rattle.d_cal.specs.Calendar.{IsDayOf};
ghost use Rattle.d_cal.specs.StartCells.{FindsStart, FindsMonth, FindsDay, FindsMinute, HasPair};

use crate::month::Month;

/// A minute of a day of the years 1 to 9999, at which an interval starts.
#[derive(Clone, Copy, PartialEq, Eq)]
pub struct Start {
    /// From 1 to 9999.
    pub year: i16,
    /// From 1 for January to 12.
    pub month: u8,
    /// The day of the month, from 1.
    pub day: u8,
    /// The minute of the day, from 0 to 1439.
    pub minute: u16,
}

/// The start that the cell is: its date as `YYYY-MM-DD`, T or one space, its time as `HH:MM`, and then nothing or `:00`. None exactly where
/// the cell isn't of this form, or no year from 1 to 9999 has the day, or no day the minute. The form is our own.
pub fn read_start(cell: &[u8]) -> Option<Start>
    ensures none { IfNone result ((start : Start) → IsStart cell.now start → ⊥) }
    ensures some { IfSome result (IsStart cell.now) }
{
    let start = named_start(cell)?;
    if is_written(cell, start) {
        Some(start)
    } else {
        None
    }
}

/// The start of that interval of the month, counted from 0, as `YYYY-MM-DDTHH:MM`. Intervals are so many minutes long. It takes no memory.
pub fn start_text(month: Month, minutes: u8, index: u32) -> [u8; 16]
    requires { index * minutes < days_in_month month.year month.number * 1440 }
    ensures { result ≡ text_of (start_of month.year month.number minutes index) }
{
    Start::of(month, minutes, index).text()
}

impl Start {
    /// The start of that interval of the month, counted from 0, where intervals are so many minutes long.
    pub fn of(month: Month, minutes: u8, index: u32) -> Start
        requires { index * minutes < days_in_month month.year month.number * 1440 }
        ensures value { result ≡ start_of month.year month.number minutes index }
        ensures calendar { IsInCalendar result }
    {
        let minute = index * minutes as u32;
        Start {
            year: month.year(),
            month: month.number(),
            day: (minute / 1440 + 1) as u8,
            minute: (minute % 1440) as u16,
        }
    }

    /// Its text.
    fn text(self) -> [u8; 16]
        requires { IsInCalendar self }
        ensures { result ≡ text_of self }
    {
        let [thousands, hundreds] = two_digits(self.year.unsigned_abs() as u32 / 100);
        let [tens, ones] = two_digits(self.year.unsigned_abs() as u32 % 100);
        let [month_tens, month_ones] = two_digits(self.month as u32);
        let [day_tens, day_ones] = two_digits(self.day as u32);
        let [hour_tens, hour_ones] = two_digits(self.minute as u32 / 60);
        let [minute_tens, minute_ones] = two_digits(self.minute as u32 % 60);
        [
            thousands,
            hundreds,
            tens,
            ones,
            b'-',
            month_tens,
            month_ones,
            b'-',
            day_tens,
            day_ones,
            b'T',
            hour_tens,
            hour_ones,
            b':',
            minute_tens,
            minute_ones,
        ]
    }
}

/// A number below 100 in two digits.
fn two_digits(number: u32) -> [u8; 2]
    requires { number < 100 }
    ensures { result ≡ (48 + number / 10) ∷ (48 + number % 10) ∷ [] }
{
    [b'0' + (number / 10) as u8, b'0' + (number % 10) as u8]
}

/// The start whose numbers stand at their places in the cell, whatever stands between them.
fn named_start(cell: &[u8]) -> Option<Start>
    ensures found { FindsStart cell.now result }
    ensures calendar { IfSome result IsInCalendar }
{
    let month = named_month(cell)?;
    let day = named_day(cell, month)?;
    let minute = named_minute(cell)?;
    Some(Start {
        year: month.year,
        month: month.number,
        day,
        minute,
    })
}

/// The month whose numbers stand at their places in the cell.
fn named_month(cell: &[u8]) -> Option<Month>
    ensures { FindsMonth cell.now result }
{
    let front = pair_at(cell, 0)?;
    let back = pair_at(cell, 2)?;
    let number = pair_at(cell, 5)?;
    Month::new((front * 100 + back) as i16, number as u8)
}

/// The day of the month whose number stands at its place in the cell.
fn named_day(cell: &[u8], month: Month) -> Option<u8>
    ensures found { FindsDay cell.now month result }
    ensures range { IfSome result (IsDayOf month.year month.number) }
{
    let day = pair_at(cell, 8)? as u8;
    if day >= 1 && day <= month.days() {
        Some(day)
    } else {
        None
    }
}

/// The minute of a day whose hour and minute stand at their places in the cell.
fn named_minute(cell: &[u8]) -> Option<u16>
    ensures found { FindsMinute cell.now result }
    ensures range { IfSome result (λ minute. minute < 1440) }
{
    let hour = pair_at(cell, 11)?;
    let minute = pair_at(cell, 14)?;
    if hour < 24 && minute < 60 {
        Some((hour * 60 + minute) as u16)
    } else {
        None
    }
}

/// The number of the two digits at that place, or None exactly where there are none.
fn pair_at(cell: &[u8], place: usize) -> Option<u32>
    requires { place ≤ 14 }
    ensures small { IfSome result (λ number. number < 100) }
    ensures found { (number : ℕ) → number < 100 → HasPair cell.now place number → result ≡ Some number }
{
    if cell.len() < place + 2 {
        return None;
    }
    let tens = digit(cell[place])?;
    let ones = digit(cell[place + 1])?;
    Some(tens * 10 + ones)
}

/// The number that a digit is, or None exactly where the byte is none.
fn digit(byte: u8) -> Option<u32>
    ensures none { IfNone result ((number : ℕ) → number < 10 → byte ≡ 48 + number → ⊥) }
    ensures some { IfSome result (λ number. (number < 10) × (byte ≡ 48 + number)) }
{
    if byte >= b'0' && byte <= b'9' {
        Some((byte - b'0') as u32)
    } else {
        None
    }
}

/// Whether the cell is this start.
fn is_written(cell: &[u8], start: Start) -> bool
    requires { IsInCalendar start }
    ensures { IsTrue result ↔ IsStart cell.now start }
{
    let text = start.text();
    is_moment(cell, &text[..10], &text[11..])
}

/// Whether the cell is this date, T or one space, this time, and perhaps `:00`.
fn is_moment(cell: &[u8], date: &[u8], time: &[u8]) -> bool
    ensures { IsTrue result ↔ IsMoment cell.now date.now time.now }
{
    let Some(behind_date) = behind(cell, date) else {
        return false;
    };
    let Some((between, clock)) = behind_date.split_first() else {
        return false;
    };
    let Some(seconds) = behind(clock, time) else {
        return false;
    };
    is_between(*between) && are_seconds(seconds)
}

/// What stands behind the front, or None exactly where the text doesn't begin with it.
fn behind<'a>(text: &'a [u8], front: &[u8]) -> Option<&'a [u8]>
    ensures none { IfNone result ((rest : List ℕ) → text.now ≡ front.now ++ rest → ⊥) }
    ensures some { IfSome result (λ rest. text.now ≡ front.now ++ rest.now) }
{
    text.strip_prefix(front)
}

/// Whether the byte may stand between a date and a time: T or a space.
fn is_between(byte: u8) -> bool
    ensures { IsTrue result ↔ ((byte ≡ 84) ⊎ (byte ≡ 32)) }
{
    byte == b'T' || byte == b' '
}

/// Whether this may stand behind hours and minutes: nothing or `:00`.
fn are_seconds(text: &[u8]) -> bool
    ensures { IsTrue result ↔ ((text.now ≡ []) ⊎ (text.now ≡ codes ":00")) }
{
    text.is_empty() || text == b":00".as_slice()
}
