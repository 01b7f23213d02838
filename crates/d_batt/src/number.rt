//! Numbers as a battery file writes them.

ghost use Rattle.std.specs.Prelude.{◌≡◌, ◌^◌, ◌≤◌, ◌≤ℤ◌, ℤ, IfOk, IfSome};
ghost use Rattle.d_num.specs.Amount.{IsWithin};
ghost use Rattle.d_batt.specs.Numbers as spec;

use d_num::Wh;
use d_text::{DecimalFault, read_decimal};

// The greatest size of a number.
const NUMBER_LIMIT: u64 = 10_000_000_000;

/// The whole number in a cell, or why there is none of at most 10^10 in size.
pub(crate) fn read_whole(cell: &[u8]) -> Result<i64, DecimalFault>
    ensures { spec.Reads (λ reader. reader cell.now) result }
{
    match read_decimal(cell, 0, NUMBER_LIMIT) {
        Ok(number) => Ok(number as i64),
        Err(fault) => Err(fault),
    }
}

/// The number in the cell of a level. An empty cell says the level that stands for an absent one.
pub(crate) fn read_level(cell: &[u8], absent: u8) -> Result<i64, DecimalFault>
    ensures { spec.Reads (λ reader. spec.level_number reader absent cell.now) result }
{
    if cell.is_empty() {
        return Ok(i64::from(absent));
    }
    read_whole(cell)
}

/// Whether a cell's text is no whole number. One that is too large isn't meant.
pub(crate) fn is_unread(number: Result<i64, DecimalFault>) -> bool
    ensures { result ≡ spec.is_unread number }
{
    match number {
        Ok(_) | Err(DecimalFault::TooLarge) => false,
        Err(DecimalFault::Empty | DecimalFault::Form(_) | DecimalFault::TooFine) => true,
    }
}

/// A number that was read, where it is from the one to the other.
pub(crate) fn within(number: Result<i64, DecimalFault>, least: i64, most: i64) -> Option<i64>
    ensures value { result ≡ spec.within least most number }
    ensures range { IfSome result (λ number. (least ≤ℤ number) × (number ≤ℤ most)) }
{
    match number {
        Ok(number) => {
            if number >= least && number <= most {
                Some(number)
            } else {
                None
            }
        }
        Err(_) => None,
    }
}

/// A change in levels that was read, where it is at most 255 in size.
pub(crate) fn change_within(number: Result<i64, DecimalFault>) -> Option<i16>
    ensures { result ≡ spec.change_within number }
{
    let change = within(number, -255, 255)?;
    Some(change as i16)
}

/// What a mode adds to the net reading, where that is at most 10^9 Wh in size.
pub(crate) fn grid_within(number: Result<i64, DecimalFault>) -> Option<Wh>
    ensures { result ≡ spec.grid_within number }
{
    let grid = within(number, -1_000_000_000, 1_000_000_000)?;
    Wh::new(grid)
}

/// A level that was read, where it is from 0 to 255.
pub(crate) fn level_within(number: Result<i64, DecimalFault>) -> Option<u8>
    ensures { result ≡ spec.level_within number }
{
    let level = within(number, 0, 255)?;
    Some(level as u8)
}
