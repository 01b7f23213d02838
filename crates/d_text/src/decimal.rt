//! Decimals as they are read.

ghost use Rattle.std.specs.Prelude.{◌≡◌, ◌*◌, ◌^◌, ◌<◌, ◌≤◌, ℕ, true, length, IfOk, IfErr};
ghost use Rattle.d_text.specs.Scan.{Holds, IsShort, is_done};
ghost use Rattle.d_text.specs.Fault.{IsTextFault, IsDecimalFault, IsDecimalOf, IsFloorFault, IsFloorOf};
ghost use Rattle.d_text.specs.Decimal as spec;
ghost use Rattle.d_num.specs.Amount.{IsWithin};

use crate::scan::Scan;
use crate::size::size_within;

/// Why a cell is refused.
#[derive(Clone, Copy)]
pub enum DecimalFault {
    /// The cell is empty.
    Empty,
    /// The cell is no decimal; so many of its bytes are still the beginning of one, and no more.
    Form(usize),
    /// The decimal's size is above the limit.
    TooLarge,
    /// The decimal is within the limit and no whole number of units.
    TooFine,
}

/// The exact value of the decimal in the cell, in units of 10^-places. The caller has cut blanks off the cell's ends. A decimal has a
/// plus, a minus or no sign, then one or more digits, which a point may lead, part or end, and then a power of ten or none: an e or
/// E, again a sign or none, and digits. Refused, in this order: an empty cell, another text, a size above the limit, and a value
/// between two units. The form is our own rule.
pub fn read_decimal(cell: &[u8], places: u8, limit: u64) -> Result<i128, DecimalFault>
    requires places { places ≤ 18 }
    requires limit { limit ≤ 10 ^ 10 }
    ensures value { IfOk result (IsDecimalOf cell.now places limit) }
    ensures range { IfOk result (IsWithin (limit * 10 ^ places)) }
    ensures fault { IfErr result (IsDecimalFault cell.now places limit) }
{
    let scan = match scan(cell) {
        Ok(scan) => scan,
        Err(fault) => return Err(fault),
    };
    match size_within(scan, places, limit) {
        Some(size) => {
            if size.exact {
                Ok(signed(scan.minus, size.floor))
            } else {
                Err(DecimalFault::TooFine)
            }
        }
        None => Err(DecimalFault::TooLarge),
    }
}

/// The value of the decimal in the cell in units of 10^-places, rounded down, that is towards minus infinity. The form is that of
/// `read_decimal`, and so are the refusals, but that a value between two units is never refused.
pub fn read_floor(cell: &[u8], places: u8, limit: u64) -> Result<i128, DecimalFault>
    requires places { places ≤ 18 }
    requires limit { limit ≤ 10 ^ 10 }
    ensures value { IfOk result (IsFloorOf cell.now places limit) }
    ensures range { IfOk result (IsWithin (limit * 10 ^ places)) }
    ensures fault { IfErr result (IsFloorFault cell.now places limit) }
{
    let scan = match scan(cell) {
        Ok(scan) => scan,
        Err(fault) => return Err(fault),
    };
    match size_within(scan, places, limit) {
        Some(size) => Ok(signed(scan.minus, size.rounded(scan.minus))),
        None => Err(DecimalFault::TooLarge),
    }
}

/// The number with its sign.
fn signed(minus: bool, size: u128) -> i128
    requires { size ≤ 2 * 10 ^ 28 }
    ensures { result ≡ spec.signed minus size }
{
    if minus { -(size as i128) } else { size as i128 }
}

/// What the cell says.
fn scan(cell: &[u8]) -> Result<Scan, DecimalFault>
    ensures read { IfOk result (Holds cell.now) }
    ensures done { IfOk result (λ s. is_done s.phase ≡ true) }
    ensures short { IfOk result (IsShort (length cell.now)) }
    ensures fault { IfErr result (IsTextFault cell.now) }
{
    let mut scan = Scan::start();
    for place in 0..cell.len() {
        match scan.step(cell[place]) {
            Some(next) => scan = next,
            None => return Err(DecimalFault::Form(place)),
        }
    }
    if scan.phase.is_done() {
        return Ok(scan);
    }
    if cell.is_empty() {
        Err(DecimalFault::Empty)
    } else {
        Err(DecimalFault::Form(cell.len()))
    }
}
