//! Numbers as a record writes them.

ghost use Rattle.std.specs.Prelude.{◌≡◌, ◌≤◌, ◌*◌, ◌^◌, IfOk, IfSome};
ghost use Rattle.d_num.specs.Amount.{IsWithin};
ghost use Rattle.d_urdb.specs.Refusals.{detail_of};
ghost use Rattle.d_urdb.specs.Numbers.{Reads};

use d_text::{DecimalFault, read_decimal, read_floor};

// The greatest end of a tier, in kWh or kW.
const END_LIMIT: u64 = 10_000_000_000;

/// The amount in a cell in units of 10^-18 USD, at most `limit` USD in size. A blank cell is 0.
pub(crate) fn read_number(cell: &[u8], limit: u64) -> Result<i128, DecimalFault>
    requires { limit ≤ 10 ^ 10 }
    ensures value { Reads (λ reader. reader.number limit cell.now) result }
    ensures range { IfOk result (IsWithin (limit * 10 ^ 18)) }
{
    if cell.is_empty() {
        return Ok(0);
    }
    read_decimal(cell, 18, limit)
}

/// Where a tier ends, in whole Wh or W, or None where it has no end, that is above 10^10 kWh or kW. A blank cell is 0.
pub(crate) fn read_end(cell: &[u8]) -> Result<Option<i64>, DecimalFault>
    ensures value { Reads (λ reader. reader.end cell.now) result }
    ensures range { IfOk result (λ end. IfSome end (IsWithin (10 ^ 13))) }
{
    if cell.is_empty() {
        return Ok(Some(0));
    }
    match read_floor(cell, 3, END_LIMIT) {
        Ok(end) => Ok(Some(end as i64)),
        Err(DecimalFault::TooLarge) => {
            if cell[0] == b'-' {
                Err(DecimalFault::TooLarge)
            } else {
                Ok(None)
            }
        }
        Err(DecimalFault::Form(place)) => Err(DecimalFault::Form(place)),
        Err(DecimalFault::Empty | DecimalFault::TooFine) => unreachable!(),
    }
}

/// What a refusal says of a number's fault.
pub(crate) fn fault_detail(fault: DecimalFault) -> u64
    ensures { result ≡ detail_of fault }
{
    match fault {
        DecimalFault::Empty | DecimalFault::Form(_) => 1,
        DecimalFault::TooLarge => 2,
        DecimalFault::TooFine => 3,
    }
}
