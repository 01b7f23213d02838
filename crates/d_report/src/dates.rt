//! The text of a month.

ghost use Rattle.std.specs.Prelude.{◌≡◌, IfOk, string_bytes};
ghost use Rattle.d_cal.specs.Starts as spec;

use d_cal::Month;
use std::alloc::{AllocError, Global};

/// The month, as YYYY-MM.
pub fn month_text(alloc: Global, month: Month) -> Result<String, AllocError>
    ensures { IfOk result (λ text. string_bytes text ≡ spec.month_text month.year month.number) }
{
    let year = month.year().unsigned_abs();
    let number = month.number();
    format!(in alloc; "{year:04}-{number:02}")
}
