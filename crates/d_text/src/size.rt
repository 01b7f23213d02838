//! The size of a decimal in units.

ghost use Rattle.std.specs.Prelude.{◌≡◌, ℕ, ◌+◌, ◌*◌, ◌^◌, ◌<◌, ◌≤◌, ◌⊎◌, true, false, IfSome, IfNone, IsNone, if◌then◌else◌};
ghost use Rattle.d_text.specs.Scan.{Keeps, IsShort};
ghost use Rattle.d_text.specs.Decimal.{Written, IsInLimit, IsNearest, size_over, size_under};
ghost use Rattle.d_text.specs.Size.{IsSize, IsQuotient, Says};

use crate::scan::{Number, Scan};

/// A size in whole units, rounded down, and whether it is exactly that.
#[derive(Clone, Copy)]
pub struct Size {
    /// The whole units, rounded down.
    pub floor: u128,
    /// Whether nothing is left over.
    pub exact: bool,
}

/// The size of what is read in units of 10^-places, or None exactly where it is above the limit.
pub fn size_within(scan: Scan, places: u8, limit: u64) -> Option<Size>
    requires places { places ≤ 18 }
    requires limit { limit ≤ 10 ^ 10 }
    requires short { IsShort (2 ^ 64) scan }
    ensures limit { IfSome result (λ s. (w : Written) → Says scan w → IsInLimit w places limit) }
    ensures size { IfSome result (λ s. (w : Written) → Says scan w → IsSize s (size_over w places) (size_under w)) }
    ensures most { IfSome result (λ s. s.floor ≤ 10 ^ 28) }
    ensures none { IfNone result ((w : Written) → Says scan w → IsInLimit w places limit → ⊥) }
{
    let over = scan.over(places);
    let under = scan.under();
    match size_of(scan.number, over, under) {
        Some(size) => {
            let most = limit as u128 * 10u128.pow(places as u32);
            if size.is_above(most) {
                None
            } else {
                Some(size)
            }
        }
        None => None,
    }
}

impl Scan {
    /// The power of ten over the digits, in units of 10^-places.
    fn over(self, places: u8) -> u128
        requires { self.power ≤ 10 ^ 30 }
        ensures { result ≡ (if self.down then places else self.power + places) }
    {
        if self.down {
            places as u128
        } else {
            self.power + places as u128
        }
    }

    /// The power of ten under them.
    fn under(self) -> u128
        requires power { self.power ≤ 10 ^ 30 }
        requires behind { self.behind ≤ 2 ^ 64 }
        ensures { result ≡ (if self.down then self.behind + self.power else self.behind) }
    {
        if self.down {
            self.behind + self.power
        } else {
            self.behind
        }
    }
}

impl Size {
    /// The whole units of the size, rounded up where a minus stands in front.
    pub fn rounded(self, minus: bool) -> u128
        requires { self.floor ≤ 10 ^ 28 }
        ensures near { (over under : ℕ) → 0 < under → IsSize self over under → IsNearest minus result over under }
        ensures most { result ≤ 2 * 10 ^ 28 }
    {
        if minus {
            if self.exact {
                self.floor
            } else {
                self.floor + 1
            }
        } else {
            self.floor
        }
    }

    /// Whether the size is above so many units.
    fn is_above(self, most: u128) -> bool
        ensures yes { result ≡ true → (most < self.floor) ⊎ ((most ≤ self.floor) × (self.exact ≡ false)) }
        ensures no { result ≡ false → (self.floor < most) ⊎ ((self.floor ≤ most) × (self.exact ≡ true)) }
    {
        if self.exact {
            self.floor > most
        } else {
            self.floor >= most
        }
    }
}

/// The number times 10 to one power over 10 to another. None only where that is above 10^28.
fn size_of(number: Number, over: u128, under: u128) -> Option<Size>
    requires top { number.top < 10 ^ 38 }
    requires dropped { number.dropped ≤ 2 ^ 64 }
    requires over { over ≤ 10 ^ 31 }
    requires under { under ≤ 10 ^ 31 }
    ensures some { IfSome result (λ s. (n : ℕ) → Keeps n number.top number.dropped number.lost → IsSize s (n * 10 ^ over) (10 ^ under)) }
    ensures near { IfSome result (λ s. 0 < number.top → over ≤ under + 28) }
    ensures far { IfSome result (λ s. 0 < number.top → over + number.dropped + 38 < under → (s.floor ≡ 0) × (s.exact ≡ false)) }
    ensures none { IfNone result ((n : ℕ) → Keeps n number.top number.dropped number.lost → 10 ^ 28 * 10 ^ under < n * 10 ^ over) }
    ensures low { IsNone result → under ≤ over + number.dropped }
{
    if number.top == 0 {
        return Some(Size {
            floor: 0,
            exact: true,
        });
    }
    if under <= over + number.dropped {
        larger(number, over + number.dropped - under)
    } else {
        Some(smaller(number, under - over - number.dropped))
    }
}

/// The number's first digits times 10 to a power. None where that is above 10^28.
fn larger(number: Number, power: u128) -> Option<Size>
    requires { 0 < number.top }
    ensures some { IfSome result (λ s. (s.exact ≡ true) × (s.floor ≡ number.top * 10 ^ power) × (number.dropped ≡ 0) × (power ≤ 28)) }
    ensures none { IfNone result ((0 < number.dropped) ⊎ ((28 < power) ⊎ (10 ^ 28 < number.top * 10 ^ power))) }
{
    if number.dropped > 0 || power > 28 {
        return None;
    }
    match number.top.checked_mul(10u128.pow(power as u32)) {
        Some(floor) => Some(Size { floor, exact: true }),
        None => None,
    }
}

/// The number's first digits over 10 to a power.
fn smaller(number: Number, power: u128) -> Size
    requires { 0 < number.top }
    ensures far { 38 < power → (result.floor ≡ 0) × (result.exact ≡ false) }
    ensures near { power ≤ 38 → IsQuotient result number.top (10 ^ power) number.lost }
{
    if power > 38 {
        return Size {
            floor: 0,
            exact: false,
        };
    }
    let unit = 10u128.pow(power as u32);
    Size {
        floor: number.top / unit,
        exact: number.top % unit == 0 && !number.lost,
    }
}
