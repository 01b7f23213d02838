//! Tiers by the digits of their numbers.

ghost use Rattle.std.specs.Prelude.{◌≡◌, ◌≤◌, MatchOption, length};
ghost use Rattle.std.specs.Str.Parse.{digits_value};
ghost use Rattle.d_columns.specs.Names.{IsTierNumber, IsPastLast};

use crate::names::TIERS;
use crate::reading::TierName;

impl<'a> TierName<'a> {
    /// The tier's number, or None exactly where the tier is past the last one that a table has room for, which is 15.
    pub(crate) fn number(&self) -> Option<u8>
        requires { IsTierNumber self.now.tier.now }
        ensures { MatchOption result (IsPastLast self.now.tier.now) (λ number. (number ≤ 15) × (number ≡ digits_value 10 self.now.tier.now)) }
    {
        let digits = self.tier;
        match digits.len() {
            1 => Some(digits[0] - b'0'),
            2 => tier_within(number_of_two(digits)),
            _ => None,
        }
    }
}

/// The number as a tier's, or None exactly where it is above 15.
fn tier_within(number: u8) -> Option<u8>
    ensures { MatchOption result (16 ≤ number) (λ tier. (tier ≤ 15) × (tier ≡ number)) }
{
    if number < TIERS { Some(number) } else { None }
}

/// The number of two digits.
fn number_of_two(digits: &[u8]) -> u8
    requires number { IsTierNumber digits.now }
    requires two { length digits.now ≡ 2 }
    ensures { result ≡ digits_value 10 digits.now }
{
    (digits[0] - b'0') * 10 + (digits[1] - b'0')
}
