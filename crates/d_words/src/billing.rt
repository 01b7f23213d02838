//! The words of how a month is billed: the rule and the prior peak.

ghost use Rattle.std.specs.Prelude.{◌≡◌, ◌↔◌, ℤ, IsTrue, IfNone, IfSome, map, string_bytes};
ghost use Rattle.d_words.specs.Words.{IsPeak};
ghost use Rattle.d_words.specs.Places.{BeginsWithRule, FindsBilling, FindsPeak, IsBilling, IsPriorPeak};

use crate::places::{is_at, word_at};
use d_num::Watt;

/// How a month is billed.
#[derive(Clone, Copy)]
pub(crate) struct Billing {
    /// Whether it is billed by net billing, whatever the record says.
    pub net_billing: bool,
    /// The highest flat demand of earlier months, from 0 to 10^13 W.
    pub prior_peak: Watt,
}

/// How a month is billed by these words alone: `--rule net-billing` or none, then `--prior-peak N` or none. None exactly where the
/// words are others.
pub(crate) fn read_billing(words: &[String]) -> Option<Billing>
    ensures { FindsBilling (IsBilling (map string_bytes words.now)) result }
{
    if begins_with_rule(words) {
        Some(Billing {
            net_billing: true,
            prior_peak: read_prior_peak(&words[2..])?,
        })
    } else {
        Some(Billing {
            net_billing: false,
            prior_peak: read_prior_peak(words)?,
        })
    }
}

/// Whether the first two words choose net billing.
fn begins_with_rule(words: &[String]) -> bool
    ensures { IsTrue result ↔ BeginsWithRule (map string_bytes words.now) }
{
    words.len() >= 2 && is_at(words, 0, "--rule") && is_at(words, 1, "net-billing")
}

/// The prior peak of these words alone: 0 W where there is none. None exactly where they are no words of a prior peak.
fn read_prior_peak(words: &[String]) -> Option<Watt>
    ensures { FindsPeak (IsPriorPeak (map string_bytes words.now)) result }
{
    if words.is_empty() {
        Watt::new(0)
    } else if words.len() == 2 && is_at(words, 0, "--prior-peak") {
        read_peak(word_at(words, 1))
    } else {
        None
    }
}

/// The power in whole watts that the word writes with 1 to 14 digits. None exactly where it is another word, or above 10^13.
fn read_peak(word: &str) -> Option<Watt>
    ensures { FindsPeak (IsPeak word.now) result }
{
    let digits = word.as_bytes();
    if digits.is_empty() || digits.len() > 14 || digits[0] == b'+' {
        return None;
    }
    match word.parse::<u64>() {
        Ok(watts) => Watt::new(watts as i64),
        Err(_) => None,
    }
}
