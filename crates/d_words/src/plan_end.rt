//! The words behind a plan's battery: how its month is billed, and its budget of boxes.

ghost use Rattle.std.specs.Prelude.{◌≡◌, ◌↔◌, IsTrue, map, string_bytes};
ghost use Rattle.d_words.specs.Words.{IsBudget};
ghost use Rattle.d_words.specs.Places.{EndsInBudget, FindsBudget, FindsPlanEnd, IsPlanEnd};

use crate::billing::{Billing, read_billing};
use crate::budget::Budget;
use crate::places::{is_at, word_at};

/// What the words behind a plan's battery say.
#[derive(Clone, Copy)]
pub(crate) struct PlanEnd {
    /// How the month is billed.
    pub billing: Billing,
    /// The most boxes that may be made; None where the words give no budget.
    pub budget: Option<Budget>,
}

/// What these words behind a plan's battery say: how the month is billed, then `--budget N` or none. None exactly where the words are
/// others.
pub(crate) fn read_plan_end(words: &[String]) -> Option<PlanEnd>
    ensures { FindsPlanEnd (IsPlanEnd (map string_bytes words.now)) result }
{
    if ends_in_budget(words) {
        let front = words.len() - 2;
        let billing = read_billing(&words[..front])?;
        let budget = read_budget(word_at(words, front + 1))?;
        Some(PlanEnd {
            billing,
            budget: Some(budget),
        })
    } else {
        let billing = read_billing(words)?;
        Some(PlanEnd {
            billing,
            budget: None,
        })
    }
}

/// Whether the last two words give a budget.
fn ends_in_budget(words: &[String]) -> bool
    ensures { IsTrue result ↔ EndsInBudget (map string_bytes words.now) }
{
    let count = words.len();
    count >= 2 && is_at(words, count - 2, "--budget")
}

/// The budget that the word writes with 1 to 14 digits. None exactly where it is another word, 0, or above 65535.
fn read_budget(word: &str) -> Option<Budget>
    ensures { FindsBudget (IsBudget word.now) result }
{
    let digits = word.as_bytes();
    if digits.is_empty() || digits.len() > 14 || digits[0] == b'+' {
        return None;
    }
    match word.parse::<u64>() {
        Ok(boxes) => Budget::new(boxes),
        Err(_) => None,
    }
}
