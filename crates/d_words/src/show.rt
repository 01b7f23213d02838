//! The words that ask to see a tariff.

ghost use Rattle.std.specs.Prelude.{◌≡◌, ◌↔◌, ◌≤◌, Bool, MatchOption, length, map, IsTrue, string_bytes};
ghost use Rattle.d_words.specs.Words.{rule_words};
ghost use Rattle.d_words.specs.Places.{NamesRecord};
ghost use Rattle.d_words.specs.Shows.{FindsShow, IsShow, show_words};

use crate::places::{is_at, word_at};
use crate::values::{is_label, is_value};

/// What the words name of which a tariff is shown.
#[derive(Clone, Copy)]
pub struct Show<'a> {
    /// The name of the file of tariff records.
    pub records: &'a str,
    /// The label of the record.
    pub label: &'a str,
    /// Whether a month is billed by net billing, whatever the record says.
    pub net_billing: bool,
}

/// What the words `show --records A --label L` name, with or without `--rule net-billing` behind them. None exactly where the words are
/// others: in another order, with a value that is empty or begins with a minus, or a label that isn't 1 to 64 bytes of printable ASCII
/// without spaces. The words and their order are our own.
pub fn read_show(words: &[String]) -> Option<Show<'_>>
    ensures { FindsShow (IsShow (map string_bytes words.now)) result }
{
    match read_record_named(words) {
        Some(show) if is_value(show.records) && is_value(show.label) && is_label(show.label) => {
            Some(show)
        }
        _ => None,
    }
}

/// What the words name, whatever the label and the name of the file are.
fn read_record_named(words: &[String]) -> Option<Show<'_>>
    ensures { FindsShow (λ seen. map string_bytes words.now ≡ show_words seen) result }
{
    if words.len() < 5 || !names_record(words) {
        return None;
    }
    let net_billing = read_rule(&words[5..])?;
    Some(Show {
        records: word_at(words, 2),
        label: word_at(words, 4),
        net_billing,
    })
}

/// Whether the command and its two options stand at their places.
fn names_record(words: &[String]) -> bool
    requires { 5 ≤ length words.now }
    ensures { IsTrue result ↔ NamesRecord (map string_bytes words.now) }
{
    is_at(words, 0, "show") && is_at(words, 1, "--records") && is_at(words, 3, "--label")
}

/// Whether these words alone choose net billing: true for `--rule net-billing`, false for no words. None exactly where they are others.
fn read_rule(words: &[String]) -> Option<bool>
    ensures { MatchOption result ((net : Bool) → map string_bytes words.now ≡ rule_words net → ⊥)
        (λ net. map string_bytes words.now ≡ rule_words net) }
{
    if words.is_empty() {
        Some(false)
    } else if words.len() == 2 && is_at(words, 0, "--rule") && is_at(words, 1, "net-billing") {
        Some(true)
    } else {
        None
    }
}
