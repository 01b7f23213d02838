//! The words of a request.

ghost use Rattle.std.specs.Prelude.{◌≡◌, ◌↔◌, ◌≤◌, length, map, IsTrue, string_bytes};
ghost use Rattle.d_words.specs.Words.{IsRequest};
ghost use Rattle.d_words.specs.Asking.{FindsRequest};
ghost use Rattle.d_words.specs.Places.{HasOptions, IsNamed};

use crate::job::read_job;
use crate::places::{is_at, word_at};
use crate::request::Request;
use crate::values::has_values;

/// The request of the words `plan --records A --label L --readings R --battery B`, with or without `--rule net-billing`, then
/// `--prior-peak N` and then `--budget K` behind them, or of `bill --records A --label L --readings R`, with or without the first two of
/// these, and then both or neither of `--battery B --schedule S`. None exactly where the words are others: in another order, with a
/// value that is empty or begins with a minus, a label that isn't 1 to 64 bytes of printable ASCII without spaces, a prior peak that
/// isn't 1 to 14 digits or is above 10^13 W, or a budget that isn't 1 to 14 digits or isn't from 1 to 65535. The words and their order
/// are our own.
pub fn read_words(words: &[String]) -> Option<Request<'_>>
    ensures { FindsRequest (IsRequest (map string_bytes words.now)) result }
{
    match read_options(words) {
        Some(request) if has_values(&request) => Some(request),
        _ => None,
    }
}

/// The request that the words name, whatever its label and the names of its files.
fn read_options(words: &[String]) -> Option<Request<'_>>
    ensures { FindsRequest (IsNamed (map string_bytes words.now)) result }
{
    if words.len() < 7 || !are_options(words) {
        return None;
    }
    let Some(job) = read_job(word_at(words, 0), &words[7..]) else {
        return None;
    };
    Some(Request {
        records: word_at(words, 2),
        label: word_at(words, 4),
        readings: word_at(words, 6),
        task: job.task,
        net_billing: job.billing.net_billing,
        prior_peak: job.billing.prior_peak,
    })
}

/// Whether the options that each request has stand at their places.
fn are_options(words: &[String]) -> bool
    requires { 7 ≤ length words.now }
    ensures { IsTrue result ↔ HasOptions (map string_bytes words.now) }
{
    is_at(words, 1, "--records") && is_at(words, 3, "--label") && is_at(words, 5, "--readings")
}
