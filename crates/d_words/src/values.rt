//! Which values an option takes.

ghost use Rattle.std.specs.Prelude.{◌↔◌, IsTrue};
ghost use Rattle.d_words.specs.Words.{HasNames, HasValues, IsValue, IsLabel};
ghost use Rattle.d_words.specs.Asking.{asked_of, wanted_of};

use crate::request::{Request, Task};

/// Whether the label is one and each name of a file may be one.
pub(crate) fn has_values(request: &Request<'_>) -> bool
    ensures { IsTrue result ↔ HasValues (asked_of request.now) }
{
    is_value(request.records)
        && is_value(request.label)
        && is_label(request.label)
        && is_value(request.readings)
        && has_names(&request.task)
}

/// Whether the names of the task's files may be values.
fn has_names(task: &Task<'_>) -> bool
    ensures { IsTrue result ↔ HasNames (wanted_of task.now) }
{
    match *task {
        Task::Plan { battery, .. } => is_value(battery),
        Task::MeteredBill => true,
        Task::ScheduleBill { battery, schedule } => is_value(battery) && is_value(schedule),
    }
}

/// Whether the word may be an option's value.
pub(crate) fn is_value(word: &str) -> bool
    ensures { IsTrue result ↔ IsValue word.now }
{
    let bytes = word.as_bytes();
    !bytes.is_empty() && bytes[0] != b'-'
}

/// Whether the word has the form of a label, but for its least length.
pub(crate) fn is_label(word: &str) -> bool
    ensures { IsTrue result ↔ IsLabel word.now }
{
    word.len() <= 64
        && word
            .as_bytes()
            .iter()
            .all(|byte| *byte >= 33 && *byte <= 126)
}
