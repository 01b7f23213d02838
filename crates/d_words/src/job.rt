//! What the words behind the readings file want, by their command.

ghost use Rattle.std.specs.Prelude.{◌↔◌, IsTrue, map, string_bytes, codes};
ghost use Rattle.d_words.specs.Places.{EndsInSchedule, FindsJob};

use crate::billing::{Billing, read_billing};
use crate::places::{is_at, word_at};
use crate::plan_end::read_plan_end;
use crate::request::Task;

/// What is wanted, and how the month is billed.
#[derive(Clone, Copy)]
pub(crate) struct Job<'a> {
    /// What is wanted.
    pub task: Task<'a>,
    /// How the month is billed.
    pub billing: Billing,
}

/// What these words behind the readings file want. None exactly where no command of this name takes them.
pub(crate) fn read_job<'a>(command: &str, words: &'a [String]) -> Option<Job<'a>>
    ensures { FindsJob command.now (map string_bytes words.now) result }
{
    if command == "plan" {
        read_plan(words)
    } else if command == "bill" {
        read_bill(words)
    } else {
        None
    }
}

/// What these words of a plan want: its battery, then how the month is billed, then its budget or none.
fn read_plan(words: &[String]) -> Option<Job<'_>>
    ensures { FindsJob (codes "plan") (map string_bytes words.now) result }
{
    if words.len() < 2 || !is_at(words, 0, "--battery") {
        return None;
    }
    let ending = read_plan_end(&words[2..])?;
    let battery = word_at(words, 1);
    Some(Job {
        task: Task::Plan {
            battery,
            budget: ending.budget,
        },
        billing: ending.billing,
    })
}

/// What these words of a bill want: how the month is billed, then a schedule's files or none.
fn read_bill(words: &[String]) -> Option<Job<'_>>
    ensures { FindsJob (codes "bill") (map string_bytes words.now) result }
{
    if ends_in_schedule(words) {
        let files = words.len() - 4;
        let billing = read_billing(&words[..files])?;
        let battery = word_at(words, files + 1);
        let schedule = word_at(words, files + 3);
        Some(Job {
            task: Task::ScheduleBill { battery, schedule },
            billing,
        })
    } else {
        let billing = read_billing(words)?;
        Some(Job {
            task: Task::MeteredBill,
            billing,
        })
    }
}

/// Whether the last four words name a battery and a schedule.
fn ends_in_schedule(words: &[String]) -> bool
    ensures { IsTrue result ↔ EndsInSchedule (map string_bytes words.now) }
{
    let count = words.len();
    count >= 4 && is_at(words, count - 4, "--battery") && is_at(words, count - 2, "--schedule")
}
