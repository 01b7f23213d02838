//! The top call: from the words to the printed plan, bill or tariff.

ghost use Rattle.std.specs.Prelude.{◌≡◌, ℕ, ◌≤◌, map, string_bytes};
ghost use Rattle.d_desk.specs.Cause.{Rose, HasCause};
ghost use Rattle.d_words.specs.Words.{Asked, IsRequest};
ghost use Rattle.d_run.specs.Answer.{IsAnswer};
ghost use Rattle.d_run.specs.Runs.{Runs, status_of};
ghost use Rattle.d_run.specs.Replies.{Replies};
ghost use Rattle.d_run.specs.Prepared.{IsCaused, Prepares};

use crate::fault::{Fault, Refusal};
use crate::reply::Reply;
use crate::request::answer_request;
use crate::show::answer_show;
use crate::verdict::{Status, Verdict};
use d_desk::{Desk, DeskFault, print_all};
use d_words::{read_show, read_words};
use std::alloc::Global;

/// Answers the words over a desk: opens the files that they name, and prints the plan, the bill or the tariff that is asked for, or why there is
/// none.
pub fn run<D: Desk>(alloc: Global, words: &[String], desk: &mut D) -> Status
    ensures told { D.tells → Runs (map string_bytes words.now) (D.scene desk.old) (D.scene desk.new) result }
    ensures desk { result ≡ Status.Desk → Rose (D.faults desk.old) (D.faults desk.new) }
    ensures later { D.faults desk.old ≤ D.faults desk.new }
{
    match reply(alloc, words, desk) {
        Ok(verdict) => status_of(verdict),
        Err(DeskFault::Failed) => Status::Desk,
        Err(DeskFault::Memory) => Status::Memory,
    }
}

/// The status of a verdict.
fn status_of(verdict: Verdict) -> Status
    ensures { result ≡ status_of verdict }
{
    match verdict {
        Verdict::Done => Status::Done,
        Verdict::Words => Status::Words,
        Verdict::Record => Status::Record,
        Verdict::Readings => Status::Readings,
        Verdict::Battery => Status::Battery,
        Verdict::NoSchedule => Status::NoSchedule,
        Verdict::Gap => Status::Gap,
    }
}

/// Prepares the answer and prints it.
fn reply<D: Desk>(alloc: Global, words: &[String], desk: &mut D) -> Result<Verdict, DeskFault>
    ensures told { D.tells → Replies (map string_bytes words.now) (D.scene desk.old) (D.scene desk.new) result }
    ensures cause { HasCause (D.faults desk.old) (D.faults desk.new) result }
{
    match prepare(alloc, words, desk) {
        Ok(reply) => {
            print_all(desk, reply.text.as_slice())?;
            Ok(reply.verdict)
        }
        Err(Fault::Refused(reply)) => {
            print_all(desk, reply.text.as_slice())?;
            Ok(reply.verdict)
        }
        Err(Fault::Failed) => Err(DeskFault::Failed),
        Err(Fault::Memory) => Err(DeskFault::Memory),
    }
}

/// Prepares the answer to a list of words. Nothing is printed yet.
fn prepare<D: Desk>(alloc: Global, words: &[String], desk: &mut D) -> Result<Reply, Fault>
    ensures told { D.tells → Prepares (IsAnswer (map string_bytes words.now)) (D.scene desk.old) (D.scene desk.new) result }
    ensures cause { IsCaused (D.faults desk.old) (D.faults desk.new) result }
{
    match read_words(words) {
        Some(request) => answer_request(alloc, desk, &request),
        None => prepare_show(alloc, words, desk),
    }
}

/// Prepares the answer to words that are no request.
fn prepare_show<D: Desk>(alloc: Global, words: &[String], desk: &mut D) -> Result<Reply, Fault>
    requires { (asked : Asked) → IsRequest (map string_bytes words.now) asked → ⊥ }
    ensures told { D.tells → Prepares (IsAnswer (map string_bytes words.now)) (D.scene desk.old) (D.scene desk.new) result }
    ensures cause { IsCaused (D.faults desk.old) (D.faults desk.new) result }
{
    match read_show(words) {
        Some(show) => answer_show(alloc, desk, &show),
        None => Err(Refusal::Words.fault(alloc)),
    }
}
