//! What the program says of a record: its tariff as it understands it.

ghost use Rattle.std.specs.Prelude.{◌≡◌, map, string_bytes, IfOk};
ghost use Rattle.d_tariff.specs.Shown.{terms_of};
ghost use Rattle.d_run.specs.Answer.{IsTariffOf};
ghost use Rattle.d_run.specs.Replies.{IsReply};
ghost use Rattle.d_run.specs.Prepared.{IsCaused, Prepares, IsSeen};

use crate::fault::Fault;
use crate::load::{load_record, rule_of};
use crate::record::Recorded;
use crate::reply::Reply;
use crate::verdict::Verdict;
use d_desk::Desk;
use d_num::NoMemory;
use d_report::tariff_text;
use d_words::Show;
use std::alloc::Global;

/// Prepares the answer to words that ask to see a record's tariff.
pub fn answer_show<D: Desk>(alloc: Global, desk: &mut D, show: &Show<'_>) -> Result<Reply, Fault>
    ensures told { D.tells → Prepares (IsSeen show.now) (D.scene desk.old) (D.scene desk.new) result }
    ensures cause { IsCaused (D.faults desk.old) (D.faults desk.new) result }
{
    let rule = rule_of(show.net_billing);
    let recorded = load_record(alloc, desk, show.records, show.label, rule)?;
    Ok(tariff_reply(alloc, show.label, &recorded)?)
}

/// The reply that shows a record's tariff.
fn tariff_reply(alloc: Global, label: &str, recorded: &Recorded) -> Result<Reply, NoMemory>
    ensures { IfOk result (IsReply (IsTariffOf recorded.now.table label.now (terms_of recorded.now.tariff))) }
{
    let text = tariff_text(alloc, &recorded.table, label, &recorded.tariff)?;
    Ok(Reply {
        verdict: Verdict::Done,
        text,
    })
}
