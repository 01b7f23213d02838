//! The answer to a request for a plan or a bill, file by file.

ghost use Rattle.std.specs.Prelude.{◌≡◌, OnOk, IfErr};
ghost use Rattle.d_tariff.specs.Shown.{terms_of};
ghost use Rattle.d_meter.specs.Shown.{metered_of};
ghost use Rattle.d_bill.specs.Join.{IsSettled};
ghost use Rattle.d_run.specs.RecordText.{hourly_text};
ghost use Rattle.d_run.specs.Answer.{Settles};
ghost use Rattle.d_run.specs.Replies.{EndsBy};
ghost use Rattle.d_run.specs.Prepared.{IsCaused, Prepares, IsRequested, IsWithRecord, IsWithReadings, IsWithMeter};

use crate::bill::{answer_bill, metered_bill};
use crate::fault::Fault;
use crate::load::{load_readings, load_record, rule_of};
use crate::plan::answer_plan;
use crate::record::{Recorded, hourly_fault};
use crate::reply::Reply;
use d_desk::Desk;
use d_meter::Meter;
use d_tariff::Tariff;
use d_words::{Request, Task};
use std::alloc::Global;

/// Prepares the answer to a request: the record file comes first.
pub fn answer_request<D: Desk>(
    alloc: Global,
    desk: &mut D,
    request: &Request<'_>,
) -> Result<Reply, Fault>
    ensures told { D.tells → Prepares (IsRequested request.now) (D.scene desk.old) (D.scene desk.new) result }
    ensures cause { IsCaused (D.faults desk.old) (D.faults desk.new) result }
{
    let rule = rule_of(request.net_billing);
    let recorded = load_record(alloc, desk, request.records, request.label, rule)?;
    answer_with_record(alloc, desk, request, &recorded)
}

/// Prepares the answer where the record is known: the readings file comes next.
fn answer_with_record<D: Desk>(
    alloc: Global,
    desk: &mut D,
    request: &Request<'_>,
    recorded: &Recorded,
) -> Result<Reply, Fault>
    ensures told { D.tells → Prepares (IsWithRecord request.now recorded.now) (D.scene desk.old) (D.scene desk.new) result }
    ensures cause { IsCaused (D.faults desk.old) (D.faults desk.new) result }
{
    let meter = load_readings(alloc, desk, request.readings)?;
    answer_with_readings(alloc, desk, request, recorded, &meter)
}

/// Prepares the answer where the record and the readings are known: energy has to be settled as often as it is read.
fn answer_with_readings<D: Desk>(
    alloc: Global,
    desk: &mut D,
    request: &Request<'_>,
    recorded: &Recorded,
    meter: &Meter,
) -> Result<Reply, Fault>
    ensures told { D.tells → Prepares (IsWithReadings request.now recorded.now meter.now) (D.scene desk.old) (D.scene desk.new) result }
    ensures cause { IsCaused (D.faults desk.old) (D.faults desk.new) result }
{
    check_settled(alloc, recorded, meter)?;
    answer_task(alloc, desk, request, &recorded.tariff, meter)
}

/// Tests that there is a reading an hour where the record's energy is settled hour by hour.
fn check_settled(alloc: Global, recorded: &Recorded, meter: &Meter) -> Result<(), Fault>
    ensures settled { OnOk result (IsSettled (terms_of recorded.now.tariff) (metered_of meter.now)) }
    ensures refused { IfErr result
        (EndsBy (Settles (hourly_text recorded.now.table) (terms_of recorded.now.tariff) (metered_of meter.now) (λ _. ⊥))) }
{
    if recorded.tariff.hourly && meter.minutes != 60 {
        return Err(hourly_fault(alloc, &recorded.table));
    }
    Ok(())
}

/// Prepares the answer where tariff and readings are known.
fn answer_task<D: Desk>(
    alloc: Global,
    desk: &mut D,
    request: &Request<'_>,
    tariff: &Tariff,
    meter: &Meter,
) -> Result<Reply, Fault>
    requires { IsSettled (terms_of tariff.now) (metered_of meter.now) }
    ensures told { D.tells → Prepares (IsWithMeter request.now tariff.now meter.now) (D.scene desk.old) (D.scene desk.new) result }
    ensures cause { IsCaused (D.faults desk.old) (D.faults desk.new) result }
{
    match request.task {
        Task::Plan { battery, budget } => {
            answer_plan(alloc, desk, request, battery, budget, tariff, meter)
        }
        Task::MeteredBill => Ok(metered_bill(alloc, request, tariff, meter)?),
        Task::ScheduleBill { battery, schedule } => {
            answer_bill(alloc, desk, request, battery, schedule, tariff, meter)
        }
    }
}
