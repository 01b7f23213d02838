//! The files that the words name: each is loaded whole, and read.

ghost use Rattle.std.specs.Prelude.{◌≡◌, ℕ, ◌≤◌, length, IfOk};
ghost use Rattle.d_run.specs.Answer.{longest_record, rule_of};
ghost use Rattle.d_run.specs.Replies.{LoadStage, RecordStage, ReadingsStage, BatteryStage, ScheduleStage};
ghost use Rattle.d_run.specs.Prepared.{IsCaused};

use crate::battery::read_battery;
use crate::fault::{Fault, Refusal};
use crate::readings::read_readings;
use crate::record::{Recorded, read_record};
use crate::schedule::read_modes;
use d_batt::Battery;
use d_bill::Problem;
use d_desk::{Desk, LoadFault, load_file};
use d_meter::Meter;
use d_urdb::RuleChoice;
use std::alloc::Global;

// The greatest sizes of the record file, and of the other files, in bytes.
const LONGEST_RECORD: u64 = 1 << 30;

const LONGEST_FILE: u64 = 1 << 24;

/// The rule of billing: net billing where it is chosen, else the record's own.
pub fn rule_of(net_billing: bool) -> RuleChoice
    ensures { result ≡ rule_of net_billing }
{
    if net_billing {
        RuleChoice::NetBilling
    } else {
        RuleChoice::AsRecorded
    }
}

/// The record of this label in the file.
pub fn load_record<D: Desk>(
    alloc: Global,
    desk: &mut D,
    name: &str,
    label: &str,
    rule: RuleChoice,
) -> Result<Recorded, Fault>
    ensures told { D.tells → RecordStage name.now label.now rule (D.scene desk.old) (D.scene desk.new) result }
    ensures cause { IsCaused (D.faults desk.old) (D.faults desk.new) result }
{
    let bytes = load(alloc, desk, name, LONGEST_RECORD, Refusal::LongRecord)?;
    read_record(alloc, bytes.as_slice(), label, rule)
}

/// The month of readings in the file.
pub fn load_readings<D: Desk>(alloc: Global, desk: &mut D, name: &str) -> Result<Meter, Fault>
    ensures told { D.tells → ReadingsStage name.now (D.scene desk.old) (D.scene desk.new) result }
    ensures cause { IsCaused (D.faults desk.old) (D.faults desk.new) result }
{
    let bytes = load(alloc, desk, name, LONGEST_FILE, Refusal::LongReadings)?;
    read_readings(alloc, bytes.as_slice())
}

/// The battery in the file.
pub fn load_battery<D: Desk>(alloc: Global, desk: &mut D, name: &str) -> Result<Battery, Fault>
    ensures told { D.tells → BatteryStage name.now (D.scene desk.old) (D.scene desk.new) result }
    ensures cause { IsCaused (D.faults desk.old) (D.faults desk.new) result }
{
    let bytes = load(alloc, desk, name, LONGEST_FILE, Refusal::LongBattery)?;
    read_battery(alloc, bytes.as_slice())
}

/// The modes of the schedule in the file, for a problem.
pub fn load_schedule<D: Desk>(
    alloc: Global,
    desk: &mut D,
    name: &str,
    problem: &Problem,
) -> Result<Vec<u8>, Fault>
    ensures long { IfOk result (λ modes. length modes.items ≡ length problem.now.net) }
    ensures told { D.tells → ScheduleStage name.now problem.now (D.scene desk.old) (D.scene desk.new) result }
    ensures cause { IsCaused (D.faults desk.old) (D.faults desk.new) result }
{
    let bytes = load(alloc, desk, name, LONGEST_FILE, Refusal::LongSchedule)?;
    read_modes(alloc, bytes.as_slice(), problem)
}

/// A file's bytes; one that is too long is refused so.
fn load<D: Desk>(
    alloc: Global,
    desk: &mut D,
    name: &str,
    limit: u64,
    too_long: Refusal,
) -> Result<Vec<u8>, Fault>
    requires { limit ≤ longest_record }
    ensures told { D.tells → LoadStage name.now limit too_long (D.scene desk.old) (D.scene desk.new) result }
    ensures cause { IsCaused (D.faults desk.old) (D.faults desk.new) result }
{
    match load_file(alloc, desk, name, limit) {
        Ok(bytes) => Ok(bytes),
        Err(LoadFault::TooLong) => Err(too_long.fault(alloc)),
        Err(LoadFault::Failed) => Err(Fault::Failed),
        Err(LoadFault::Memory) => Err(Fault::Memory),
    }
}
