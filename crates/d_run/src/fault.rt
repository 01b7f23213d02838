//! Why a request is answered with a refusal or not at all.

ghost use Rattle.std.specs.Prelude.{◌≡◌, IfOk, string_bytes};
ghost use Rattle.d_run.specs.Answer.{refused, refusal_text, refusal_verdict};
ghost use Rattle.d_run.specs.Replies.{EndsBy, Shows};
ghost use Rattle.d_run.specs.Text.{meter_fault_text, battery_fault_text, schedule_fault_text};

use crate::reply::Reply;
use crate::verdict::Verdict;
use d_batt::BatteryFault;
use d_bill::ScheduleFault;
use d_meter::MeterFault;
use d_num::NoMemory;
use d_report::line_text;
use std::alloc::{AllocError, Global};
use thiserror::Error;

/// What is refused, in the order in which it is looked at. A record's own refusals are beside these.
#[derive(Clone, Copy)]
pub enum Refusal {
    /// The words are no request.
    Words,
    /// The record file is too long.
    LongRecord,
    /// This row of the record file, from 0 behind the header, has another length than the header.
    RecordShape(u64),
    /// The readings file is too long.
    LongReadings,
    /// The readings file is no month of readings.
    Readings(MeterFault),
    /// Some energy period of the month is tiered, which isn't planned yet.
    TiersNotYet,
    /// The battery file is too long.
    LongBattery,
    /// The battery file is no battery.
    Battery(BatteryFault),
    /// The search for a plan is too large: the product of its sizes is this, which is above 2^24.
    Product(u64),
    /// The schedule file is too long.
    LongSchedule,
    /// The schedule file is no schedule of the problem.
    Schedule(ScheduleFault),
}

impl Refusal {
    /// The line that is printed.
    fn text(self, alloc: Global) -> Result<Vec<u8>, NoMemory>
        ensures { IfOk result (λ text. text.items ≡ refusal_text self) }
    {
        match self {
            Refusal::Words => line_text(alloc, "refused words 23 NotYet", ""),
            Refusal::LongRecord => line_text(alloc, "refused record 0 TooLong", ""),
            Refusal::RecordShape(row) => shape_text(alloc, row),
            Refusal::LongReadings => line_text(alloc, "refused readings 0 TooLong", ""),
            Refusal::Readings(fault) => readings_text(alloc, fault),
            Refusal::TiersNotYet => line_text(alloc, "refused record 23 NotYet none 3", ""),
            Refusal::LongBattery => line_text(alloc, "refused battery 0 TooLong", ""),
            Refusal::Battery(fault) => battery_text(alloc, fault),
            Refusal::Product(size) => product_text(alloc, size),
            Refusal::LongSchedule => line_text(alloc, "refused schedule 0 TooLong", ""),
            Refusal::Schedule(fault) => schedule_text(alloc, fault),
        }
    }

    /// The verdict of a run that it ends.
    fn verdict(self) -> Verdict
        ensures { result ≡ refusal_verdict self }
    {
        match self {
            Refusal::Words | Refusal::Product(_) => Verdict::Words,
            Refusal::LongRecord | Refusal::RecordShape(_) | Refusal::TiersNotYet => Verdict::Record,
            Refusal::LongReadings | Refusal::Readings(_) => Verdict::Readings,
            Refusal::LongBattery
            | Refusal::Battery(_)
            | Refusal::LongSchedule
            | Refusal::Schedule(_) => Verdict::Battery,
        }
    }

    /// The reply that says so.
    pub fn reply(self, alloc: Global) -> Result<Reply, NoMemory>
        ensures { IfOk result (Shows (refusal_verdict self) (refusal_text self)) }
    {
        let text = self.text(alloc)?;
        Ok(Reply {
            verdict: self.verdict(),
            text,
        })
    }

    /// The fault that says so.
    pub fn fault(self, alloc: Global) -> Fault
        ensures { EndsBy (λ end. end ≡ refused self) result }
    {
        match self.reply(alloc) {
            Ok(reply) => Fault::Refused(reply),
            Err(NoMemory) => Fault::Memory,
        }
    }
}

/// The line of a record file that is refused by its first row of another length, which counts from 0 behind the header.
fn shape_text(alloc: Global, row: u64) -> Result<Vec<u8>, NoMemory>
    ensures { IfOk result (λ text. text.items ≡ refusal_text (Refusal.RecordShape row)) }
{
    let row = format!(in alloc; "{row}")?;
    line_text(alloc, "refused record 0 Shape ", row.as_str())
}

/// The line of a readings file that is refused so.
fn readings_text(alloc: Global, fault: MeterFault) -> Result<Vec<u8>, NoMemory>
    ensures { IfOk result (λ text. text.items ≡ refusal_text (Refusal.Readings fault)) }
{
    let fault = meter_fault_text(alloc, fault)?;
    line_text(alloc, "refused readings ", fault.as_str())
}

/// The number and the name of a readings file's fault, with the numbers that it names.
fn meter_fault_text(alloc: Global, fault: MeterFault) -> Result<String, AllocError>
    ensures { IfOk result (λ text. string_bytes text ≡ meter_fault_text fault) }
{
    match fault {
        MeterFault::Shape => format!(in alloc; "1 Shape"),
        MeterFault::Start(row) => format!(in alloc; "2 Start {row}"),
        MeterFault::Order(row) => format!(in alloc; "3 Order {row}"),
        MeterFault::Step => format!(in alloc; "4 Step"),
        MeterFault::Count(have, need) => format!(in alloc; "5 Count {have} {need}"),
        MeterFault::Number(row) => format!(in alloc; "6 Number {row}"),
        MeterFault::TooLarge(row) => format!(in alloc; "7 TooLarge {row}"),
        MeterFault::Memory => format!(in alloc; ""),
    }
}

/// The line of a battery file that is refused so.
fn battery_text(alloc: Global, fault: BatteryFault) -> Result<Vec<u8>, NoMemory>
    ensures { IfOk result (λ text. text.items ≡ refusal_text (Refusal.Battery fault)) }
{
    let fault = battery_fault_text(alloc, fault)?;
    line_text(alloc, "refused battery ", fault.as_str())
}

/// The number and the name of a battery file's fault, with the row that it names.
fn battery_fault_text(alloc: Global, fault: BatteryFault) -> Result<String, AllocError>
    ensures { IfOk result (λ text. string_bytes text ≡ battery_fault_text fault) }
{
    match fault {
        BatteryFault::Shape => format!(in alloc; "1 Shape"),
        BatteryFault::Unknown(row) => format!(in alloc; "2 Unknown {row}"),
        BatteryFault::Missing => format!(in alloc; "3 Missing capacity"),
        BatteryFault::Twice(row) => format!(in alloc; "4 Twice {row}"),
        BatteryFault::Number(row) => format!(in alloc; "5 Number {row}"),
        BatteryFault::Range(row) => format!(in alloc; "6 Range {row}"),
        BatteryFault::NoModes => format!(in alloc; "7 NoModes"),
        BatteryFault::TooMany(row) => format!(in alloc; "8 TooMany {row}"),
        BatteryFault::Memory => format!(in alloc; ""),
    }
}

/// The line of words whose search is too large.
fn product_text(alloc: Global, size: u64) -> Result<Vec<u8>, NoMemory>
    ensures { IfOk result (λ text. text.items ≡ refusal_text (Refusal.Product size)) }
{
    let size = format!(in alloc; "{size}")?;
    line_text(alloc, "refused words 7 Product ", size.as_str())
}

/// The line of a schedule file that is refused so.
fn schedule_text(alloc: Global, fault: ScheduleFault) -> Result<Vec<u8>, NoMemory>
    ensures { IfOk result (λ text. text.items ≡ refusal_text (Refusal.Schedule fault)) }
{
    let fault = schedule_fault_text(alloc, fault)?;
    line_text(alloc, "refused schedule ", fault.as_str())
}

/// The number and the name of a schedule file's fault, with the numbers that it names.
fn schedule_fault_text(alloc: Global, fault: ScheduleFault) -> Result<String, AllocError>
    ensures { IfOk result (λ text. string_bytes text ≡ schedule_fault_text fault) }
{
    match fault {
        ScheduleFault::Shape => format!(in alloc; "1 Shape"),
        ScheduleFault::Count(have, need) => format!(in alloc; "2 Count {have} {need}"),
        ScheduleFault::Start(row) => format!(in alloc; "3 Start {row}"),
        ScheduleFault::Mode(row) => format!(in alloc; "4 Mode {row}"),
    }
}

/// Why the program stops before it has an answer of its own.
#[derive(Debug, Drop, Error)]
pub enum Fault {
    /// The words or a file are refused, and the reply says so.
    #[error("refused")]
    Refused(Reply),
    /// A call on the desk failed.
    #[error("the desk failed")]
    Failed,
    /// Memory was wanted and there was none.
    #[error("out of memory")]
    Memory,
}

impl From<AllocError> for Fault {
    ghost use Rattle.std.specs.Prelude.{◌≡◌};
    ghost use Rattle.d_run.specs.declared.fault.Fault.TheVariants.{Memory};

    ghost from_gives = { λ _ fault. fault ≡ Memory };

    fn from(_error: AllocError) -> Fault {
        Fault::Memory
    }
}

impl From<NoMemory> for Fault {
    ghost use Rattle.std.specs.Prelude.{◌≡◌};
    ghost use Rattle.d_run.specs.declared.fault.Fault.TheVariants.{Memory};

    ghost from_gives = { λ _ fault. fault ≡ Memory };

    fn from(_error: NoMemory) -> Fault {
        Fault::Memory
    }
}
