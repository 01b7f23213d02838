//! Files of readings, and what reading one answers.

use d_meter::{Meter, MeterFault, read_meter};
use d_table::read_table;
use std::alloc::Global;
use std::test::Fail;

/// A month of readings: its year, number and days, and the length of an interval in minutes.
#[derive(Clone, Copy)]
pub struct Form {
    pub year: u16,
    pub number: u8,
    pub days: u8,
    pub minutes: u8,
}

/// February 2023, hour by hour: 672 rows.
pub const FEBRUARY: Form = Form {
    year: 2023,
    number: 2,
    days: 28,
    minutes: 60,
};

/// The file of a month. Each net reading is its row's number. The changes are cut by `;`, and each is a row's number, a `:` and the line
/// that stands there instead.
pub fn file(alloc: Global, form: Form, changes: &str) -> Result<String, Fail> {
    let mut file = format!(in alloc; "start,net_wh\n")?;
    let mut row = 0u32;
    for day in 0..form.days {
        for hour in 0..24u8 {
            for part in 0..4u8 {
                if part < 60 / form.minutes.max(1) {
                    let line = line(alloc, form, day, hour, part, row, changes)?;
                    file.push_str(line.as_str())?;
                    row = row.wrapping_add(1);
                }
            }
        }
    }
    Ok(file)
}

/// A line of a file, as it is or as it is changed.
fn line(
    alloc: Global,
    form: Form,
    day: u8,
    hour: u8,
    part: u8,
    row: u32,
    changes: &str,
) -> Result<String, Fail> {
    let row = format!(in alloc; "{row}")?;
    if let Some(line) = changed(row.as_str(), changes) {
        return Ok(format!(in alloc; "{line}\n")?);
    }
    let Form { year, number, .. } = form;
    let day = day.wrapping_add(1);
    let minute = part.wrapping_mul(form.minutes);
    Ok(format!(in alloc; "{year:04}-{number:02}-{day:02}T{hour:02}:{minute:02},{row}\n")?)
}

/// The line that stands in the place of that row, if one does.
fn changed<'a>(row: &str, changes: &'a str) -> Option<&'a str> {
    for change in changes.split(';') {
        if let Some((changed, line)) = change.split_once(':') {
            if changed == row {
                return Some(line);
            }
        }
    }
    None
}

/// What reading a file answers: the month, the length of an interval, the number of readings, and the first reading of the second day; or
/// the refusal and its numbers.
pub fn answer(alloc: Global, file: &str) -> Result<String, Fail> {
    let Ok(table) = read_table(alloc, file.as_bytes()) else {
        return Err(Fail::new("a file that is no table"));
    };
    match read_meter(alloc, &table) {
        Ok(meter) => meter_text(alloc, &meter),
        Err(fault) => fault_text(alloc, fault),
    }
}

fn meter_text(alloc: Global, meter: &Meter) -> Result<String, Fail> {
    let year = meter.month.year();
    let number = meter.month.number();
    let minutes = meter.minutes;
    let count = meter.net.len();
    let second = if meter.month.days() < 2 {
        None
    } else {
        meter.day(2).first().copied()
    };
    match second {
        Some(net) => {
            let net = net.value();
            Ok(format!(in alloc; "{year}-{number} {minutes} {count} {net}")?)
        }
        None => Err(Fail::new("a month without a second day")),
    }
}

fn fault_text(alloc: Global, fault: MeterFault) -> Result<String, Fail> {
    match fault {
        MeterFault::Shape => Ok(format!(in alloc; "Shape")?),
        MeterFault::Start(row) => Ok(format!(in alloc; "Start {row}")?),
        MeterFault::Order(row) => Ok(format!(in alloc; "Order {row}")?),
        MeterFault::Step => Ok(format!(in alloc; "Step")?),
        MeterFault::Count(have, need) => Ok(format!(in alloc; "Count {have} {need}")?),
        MeterFault::Number(row) => Ok(format!(in alloc; "Number {row}")?),
        MeterFault::TooLarge(row) => Ok(format!(in alloc; "TooLarge {row}")?),
        MeterFault::Memory => Err(Fail::new("no memory")),
    }
}

/// Reads a file and compares the answer.
pub fn check_file(alloc: Global, file: &str, wanted: &str) -> Result<(), Fail> {
    let found = answer(alloc, file)?;
    if found.as_str() != wanted {
        return Err(Fail::new(format!(in alloc; "wanted {wanted}, found {found}")?));
    }
    Ok(())
}

/// Reads a month's file with each of these changes. The cases are cut by `|`, and each is the answer, a `=`, and the changes.
pub fn check_months(alloc: Global, form: Form, cases: &str) -> Result<(), Fail> {
    for case in cases.split('|') {
        let Some((wanted, changes)) = case.split_once('=') else {
            return Err(Fail::new("a case without an answer"));
        };
        let file = file(alloc, form, changes)?;
        check_file(alloc, file.as_str(), wanted)?;
    }
    Ok(())
}
