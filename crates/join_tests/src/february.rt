//! February 2025, whose first day is a Saturday: its readings, the battery, and the bill of the readings.

ghost use Rattle.std.specs.Prelude.{◌≡◌, ◌^◌, IfOk};
ghost use Rattle.d_num.specs.Amount.{IsWithin};

use d_batt::{Battery, Mode, ModeList, Name};
use d_bill::{Problem, Tally};
use d_cal::Month;
use d_meter::{Meter, NetList};
use d_num::{Money, NoMemory, Watt, Wh};
use d_table::read_table;
use d_tariff::Tariff;
use d_urdb::{RuleChoice, read_record};
use std::alloc::Global;
use std::test::Fail;

/// A month of hourly readings, by the hour of the month.
fn february(alloc: Global, reading: Reading) -> Result<Meter, NoMemory>
    ensures { IfOk result (λ m. m.minutes ≡ 60) }
{
    let mut net = NetList::new(alloc);
    for hour in 0..672 {
        net.add(reading.of(hour))?;
    }
    Ok(Meter {
        month: Month {
            year: 2025,
            number: 2,
        },
        minutes: 60,
        net,
    })
}

/// What a meter reads.
#[derive(Clone, Copy)]
pub enum Reading {
    /// 1000 Wh an hour, and 5000 Wh at noon of the 12th.
    Steady,
    /// 1000 Wh an hour are sent out.
    Sent,
    /// 20000 Wh in the hours 8 to 17 of weekdays, and 2000 Wh in all others.
    Office,
}

impl Reading {
    /// What is read in an hour of the month, from 0.
    fn of(self, hour: u16) -> Wh
        ensures { IsWithin (10 ^ 9) result }
    {
        let energy = match self {
            Reading::Steady if hour == 276 => 5000,
            Reading::Steady => 1000,
            Reading::Sent => -1000,
            Reading::Office if hour / 24 % 7 >= 2 && hour % 24 >= 8 && hour % 24 <= 17 => 20_000,
            Reading::Office => 2000,
        };
        Wh::new(energy).unwrap()
    }
}

/// A battery at level 1 of 4, which rests in mode 0, and in mode 1 goes down a level and sends 3000 Wh.
fn battery(alloc: Global) -> Result<Battery, NoMemory> {
    let mut modes = ModeList::new(alloc);
    modes.add(mode(Name::new(b"idle").unwrap(), 0, Wh::new(0).unwrap()))?;
    modes.add(mode(
        Name::new(b"discharge").unwrap(),
        -1,
        Wh::new(-3000).unwrap(),
    ))?;
    Ok(Battery {
        capacity: 4,
        floor: 0,
        start: 1,
        end: 0,
        max_import: Wh::new(10_000_000_000).unwrap(),
        max_export: Wh::new(10_000_000_000).unwrap(),
        modes,
    })
}

/// A mode that may begin at any level.
fn mode(name: Name, change: i16, grid: Wh) -> Mode
    ensures { result ≡ record { name = name; change = change; grid = grid; low = 0; high = 255 } }
{
    Mode {
        name,
        change,
        grid,
        low: 0,
        high: 255,
    }
}

/// The bill of the readings by the record of that label in the text.
pub fn bill(
    alloc: Global,
    text: &str,
    label: &str,
    reading: Reading,
    prior: Watt,
) -> Result<Money, Fail> {
    let problem = problem(alloc, text, label, reading, prior)?;
    let mut tally = Tally::new();
    problem.metered(&mut tally);
    Ok(problem.bill(&tally))
}

/// The problem of the readings, the battery and the record of that label.
pub fn problem(
    alloc: Global,
    text: &str,
    label: &str,
    reading: Reading,
    prior: Watt,
) -> Result<Problem, Fail> {
    let tariff = tariff(alloc, text, label)?;
    let meter = february(alloc, reading)?;
    let battery = battery(alloc)?;
    let problem = Problem::join(alloc, &tariff, &meter, &battery, prior)?;
    Ok(problem)
}

/// The tariff of the record of that label.
fn tariff(alloc: Global, text: &str, label: &str) -> Result<Tariff, Fail> {
    let Ok(table) = read_table(alloc, text.as_bytes()) else {
        return Err(Fail::new("a file that is no table"));
    };
    match read_record(alloc, &table, label.as_bytes(), RuleChoice::AsRecorded) {
        Ok(tariff) => Ok(tariff),
        Err(_) => Err(Fail::new("a record that is refused")),
    }
}
