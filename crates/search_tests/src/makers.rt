//! What the months of the tests are made of: a tariff, the readings of February 2025, and a battery of 4 levels.

ghost use Rattle.std.specs.Prelude.{◌≡◌, ◌≤◌, ◌*◌, ◌^◌, IfOk};
ghost use Rattle.d_num.specs.Amount.{IsReadingLength, IsUpTo, IsWithin};

use d_batt::{Battery, Mode, ModeList, Name};
use d_cal::Month;
use d_meter::{Meter, NetList};
use d_num::{NoMemory, Wh};
use d_table::read_table;
use d_tariff::Tariff;
use d_urdb::{RuleChoice, read_record};
use std::alloc::Global;
use std::test::Fail;

/// The minutes of 28 days.
const MINUTES: u16 = 40_320;

/// When noon of the 12th is, in minutes from the month's start.
const NOON: u16 = 16_560;

/// The tariff of the record of label L.
pub fn tariff(alloc: Global, records: &[u8]) -> Result<Tariff, Fail> {
    let table = read_table(alloc, records)?;
    match read_record(alloc, &table, b"L", RuleChoice::AsRecorded) {
        Ok(tariff) => Ok(tariff),
        Err(_) => Err(Fail::new("a record that is refused")),
    }
}

/// How many intervals of so many minutes the month has.
fn count(minutes: u8) -> u16
    requires { IsReadingLength minutes }
    ensures { result * minutes ≡ 28 * 1440 }
{
    MINUTES / u16::from(minutes)
}

/// The readings of the month: `usual` in each interval, but `noon` in the one that begins on the 12th at 12:00.
pub fn february(alloc: Global, minutes: u8, usual: Wh, noon: Wh) -> Result<Meter, NoMemory>
    requires minutes { IsReadingLength minutes }
    requires usual { IsWithin (10 ^ 9) usual }
    requires noon { IsWithin (10 ^ 9) noon }
    ensures { IfOk result (λ m. m.minutes ≡ minutes) }
{
    let at_noon = NOON / u16::from(minutes);
    let mut net = NetList::new(alloc);
    for interval in 0..count(minutes) {
        net.add(if interval == at_noon { noon } else { usual })?;
    }
    Ok(Meter {
        month: Month {
            year: 2025,
            number: 2,
        },
        minutes,
        net,
    })
}

/// A mode that may begin at any level.
fn mode(name: Name, change: i16, grid: Wh) -> Mode
    ensures { result ≡ record { name = name; change = change; grid = grid; low = 0; high = 255 } }
{
    Mode {
        name,
        change,
        grid,
        low: 0,
        high: 255,
    }
}

/// An empty battery of 4 levels, each of 1000 Wh. It idles by mode 0, charges by mode 1 and discharges by mode 2, and exports nothing.
pub fn battery(alloc: Global, end: u8, max_import: Wh) -> Result<Battery, NoMemory>
    requires end { end ≤ 4 }
    requires import { IsUpTo (10 ^ 10) max_import }
{
    let mut modes = ModeList::new(alloc);
    modes.add(mode(Name::new(b"idle").unwrap(), 0, Wh::new(0).unwrap()))?;
    modes.add(mode(Name::new(b"charge").unwrap(), 1, Wh::new(1000).unwrap()))?;
    modes.add(mode(
        Name::new(b"discharge").unwrap(),
        -1,
        Wh::new(-1000).unwrap(),
    ))?;
    Ok(Battery {
        capacity: 4,
        floor: 0,
        start: 0,
        end,
        max_import,
        max_export: Wh::new(0).unwrap(),
        modes,
    })
}
