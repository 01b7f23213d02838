//! A month of net meter readings.

ghost use Rattle.d_meter.specs.Meters.{IsReadings};

use d_cal::Month;
use d_list::Items;
use d_num::Wh;

/// Net readings in order, one an interval.
pub type NetList = Items<Wh>;

/// The net readings of a whole month, one every so many minutes.
#[derive(Drop)]
pub struct Meter {
    /// The month.
    pub month: Month,
    /// The length of an interval: 15, 30 or 60 minutes.
    pub minutes: u8,
    /// The net reading of each interval, at most 10^9 Wh in size; below 0 where more was made than used.
    pub net: NetList,
    pub ghost complete: { IsReadings month.year month.number minutes net },
}

impl Meter {
    ghost use Rattle.std.specs.Prelude.{◌≡◌};
    ghost use Rattle.d_cal.specs.Calendar.{IsDayOf};
    ghost use Rattle.d_meter.specs.Meters.{day_of};

    /// The net readings of that day of the month, from 1, in order.
    pub fn day(&self, day: u8) -> &[Wh]
        requires { IsDayOf self.now.month.year self.now.month.number day }
        ensures { result.now ≡ day_of self.now.minutes self.now.net day }
    {
        let count = 1440 / usize::from(self.minutes);
        let start = (usize::from(day) - 1) * count;
        let net = self.net.as_slice();
        &net[start..start + count]
    }
}
