//! Counting what goes through the meter, interval by interval.

ghost use Rattle.std.specs.Prelude.{◌≡◌, ◌*◌, ◌^◌, ◌<◌, pos, ◌+ℤ◌, length, slice_index_or, slice_set};
ghost use Rattle.d_num.specs.Amount.{IsWithin};

use crate::arc::Arc;
use crate::problem::Problem;
use crate::tally::Tally;
use d_num::{Watt, Wh};

impl Problem {
    ghost use Rattle.std.specs.Prelude.{◌≡◌, ℕ, ℤ, ◌+◌, ◌*◌, ◌^◌, ◌<◌, length, if◌then◌else◌};
    ghost use Rattle.std.specs.Int.{int_max};
    ghost use Rattle.d_num.specs.Amount.{IsUpTo};
    ghost use Rattle.d_bill.specs.Inputs.{is_in_group};
    ghost use Rattle.d_bill.specs.Flows.{arc_of_flow};
    ghost use Rattle.d_bill.specs.Totals.{tally_to, values_of, IsTalliedTo};
    ghost use Rattle.d_bill.specs.Counting.{raised_peak};

    /// Adds what goes through the meter in an interval to the tally of the intervals before it.
    pub(crate) fn count(&self, t: u32, arc: Arc, tally: &mut Tally)
        requires interval { t < length self.now.net }
        requires import { IsUpTo (2 * 10 ^ 9) arc.import }
        requires export { IsUpTo (2 * 10 ^ 9) arc.export }
        requires before { IsTalliedTo self.now t tally.old }
        ensures { (flow : ℕ → ℤ) → arc ≡ arc_of_flow self.now.minutes (flow t) → tally.old ≡ tally_to self.now flow t
            → tally.new ≡ tally_to self.now flow (t + 1) }
    {
        let interval = self.interval(t);
        add_import(&mut tally.totals, interval.period, arc.import);
        let worth = interval.sell.times(arc.export.value());
        tally.credit = tally.credit.plus(worth);
        self.raise_peaks(t, arc.power, &mut tally.peaks);
    }

    /// Raises the peak of each group that the interval is in to a power.
    fn raise_peaks(&self, t: u32, power: Watt, peaks: &mut [Watt])
        requires interval { t < length self.now.net }
        requires long { length peaks.old ≡ 37 }
        ensures { peaks.new ≡ values_of 37 (raised_peak self.now t peaks.old power 37) }
    {
        for group in 0..37u8 {
            let place = group as usize;
            peaks[place] = self.raised(t, group, power, peaks[place]);
        }
    }

    /// The larger of a group's peak and a power, where the interval is in the group; else the peak.
    fn raised(&self, t: u32, group: u8, power: Watt, peak: Watt) -> Watt
        requires { t < length self.now.net }
        ensures { result ≡ (if is_in_group self.now t group then int_max peak power else peak) }
    {
        if self.in_group(t, group) && peak < power {
            power
        } else {
            peak
        }
    }
}

/// Adds an import to the total of a period.
fn add_import(totals: &mut [Wh], period: u8, import: Wh)
    requires place { period < length totals.old }
    requires range { IsWithin (2 * 10 ^ 13) (slice_index_or totals.old period (pos 0) +ℤ import) }
    ensures { totals.new ≡ slice_set totals.old period (slice_index_or totals.old period (pos 0) +ℤ import) }
{
    let place = period as usize;
    let total = totals[place].value() + import.value();
    totals[place] = Wh::new(total).unwrap();
}
