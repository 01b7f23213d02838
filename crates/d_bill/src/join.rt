//! Joining a problem from what it is made of.

ghost use Rattle.std.specs.Prelude.{◌≡◌, ◌<◌, [], ◌∷◌, ◌++◌, map, Some, None, if◌then◌else◌, IfOk, OnOk, All};
ghost use Rattle.std.specs.Option.{ForSome};
ghost use Rattle.d_tier.specs.Charges.{has_price};
ghost use Rattle.d_tariff.specs.Terms.{HasDemandPrices};
ghost use Rattle.d_tariff.specs.Shown.{terms_of};
ghost use Rattle.d_batt.specs.Shown.{storage_of};
ghost use Rattle.d_meter.specs.Shown.{metered_of};
ghost use Rattle.d_bill.specs.Inputs.{HasPrices, HasPeakPrices};
ghost use Rattle.d_bill.specs.Join as spec;

use crate::problem::Problem;
use crate::tally::PERIODS;
use d_batt::Battery;
use d_cal::{Month, Schedule};
use d_list::Items;
use d_meter::Meter;
use d_num::{NoMemory, Watt};
use d_tariff::{Period, Periods, Tariff};
use d_tier::{Peak, Tiers};
use std::alloc::Global;

const MINUTES_OF_A_DAY: u32 = 1440;

const MINUTES_OF_AN_HOUR: u32 = 60;

impl Problem {
    /// The problem of a month: its readings, the terms of the tariff that hold in it, and the battery. The month's flat demand is billed for
    /// at least its fraction of the earlier peak, which is 0 W where there is none. Where energy is settled hour by hour the readings are
    /// hourly. It takes memory, and is refused for want of it alone.
    pub fn join(
        alloc: Global,
        tariff: &Tariff,
        meter: &Meter,
        battery: &Battery,
        prior: Watt,
    ) -> Result<Problem, NoMemory>
        requires { spec.IsSettled (terms_of tariff.now) (metered_of meter.now) }
        ensures { IfOk result (λ problem. problem ≡ spec.join_of (terms_of tariff.now) (metered_of meter.now) (storage_of battery.now) prior) }
    {
        let periods = interval_periods(alloc, &tariff.energy_hours, meter)?;
        let demands = interval_periods(alloc, &tariff.demand_hours, meter)?;
        let energy = occurring_periods(alloc, tariff, periods.as_slice())?;
        let groups = joined_groups(alloc, tariff, demands.as_slice(), meter.month, prior)?;
        Ok(Problem {
            month: meter.month,
            minutes: meter.minutes,
            net: meter.net.copied(alloc)?,
            periods,
            demands,
            energy,
            demand_groups: groups.numbers,
            peaks: groups.peaks,
            fixed: tariff.fixed_of(meter.month),
            minimum: tariff.minimum_of(meter.month),
            battery: battery.copied(alloc)?,
        })
    }
}

/// The periods of a meter's intervals by a schedule, in order.
fn interval_periods(
    alloc: Global,
    schedule: &Schedule,
    meter: &Meter,
) -> Result<Items<u8>, NoMemory>
    ensures value { IfOk result (λ periods. periods ≡ spec.interval_periods schedule.now.weekday schedule.now.weekend (metered_of meter.now)) }
    ensures range { IfOk result (λ periods. All (λ number. number < 36) periods) }
{
    let mut periods = Items::new(alloc);
    for t in 0..meter.net.len() as u32 {
        let start = t * u32::from(meter.minutes);
        let day = start / MINUTES_OF_A_DAY + 1;
        let hour = start % MINUTES_OF_A_DAY / MINUTES_OF_AN_HOUR;
        periods.add(schedule.period_at(meter.month, day as u8, hour as u8))?;
    }
    Ok(periods)
}

/// The energy periods that some interval is in, by their numbers.
fn occurring_periods(alloc: Global, tariff: &Tariff, periods: &[u8]) -> Result<Periods, NoMemory>
    ensures value { IfOk result (λ energy. energy ≡ spec.occurring_periods (terms_of tariff.now) periods.now) }
    ensures prices { IfOk result (λ energy. All (λ period. ForSome period HasPrices) energy) }
{
    let mut energy = Periods::new(alloc);
    for number in 0..PERIODS {
        energy.add(occurring(tariff, periods, number))?;
    }
    Ok(energy)
}

/// An energy period, or None where no interval is in it.
fn occurring(tariff: &Tariff, periods: &[u8], number: u8) -> Option<Period>
    ensures value { result ≡ spec.occurring (terms_of tariff.now) periods.now number }
    ensures prices { ForSome result HasPrices }
{
    if !periods.contains(&number) {
        return None;
    }
    let period = tariff.period(number)?;
    Some(Period {
        tiers: period.tiers.copied(),
        sell: period.sell,
    })
}

/// The demand periods that have a group, and what each group is charged, the flat group last.
#[derive(Drop)]
struct Groups {
    numbers: Items<u8>,
    peaks: Items<Peak>,
}

impl Groups {
    /// Adds the group of a demand period.
    fn add(&mut self, number: u8, peak: Peak) -> Result<(), NoMemory>
        ensures numbers { OnOk result (self.new.numbers ≡ self.old.numbers ++ number ∷ []) }
        ensures peaks { OnOk result (self.new.peaks ≡ self.old.peaks ++ peak ∷ []) }
    {
        self.numbers.add(number)?;
        self.peaks.add(peak)
    }
}

/// All groups: those of demand periods in order of their numbers, and behind them the flat group.
fn joined_groups(
    alloc: Global,
    tariff: &Tariff,
    demands: &[u8],
    month: Month,
    prior: Watt,
) -> Result<Groups, NoMemory>
    ensures numbers { IfOk result (λ groups. groups.numbers ≡ spec.demand_groups (terms_of tariff.now) demands.now) }
    ensures peaks { IfOk result (λ groups. groups.peaks ≡ spec.joined_peaks (terms_of tariff.now) month.number groups.numbers prior) }
    ensures prices { IfOk result (λ groups. All HasPeakPrices groups.peaks) }
{
    let mut groups = demand_groups(alloc, tariff, demands)?;
    if let Some(peak) = flat_peak(tariff, month, prior) {
        groups.peaks.add(peak)?;
    }
    Ok(groups)
}

/// The groups of demand periods.
fn demand_groups(alloc: Global, tariff: &Tariff, demands: &[u8]) -> Result<Groups, NoMemory>
    ensures numbers { IfOk result (λ groups. groups.numbers ≡ spec.demand_groups (terms_of tariff.now) demands.now) }
    ensures peaks { IfOk result (λ groups. groups.peaks ≡ map (spec.demand_peak (terms_of tariff.now)) groups.numbers) }
    ensures prices { IfOk result (λ groups. All HasPeakPrices groups.peaks) }
{
    let mut groups = Groups {
        numbers: Items::new(alloc),
        peaks: Items::new(alloc),
    };
    for number in 0..PERIODS {
        if let Some(peak) = group_peak(tariff, demands, number) {
            groups.add(number, peak)?;
        }
    }
    Ok(groups)
}

/// What the group of a demand period is charged, or None where it has no group.
fn group_peak(tariff: &Tariff, demands: &[u8], number: u8) -> Option<Peak>
    ensures value { result ≡ if spec.has_group (terms_of tariff.now) demands.now number then Some (spec.demand_peak (terms_of tariff.now) number) else None }
    ensures prices { ForSome result HasPeakPrices }
{
    if !demands.contains(&number) {
        return None;
    }
    charged_peak(tariff.demand_tiers(number)?, Watt::new(0).unwrap())
}

/// What the flat group is charged, or None where flat demand charges nothing in the month.
fn flat_peak(tariff: &Tariff, month: Month, prior: Watt) -> Option<Peak>
    ensures value { result ≡ spec.flat_peak (terms_of tariff.now) month.number prior }
    ensures prices { ForSome result HasPeakPrices }
{
    charged_peak(tariff.flat_tiers(month)?, tariff.floor_of(month, prior))
}

/// The tiers with a floor, or None where they charge nothing.
fn charged_peak(tiers: &Tiers, floor: Watt) -> Option<Peak>
    requires { HasDemandPrices tiers.now }
    ensures value { result ≡ if has_price tiers.now then Some (spec.peak_of (Some tiers.now) floor) else None }
    ensures prices { ForSome result HasPeakPrices }
{
    if tiers.is_charged() {
        Some(Peak {
            tiers: tiers.copied(),
            floor,
        })
    } else {
        None
    }
}
