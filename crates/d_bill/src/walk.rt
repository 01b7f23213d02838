//! Schedules: which of them keep the battery's rules, and what is counted of them.

ghost use Rattle.std.specs.Prelude.{◌≡◌, ◌*◌, ◌^◌};
ghost use Rattle.d_num.specs.Amount.{IsUpTo, IsWithin};
ghost use Rattle.d_bill.specs.Flows.{import_of, export_of};

use crate::arc::{Arc, At};
use crate::problem::Problem;
use crate::tally::Tally;
use d_batt::Mode;
use d_num::{Watt, Wh};

impl Problem {
    ghost use Rattle.std.specs.Prelude.{◌≡◌, ℕ, ◌*◌, ◌^◌, ◌<◌, ◌+ℤ◌, pos, length, OnOk, OnErr, IfErr, IfNone, IfSome, slice_get};
    ghost use Rattle.jiff_core.specs.Calendar.{IsBetween};
    ghost use Rattle.d_num.specs.Amount.{IsUpTo, IsWithin};
    ghost use Rattle.d_batt.specs.Storage.{IsMode};
    ghost use Rattle.d_bill.specs.Inputs.{IsInRange};
    ghost use Rattle.d_bill.specs.Flows.{net_at, grid_of, arc_of, permitted_arc, arc_of_flow};
    ghost use Rattle.d_bill.specs.Schedules.{change_of, KeepsRules, IsFeasible, IsFirstBreak};
    ghost use Rattle.d_bill.specs.Totals.{tally_of, metered_tally, IsTallied};

    /// Goes through a schedule from the first interval to the last. A feasible schedule's tally is written. Any other is refused with
    /// the first interval that breaks a rule, or the number of intervals where only the end level is missed, and the tally stays.
    pub fn walk(&self, schedule: &[u8], tally: &mut Tally) -> Result<(), At>
        requires { length schedule.now ≡ length self.now.net }
        ensures feasible { OnOk result (IsFeasible self.now schedule.now) }
        ensures tally { OnOk result (tally.new ≡ tally_of self.now schedule.now) }
        ensures tallied { OnOk result (IsTallied self.now tally.new) }
        ensures refused { IfErr result (λ at. IsFirstBreak self.now schedule.now at.interval) }
        ensures infeasible { OnErr result (¬ IsFeasible self.now schedule.now) }
        ensures only { IfErr result (λ at. (t : ℕ) → IsFirstBreak self.now schedule.now t → t ≡ at.interval) }
        ensures same { OnErr result (tally.new ≡ tally.old) }
    {
        let mut counted = Tally::new();
        let count = self.intervals();
        let mut level = self.battery.start;
        for t in 0..count {
            let Some(step) = self.step(t, level, schedule[t as usize]) else {
                return Err(At { interval: t });
            };
            level = step.level;
            self.count(t, step.arc, &mut counted);
        }
        if level < self.battery.end {
            return Err(At { interval: count });
        }
        *tally = counted;
        Ok(())
    }

    /// Writes the tally of the readings alone, as if there were no battery. No rule of the battery is tested.
    pub fn metered(&self, tally: &mut Tally)
        ensures value { tally.new ≡ metered_tally self.now }
        ensures tallied { IsTallied self.now tally.new }
    {
        *tally = Tally::new();
        for t in 0..self.intervals() {
            let arc = self.arc_of_flow(self.interval(t).net.value());
            self.count(t, arc, tally);
        }
    }

    /// Import, export and power of an interval in a mode, or None exactly where the battery's limits don't allow it.
    pub fn arc(&self, t: u32, mode: u8) -> Option<Arc>
        requires interval { t < length self.now.net }
        requires mode { mode < length self.now.storage.modes }
        ensures { result ≡ arc_of self.now t mode }
    {
        self.permitted(self.interval(t).net.value() + self.mode(mode).grid.value())
    }

    /// The mode of that number.
    fn mode(&self, number: u8) -> &Mode
        requires { number < length self.now.storage.modes }
        ensures there { slice_get self.now.storage.modes number ≡ Some result.now }
        ensures range { IsMode result.now }
    {
        &self.battery.modes.as_slice()[number as usize]
    }

    /// Import, export and power of a flow, or None where the battery's limits don't allow it.
    fn permitted(&self, flow: i64) -> Option<Arc>
        requires { IsWithin (2 * 10 ^ 9) flow }
        ensures { result ≡ permitted_arc self.now flow }
    {
        let arc = self.arc_of_flow(flow);
        if arc.import > self.battery.max_import || arc.export > self.battery.max_export {
            return None;
        }
        Some(arc)
    }

    /// Import, export and power of a flow.
    fn arc_of_flow(&self, flow: i64) -> Arc
        requires { IsWithin (2 * 10 ^ 9) flow }
        ensures value { result ≡ arc_of_flow self.now.minutes flow }
        ensures import { IsUpTo (2 * 10 ^ 9) result.import }
        ensures export { IsUpTo (2 * 10 ^ 9) result.export }
    {
        let import = imported(flow);
        Arc {
            import,
            export: exported(flow),
            power: Watt::of(import, self.minutes),
        }
    }

    /// One interval of a schedule: None exactly where a rule is broken.
    fn step(&self, t: u32, level: u8, number: u8) -> Option<Step>
        requires { t < length self.now.net }
        ensures refused { IfNone result (¬ KeepsRules self.now t number (pos level)) }
        ensures kept { IfSome result (λ _. KeepsRules self.now t number (pos level)) }
        ensures level { IfSome result (λ step. pos step.level ≡ pos level +ℤ change_of self.now number) }
        ensures arc { IfSome result
            (λ step. step.arc ≡ arc_of_flow self.now.minutes (net_at self.now t +ℤ grid_of self.now number)) }
    {
        if number as usize >= self.battery.modes.len() {
            return None;
        }
        let mode = self.mode(number);
        if level < mode.low || level > mode.high {
            return None;
        }
        let after = self.level_after(level, mode.change)?;
        let arc = self.arc(t, number)?;
        Some(Step { level: after, arc })
    }

    /// The level after a change, or None exactly where the battery hasn't it.
    fn level_after(&self, level: u8, change: i16) -> Option<u8>
        requires { IsWithin 255 change }
        ensures value { IfSome result (λ after. pos after ≡ pos level +ℤ change) }
        ensures kept { let b = self.now.storage in
            IfSome result (λ after. IsBetween (pos b.floor) (pos b.capacity) (pos after)) }
        ensures refused { let b = self.now.storage in
            IfNone result (¬ IsBetween (pos b.floor) (pos b.capacity) (pos level +ℤ change)) }
    {
        let after = level as i16 + change;
        if after < self.battery.floor as i16 || after > self.battery.capacity as i16 {
            return None;
        }
        Some(after as u8)
    }
}

/// The level after an interval, and its import, export and power.
#[derive(Clone, Copy)]
struct Step {
    level: u8,
    arc: Arc,
}

/// The import of a flow: the larger of 0 and the flow.
fn imported(flow: i64) -> Wh
    requires { IsWithin (2 * 10 ^ 9) flow }
    ensures value { result ≡ import_of flow }
    ensures range { IsUpTo (2 * 10 ^ 9) result }
{
    Wh::new(flow.max(0)).unwrap()
}

/// The export of a flow: the larger of 0 and the flow turned round.
fn exported(flow: i64) -> Wh
    requires { IsWithin (2 * 10 ^ 9) flow }
    ensures value { result ≡ export_of flow }
    ensures range { IsUpTo (2 * 10 ^ 9) result }
{
    Wh::new((-flow).max(0)).unwrap()
}
