//! Caps: the costs of what a box lets be drawn.

ghost use Rattle.std.specs.Prelude.{◌≡◌, ◌<◌, ◌*◌, length};
ghost use Rattle.d_bound.specs.Bounders.{IsCapOf, free_costs, mode_powers, capped_costs};
ghost use Rattle.d_bound.specs.CapSteps.{CapsInterval, lesser_cap};

use d_bill::Problem;
use d_box::{Range, Space};
use d_rows::Packed;

/// No cap is above this power in W, and no power is.
const HIGHEST: i64 = 10_000_000_000_000;

/// The lesser of a cap and of the high end of a range.
fn lower_cap(cap: i64, range: &Range) -> i64
    ensures { result ≡ lesser_cap cap range.now }
{
    cap.min(range.high)
}

/// The greatest power in W within the high ends of all groups that hold the interval.
fn cap_at(problem: &Problem, space: &Space, interval: u32) -> i64
    requires interval { interval < length problem.now.net }
    requires peaks { length space.now.peaks ≡ 37 }
    ensures { IsCapOf problem.now space.now interval result }
{
    let mut cap = HIGHEST;
    for group in 0..problem.groups().len() {
        if problem.in_group(interval, group as u8) {
            cap = lower_cap(cap, &space.peaks[group]);
        }
    }
    cap
}

/// Writes what each mode of an interval costs whose power is within the cap, and that there is no way by the others.
fn cap_interval(cap: i64, costs: &[Packed], powers: &[i64], capped: &mut [Packed])
    requires powers { length powers.now ≡ length costs.now }
    requires room { length capped.old ≡ length costs.now }
    ensures { CapsInterval cap costs.now powers.now capped.new }
{
    for mode in 0..capped.len() {
        capped[mode] = if powers[mode] <= cap {
            costs[mode]
        } else {
            Packed::no_way()
        };
    }
}

/// Writes what each mode costs in each interval within the caps of a box.
pub(crate) fn cap_costs(
    problem: &Problem,
    space: &Space,
    costs: &[Packed],
    powers: &[i64],
    capped: &mut [Packed],
)
    requires peaks { length space.now.peaks ≡ 37 }
    requires costs { costs.now ≡ free_costs problem.now }
    requires powers { powers.now ≡ mode_powers problem.now }
    requires room { length capped.old ≡ length problem.now.net * length problem.now.storage.modes }
    ensures { capped.new ≡ capped_costs problem.now space.now }
{
    let modes = problem.battery().modes.len();
    for interval in 0..problem.intervals() {
        let begin = interval as usize * modes;
        let end = begin + modes;
        let cap = cap_at(problem, space, interval);
        cap_interval(
            cap,
            &costs[begin..end],
            &powers[begin..end],
            &mut capped[begin..end],
        );
    }
}
