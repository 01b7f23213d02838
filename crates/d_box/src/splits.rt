//! Where a box is split.

ghost use Rattle.std.specs.Prelude.{◌≡◌, ◌≤◌, ◌<◌, ◌+◌, ◌*◌, ◌^◌, length};
ghost use Rattle.std.specs.List.{All};
ghost use Rattle.d_tier.specs.Charges.{peak_charge};
ghost use Rattle.d_num.specs.Amount.{IsWithin, IsWatt};
ghost use Rattle.d_box.specs.Candidates.{AreEnds};
ghost use Rattle.d_box.specs.Splits.{IsSplitOf, peak_gap, HasDemandPrices};
ghost use Rattle.d_box.specs.Steps.{IsFirstTotal, IsWidest, ArePowers};

use crate::candidates::Candidates;
use crate::places::middle_in;
use crate::space::{Range, Space, Split};
use d_num::{Money, Watt};
use d_tier::{Peak, Tiers};

/// The split of the first total with a tier end strictly inside its range.
fn first_total(space: &Space, energy: &[Tiers]) -> Option<Split>
    requires { length energy.now ≤ 36 }
    ensures { IsFirstTotal space.now energy.now (length energy.now) result }
{
    for (index, tiers) in energy.iter().enumerate() {
        let range = &space.totals[index];
        if let Some(at) = tiers.inner_end(range.low, range.high) {
            return Some(Split::Total {
                index: index as u8,
                at,
            });
        }
    }
    None
}

/// What a group is charged for a power from 0 to 10^13 W.
fn charge_at(peak: &Peak, power: i64) -> Money
    requires prices { HasDemandPrices peak.now }
    requires power { IsWatt power }
    ensures value { result ≡ peak_charge peak.now power }
    ensures size { IsWithin (3 * 10 ^ 34) result }
{
    // shows the floor's range
    let _floor = peak.floor.value();
    peak.charge(Watt::new(power).unwrap())
}

/// How much more a group is charged at the high end of a range than at the low end.
fn gap(peak: &Peak, range: &Range) -> Money
    requires prices { HasDemandPrices peak.now }
    requires low { IsWatt range.now.low }
    requires high { IsWatt range.now.high }
    ensures value { result ≡ peak_gap peak.now range.now }
    ensures size { IsWithin (6 * 10 ^ 34) result }
{
    charge_at(peak, range.high).minus(charge_at(peak, range.low))
}

/// The first group of the greatest difference above 0.
fn widest(space: &Space, groups: &[Peak]) -> Option<u8>
    requires groups { length groups.now ≤ 37 }
    requires prices { All HasDemandPrices groups.now }
    requires powers { ArePowers space.now (length groups.now) }
    ensures { IsWidest space.now groups.now (length groups.now) result }
{
    let mut found = None;
    let mut greatest = Money::new(0).unwrap();
    for (group, peak) in groups.iter().enumerate() {
        let gap = gap(peak, &space.peaks[group]);
        if gap > greatest {
            greatest = gap;
            found = Some(group as u8);
        }
    }
    found
}

/// Where a box is split, or None for a point, which isn't split any more. The first total whose range has the end of a tier strictly inside is
/// split at the lowest such end; `energy` has the tables of the tiered periods. Else the group whose demand charge differs most between the
/// ends of its range is split, the first of equals, at the candidate in the middle of its range. Our own rule.
pub fn split_of(
    space: &Space,
    energy: &[Tiers],
    groups: &[Peak],
    candidates: &Candidates,
) -> Option<Split>
    requires energy { length energy.now ≤ 36 }
    requires groups { length groups.now ≤ 37 }
    requires prices { All HasDemandPrices groups.now }
    requires lists { length candidates.now ≡ length groups.now }
    requires ends { AreEnds space.now candidates.now }
    ensures { IsSplitOf space.now energy.now groups.now candidates.now result }
{
    if let Some(split) = first_total(space, energy) {
        return Some(split);
    }
    let group = widest(space, groups)?;
    Some(Split::Peak {
        group,
        at: middle_in(candidates.list(group), &space.peaks[group as usize]),
    })
}
