//! What an amount is charged by some tiers, and by how much that is more than a price for each unit of the amount.

ghost use Rattle.std.specs.Prelude.{◌≡◌, ◌⊎◌, ◌*◌, ◌^◌, pos, ◌<ℤ◌, ◌≤ℤ◌, IfSome};
ghost use Rattle.d_num.specs.Amount.{IsUpTo, IsWithin};
ghost use Rattle.d_tier.specs.Charges.{part_end, tier_charge};
ghost use Rattle.d_tier.specs.Gaps.{gap_at, least_gap};
ghost use Rattle.d_tier.specs.Steps.{IsInnerGap};
ghost use Rattle.d_tier.specs.Tables.{AreTiersFrom};

use crate::tier::Tier;
use d_num::{Money, Rate};

/// What an amount is charged by some tiers: it stops at the tier that holds the amount's end.
pub fn charge_of(tiers: &[Tier], amount: i64) -> Money
    requires tiers { AreTiersFrom (pos 0) tiers.now }
    requires amount { IsUpTo (2 * 10 ^ 13) amount }
    ensures value { result ≡ tier_charge tiers.now amount }
    ensures range { IsWithin (2 * 10 ^ 35) result }
{
    let mut begin = 0;
    let mut charge = Money::new(0).unwrap();
    for tier in tiers {
        // shows the price's range
        let _units = tier.price.units();
        let end = end_of_part(tier.end, amount);
        charge = charge.plus(tier.price.times(end - begin));
        if end == amount {
            return charge;
        }
        begin = end;
    }
    unreachable!()
}

/// Where the part of an amount that lies below a tier's end ends.
fn end_of_part(end: Option<i64>, amount: i64) -> i64
    ensures { result ≡ part_end end amount }
{
    match end {
        Some(end) => end.min(amount),
        None => amount,
    }
}

/// By how much the charge of an amount is more than a price for each unit of it.
fn gap_of(tiers: &[Tier], amount: i64, slope: Rate) -> Money
    requires tiers { AreTiersFrom (pos 0) tiers.now }
    requires amount { IsUpTo (2 * 10 ^ 13) amount }
    ensures { result ≡ gap_at tiers.now slope amount }
{
    // shows the slope's range
    let _units = slope.units();
    charge_of(tiers, amount).minus(slope.times(amount))
}

/// The least gap of the amounts from `low` to `high`. Between its ends and the tiers' ends inside it a range has one price, so its least gap
/// is at one of these.
pub fn least_gap_of(tiers: &[Tier], low: i64, high: i64, slope: Rate) -> Money
    requires tiers { AreTiersFrom (pos 0) tiers.now }
    requires low { pos 0 ≤ℤ low }
    requires order { low ≤ℤ high }
    requires high { high ≤ℤ pos (2 * 10 ^ 13) }
    ensures { result ≡ least_gap tiers.now low high slope }
{
    let mut least = gap_of(tiers, low, slope).least(gap_of(tiers, high, slope));
    for tier in tiers {
        least = least_with_end(tiers, tier.end, low, high, slope, least);
    }
    least
}

/// The lesser of what was found and of the gap at a tier's end, where that is inside the range.
fn least_with_end(
    tiers: &[Tier],
    end: Option<i64>,
    low: i64,
    high: i64,
    slope: Rate,
    least: Money,
) -> Money
    requires tiers { AreTiersFrom (pos 0) tiers.now }
    requires low { pos 0 ≤ℤ low }
    requires high { high ≤ℤ pos (2 * 10 ^ 13) }
    ensures below { result ≤ℤ least }
    ensures reached { (result ≡ least) ⊎ IsInnerGap tiers.now low high slope result }
    ensures at_end { IfSome end (λ e. low <ℤ e → e <ℤ high → result ≤ℤ gap_at tiers.now slope e) }
{
    let Some(end) = end else {
        return least;
    };
    if end <= low || end >= high {
        return least;
    }
    least.least(gap_of(tiers, end, slope))
}
