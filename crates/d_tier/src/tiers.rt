//! A table of tiers.

ghost use Rattle.std.specs.Prelude.{◌≡◌, ◌↔◌, ℕ, ◌+◌, ◌*◌, ◌^◌, ◌<◌, ◌≤◌, [], ◌∷◌, length, pos, ◌<ℤ◌, ◌≤ℤ◌, IsNone, IfSome, All};
ghost use Rattle.d_num.specs.Amount.{IsUpTo, IsWithin};
ghost use Rattle.d_tier.specs.Charges.{tier_charge, has_price};
ghost use Rattle.d_tier.specs.Gaps.{least_gap};
ghost use Rattle.d_tier.specs.Tables.{IsTierTable, IsTierEnd, IsLowestPrice, IsHighestPrice, open_tier, with_tier, last_end, price_at, end_at};

use crate::charges::{charge_of, least_gap_of};
use crate::tier::Tier;
use d_num::{Money, Rate};
use std::marker::Model;

const MOST_TIERS: usize = 16;

/// 1 to 16 tiers whose ends rise, in which neighbours have different prices and the last has no end. A contract sees the list of them.
#[derive(Drop)]
pub struct Tiers {
    count: usize,
    tiers: [Tier; MOST_TIERS],
}

impl Model for Tiers {
    ghost use Rattle.std.specs.Prelude.{◌≡◌, ◌≤◌, List, length, take};
    ghost use Rattle.d_tier.specs.declared.tier.Tier.{Tier};

    ghost Value = { List Tier };

    ghost use Rattle.d_tier.specs.Tables.{IsTierTable};

    ghost view = { λ a. take a.count a.tiers };

    ghost invariant = { λ a. (length a.tiers ≡ 16) × (a.count ≤ 16) × IsTierTable (take a.count a.tiers) };
}

impl Tiers {
    /// The table of one price for everything.
    pub fn one(price: Rate) -> Tiers
        ensures { result ≡ open_tier price ∷ [] }
    {
        Tiers {
            count: 1,
            tiers: [Tier { price, end: None }; MOST_TIERS],
        }
    }

    /// Ends the last tier there and adds a tier of that price; where the last tier has that price already nothing changes.
    pub fn add(&mut self, end: i64, price: Rate)
        requires room { length self.old < 16 }
        requires above { last_end self.old <ℤ end }
        requires range { IsTierEnd end }
        ensures table { self.new ≡ with_tier end price self.old }
        ensures end { last_end self.new ≤ℤ end }
        ensures count { length self.new ≤ length self.old + 1 }
    {
        let last = self.count - 1;
        if self.tiers[last].price == price {
            return;
        }
        self.tiers[last].end = Some(end);
        self.tiers[self.count] = Tier { price, end: None };
        self.count += 1;
    }

    /// How many tiers there are.
    pub fn count(&self) -> usize
        ensures count { result ≡ length self.now }
        ensures table { IsTierTable self.now }
    {
        self.count
    }

    /// The price of a tier, counted from 0.
    pub fn price(&self, tier: usize) -> Rate
        requires { tier < length self.now }
        ensures { result ≡ price_at self.now tier }
    {
        let tiers = &self.tiers;
        tiers[tier].price
    }

    /// The end of a tier, counted from 0; None exactly for the last.
    pub fn end(&self, tier: usize) -> Option<i64>
        requires { tier < length self.now }
        ensures value { result ≡ end_at self.now tier }
        ensures last { IsNone result ↔ (tier + 1 ≡ length self.now) }
        ensures range { IfSome result IsTierEnd }
    {
        let tiers = &self.tiers;
        tiers[tier].end
    }

    /// The lowest price of all tiers.
    pub fn lowest_price(&self) -> Rate
        ensures { IsLowestPrice self.now result }
    {
        lowest_of(&self.tiers[..self.count])
    }

    /// The highest price of all tiers.
    pub fn highest_price(&self) -> Rate
        ensures { IsHighestPrice self.now result }
    {
        highest_of(&self.tiers[..self.count])
    }

    /// Whether some tier has a price other than 0.
    pub fn is_charged(&self) -> bool
        ensures { result ≡ has_price self.now }
    {
        self.tiers[..self.count]
            .iter()
            .any(|tier| tier.price.units() != 0)
    }

    /// What an amount is charged: each tier's price for the part of the amount that lies in it. The amount is in Wh or W, from 0 to
    /// 2 * 10^13.
    pub fn charge(&self, amount: i64) -> Money
        requires { IsUpTo (2 * 10 ^ 13) amount }
        ensures value { result ≡ tier_charge self.now amount }
        ensures size { (m n : ℕ) → All (λ tier. IsWithin m tier.price) self.now → IsUpTo n amount → IsWithin (m * n) result }
    {
        charge_of(&self.tiers[..self.count], amount)
    }

    /// The least of what the charge of an amount is more than a slope's price for it, over the whole amounts from `low` to `high`. Both are
    /// in Wh or W, from 0 to 2 * 10^13. It works out a charge for each end of a tier inside the range and for both ends of it.
    pub fn least_gap(&self, low: i64, high: i64, slope: Rate) -> Money
        requires low { pos 0 ≤ℤ low }
        requires order { low ≤ℤ high }
        requires high { high ≤ℤ pos (2 * 10 ^ 13) }
        ensures value { result ≡ least_gap self.now low high slope }
        ensures size { (m k n : ℕ) → All (λ tier. IsWithin m tier.price) self.now → IsWithin k slope → IsUpTo n high
            → IsWithin ((m + k) * n) result }
    {
        least_gap_of(&self.tiers[..self.count], low, high, slope)
    }

    /// The same table once more.
    pub fn copied(&self) -> Tiers
        ensures value { result ≡ self.now }
        ensures table { IsTierTable result }
    {
        let first = &self.tiers[0];
        let mut tiers = [*first; MOST_TIERS];
        for i in 1..self.count {
            tiers[i] = self.tiers[i];
        }
        Tiers {
            count: self.count,
            tiers,
        }
    }
}

/// The lowest price of some tiers.
fn lowest_of(tiers: &[Tier]) -> Rate
    requires { 0 < length tiers.now }
    ensures { IsLowestPrice tiers.now result }
{
    let mut lowest = tiers[0].price;
    for tier in tiers {
        if tier.price < lowest {
            lowest = tier.price;
        }
    }
    lowest
}

/// The highest price of some tiers.
fn highest_of(tiers: &[Tier]) -> Rate
    requires { 0 < length tiers.now }
    ensures { IsHighestPrice tiers.now result }
{
    let mut highest = tiers[0].price;
    for tier in tiers {
        if tier.price > highest {
            highest = tier.price;
        }
    }
    highest
}
