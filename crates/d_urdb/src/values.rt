//! What the cells of a record's periods say.

ghost use Rattle.std.specs.Prelude.{◌≡◌, ℕ, ◌≤◌, ◌<◌, ◌-◌, ◌*◌, ◌^◌, ◌∷◌, [], true, false, Some, None, length, map, option_map, pos, ℤ, ◌≤ℤ◌, IfOk, IfSome, All};
ghost use Rattle.std.specs.Option.{ForSome};
ghost use Rattle.std.specs.List.{range_with_len};
ghost use Rattle.d_num.specs.Amount.{IsWithin};
ghost use Rattle.d_tariff.specs.Terms.{HasEnergyPrices};
ghost use Rattle.d_urdb.specs.Numbers.{Reads};
ghost use Rattle.d_urdb.specs.Shown.{row_of};
ghost use Rattle.d_columns.specs.Tiers.{Row, IsLeastHole, has_tier};
ghost use Rattle.d_urdb.specs.Periods as spec;
ghost use Rattle.d_urdb.specs.Values.{HasRisingEnds, HasPrices};

use crate::checks::PRICE_LIMIT;
use crate::number::{read_end, read_number};
use crate::row::Record;
use d_columns::{PERIODS, Part, Structure, TIERS};
use d_num::{NoMemory, Rate};
use d_tariff::{Period, Periods};
use d_tier::Tiers;
use std::alloc::Global;

impl<'a> Record<'a> {
    /// The price in a part of a tier; 0 where none can be read.
    pub(crate) fn price_in(&self, structure: Structure, period: u8, tier: u8, part: Part) -> Rate
        requires period { period ≤ 35 }
        requires tier { tier ≤ 15 }
        ensures value { Reads (λ reader. spec.part_price reader (row_of self.now) structure period tier part) result }
        ensures range { IsWithin (10 ^ 21) result }
    {
        match read_number(
            self.cells.part_cell(structure, period, tier, part),
            PRICE_LIMIT,
        ) {
            Ok(price) => rate_of(price),
            Err(_) => rate_of(0),
        }
    }

    /// What a tier costs: its rate and what is added to that.
    pub(crate) fn price_of(&self, structure: Structure, period: u8, tier: u8) -> Rate
        requires period { period ≤ 35 }
        requires tier { tier ≤ 15 }
        ensures value { Reads (λ reader. spec.price_of reader (row_of self.now) structure period tier) result }
        ensures range { IsWithin (2 * 10 ^ 21) result }
    {
        let rate = self.price_in(structure, period, tier, Part::Rate);
        let added = self.price_in(structure, period, tier, Part::Adj);
        rate.plus(added)
    }

    /// Where a tier ends; None where it has no end or none can be read.
    pub(crate) fn end_of(&self, structure: Structure, period: u8, tier: u8) -> Option<i64>
        requires period { period ≤ 35 }
        requires tier { tier ≤ 15 }
        ensures value { Reads (λ reader. spec.end_of reader (row_of self.now) structure period tier) result }
        ensures range { IfSome result (IsWithin (10 ^ 13)) }
    {
        match read_end(self.cells.part_cell(structure, period, tier, Part::Max)) {
            Ok(end) => end,
            Err(_) => None,
        }
    }

    /// Where a tier begins.
    pub(crate) fn begin_of(&self, structure: Structure, period: u8, tier: u8) -> Option<i64>
        requires period { period ≤ 35 }
        requires tier { tier ≤ 15 }
        ensures { Reads (λ reader. spec.begin_of reader (row_of self.now) structure period tier) result }
    {
        if tier == 0 {
            Some(0)
        } else {
            self.end_of(structure, period, tier - 1)
        }
    }

    /// What a period pays for energy sent out.
    pub(crate) fn sell_of(&self, structure: Structure, period: u8) -> Rate
        requires { period ≤ 35 }
        ensures value { Reads (λ reader. spec.sell_of reader (row_of self.now) structure period) result }
        ensures range { IsWithin (10 ^ 21) result }
    {
        match self.first_sell(structure, period) {
            Some(tier) => self.price_in(structure, period, tier, Part::Sell),
            None => rate_of(0),
        }
    }

    /// The first tier whose sell rate is given.
    fn first_sell(&self, structure: Structure, period: u8) -> Option<u8>
        requires { period ≤ 35 }
        ensures value { result ≡ spec.first_sell (row_of self.now) structure period }
        ensures range { IfSome result (λ tier. tier ≤ 15) }
    {
        for tier in 0..TIERS {
            if self.cells.is_filled(structure, period, tier, Part::Sell) {
                return Some(tier);
            }
        }
        None
    }

    /// The tiers of a period, neighbours of one price joined.
    pub(crate) fn tiers(&self, structure: Structure, period: u8) -> Tiers
        requires period { period ≤ 35 }
        requires rising { HasRisingEnds (row_of self.now) structure period }
        ensures value { Reads (λ reader. spec.tiers_to reader (row_of self.now) structure period 15) result }
        ensures prices { HasPrices result }
    {
        let mut tiers = Tiers::one(self.price_of(structure, period, 0));
        for tier in 1..TIERS {
            self.add_tier(&mut tiers, structure, period, tier);
        }
        tiers
    }

    /// Adds a tier that is there to those before it.
    fn add_tier(&self, tiers: &mut Tiers, structure: Structure, period: u8, tier: u8)
        requires period { period ≤ 35 }
        requires tier { (1 ≤ tier) × (tier ≤ 15) }
        requires rising { HasRisingEnds (row_of self.now) structure period }
        requires before { Reads (λ reader. spec.tiers_to reader (row_of self.now) structure period (tier - 1)) tiers.old }
        requires prices { HasPrices tiers.old }
        ensures value { Reads (λ reader. spec.tiers_to reader (row_of self.now) structure period tier) tiers.new }
        ensures prices { HasPrices tiers.new }
    {
        if !self.cells.has_tier(structure, period, tier) {
            return;
        }
        if let Some(end) = self.end_of(structure, period, tier - 1) {
            tiers.add(end, self.price_of(structure, period, tier));
        }
    }

    /// An energy period, or None where it has no tier.
    fn energy_period(&self, period: u8) -> Option<Period>
        requires period { period ≤ 35 }
        requires rising { HasRisingEnds (row_of self.now) Structure.Energy period }
        ensures value { Reads (λ reader. spec.energy_period reader (row_of self.now) period) result }
        ensures prices { IfSome result HasEnergyPrices }
    {
        if !self.cells.has_tier(Structure::Energy, period, 0) {
            return None;
        }
        let tiers = self.tiers(Structure::Energy, period);
        let sell = self.sell_of(Structure::Energy, period);
        Some(Period { tiers, sell })
    }

    /// All energy periods by their numbers.
    pub(crate) fn energy_periods(&self, alloc: Global) -> Result<Periods, NoMemory>
        requires { (period : ℕ) → period ≤ 35 → HasRisingEnds (row_of self.now) Structure.Energy period }
        ensures value { IfOk result (Reads (λ reader. spec.energy_periods reader (row_of self.now))) }
        ensures prices { IfOk result (λ periods. All (λ period. ForSome period HasEnergyPrices) periods) }
    {
        let mut periods = Periods::new(alloc);
        for period in 0..PERIODS {
            periods.add(self.energy_period(period))?;
        }
        Ok(periods)
    }
}

/// The rate of so many units of 10^-18 USD.
fn rate_of(units: i128) -> Rate
    requires { IsWithin (10 ^ 21) units }
    ensures { result ≡ units }
{
    match Rate::new(units) {
        Some(rate) => rate,
        None => unreachable!(),
    }
}
