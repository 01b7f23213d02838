//! For what records are refused.

ghost use Rattle.std.specs.Prelude.{◌≡◌};
ghost use Rattle.d_urdb.specs.RefusalNames as spec;
ghost use Rattle.d_urdb.specs.Refusals.{number_of};

/// For what a record is refused.
#[derive(Clone, Copy)]
pub(crate) enum Cause {
    /// No row has the label.
    NoLabel,
    /// Several rows have it.
    LabelTwice,
    /// There is no column of labels.
    NoColumn,
    /// A cell is no number that can be read.
    Decimal,
    /// A cell is no grid, no list, or no period.
    Grid,
    /// An hour is in an energy period without a tier.
    EnergyMissing,
    /// A tier is there without the one before it.
    TierHole,
    /// A tier does not end above where it begins.
    TierOrder,
    /// The unit of an energy period's tiers is none that is read.
    TierUnit,
    /// A tier's sell rate isn't its period's.
    SellTiers,
    /// A price of demand is below 0.
    DemandFalls,
    /// The unit of demand isn't kW.
    DemandUnit,
    /// Net metering.
    NetMetering,
    /// Buying all and selling all.
    BuyAllSellAll,
    /// A rule by the hour beside readings of another length, which a record by itself can't be refused for.
    HourlyRule,
    /// A price of coincident demand.
    Coincident,
    /// A charge for reactive power.
    Reactive,
    /// A minimum by the year.
    AnnualMinimum,
    /// An adjustment for fuel.
    FuelAdjustment,
    /// The unit of a charge is none.
    ChargeUnit,
    /// A rule of billing that is none.
    RuleUnknown,
    /// A fraction below 0.
    Fraction,
}

impl Cause {
    /// Its number, by which a refusal tells it.
    pub(crate) fn number(self) -> u8
        ensures { result ≡ number_of self }
    {
        match self {
            Cause::NoLabel => 1,
            Cause::LabelTwice => 2,
            Cause::NoColumn => 3,
            Cause::Decimal => 4,
            Cause::Grid => 5,
            Cause::EnergyMissing => 6,
            Cause::TierHole => 7,
            Cause::TierOrder => 8,
            Cause::TierUnit => 9,
            Cause::SellTiers => 10,
            Cause::DemandFalls => 11,
            Cause::DemandUnit => 12,
            Cause::NetMetering => 13,
            Cause::BuyAllSellAll => 14,
            Cause::HourlyRule => 15,
            Cause::Coincident => 16,
            Cause::Reactive => 17,
            Cause::AnnualMinimum => 18,
            Cause::FuelAdjustment => 19,
            Cause::ChargeUnit => 20,
            Cause::RuleUnknown => 21,
            Cause::Fraction => 22,
        }
    }
}

/// The name of a refusal by its number, or no text for a number that no refusal has. A record's is its cause's. 0 is a file whose rows differ
/// in length, and 23 what isn't planned yet; neither is a record's.
pub fn refusal_name(number: u8) -> &'static str
    ensures { result.now ≡ spec.refusal_name number }
{
    match number {
        0 => "Shape",
        1 => "NoLabel",
        2 => "LabelTwice",
        3 => "NoColumn",
        4 => "Decimal",
        5 => "Grid",
        6 => "EnergyMissing",
        7 => "TierHole",
        8 => "TierOrder",
        9 => "TierUnit",
        10 => "SellTiers",
        11 => "DemandFalls",
        12 => "DemandUnit",
        13 => "NetMetering",
        14 => "BuyAllSellAll",
        15 => "HourlyRule",
        16 => "Coincident",
        17 => "Reactive",
        18 => "AnnualMinimum",
        19 => "FuelAdjustment",
        20 => "ChargeUnit",
        21 => "RuleUnknown",
        22 => "Fraction",
        23 => "NotYet",
        _ => "",
    }
}
