//! The rules that the tiers of a period keep.

/// One of the rules that each tier of a period keeps, in the order in which they are tested.
#[derive(Clone, Copy)]
pub(crate) enum TierRule {
    /// Its numbers can be read.
    Numbers,
    /// Its unit is kWh, where the period has several tiers.
    Units,
    /// It ends above where it begins, unless it is the last.
    Order,
    /// Its sell rate is the period's.
    Sells,
    /// Its price isn't below 0, where it is one of demand.
    Falls,
}
