//! The rules that tiers of coincident demand keep.

/// One of the rules that each tier of coincident demand keeps, in the order in which they are tested.
#[derive(Clone, Copy)]
pub(crate) enum CoincidentRule {
    /// Its prices can be read.
    Numbers,
    /// Its prices are 0.
    Prices,
}
