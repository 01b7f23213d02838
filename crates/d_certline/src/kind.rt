//! What a certificate claims.

/// What a certificate claims of the month that it names.
#[derive(Clone, Copy, PartialEq, Eq, Debug)]
pub enum Kind {
    /// No feasible schedule has a smaller bill than the one that it gives.
    Least,
    /// No feasible schedule's bill is below the bound that it gives.
    Gap,
    /// No schedule is feasible.
    Nothing,
}
