//! Boxes and splits.

/// The whole numbers from one to another, both among them: powers in W, from 0 to 10^13, or energies in Wh, from 0 to 2 * 10^13.
#[derive(Clone, Copy, PartialEq, Eq, Debug)]
pub struct Range {
    /// In W or Wh.
    pub low: i64,
    /// In W or Wh.
    pub high: i64,
}

/// A box: a range for the highest demand of each group and one for the import of each tiered period; entries that aren't used are 0 to 0.
#[derive(Clone, Copy, Debug)]
pub struct Space {
    /// In W, in the order of the groups.
    pub peaks: [Range; 37],
    /// In Wh, in the order of the tiered periods.
    pub totals: [Range; 36],
}

/// Where a box is split: the range of a total in Wh, or that of a peak in W, at a place in it.
#[derive(Clone, Copy, PartialEq, Eq, Debug)]
pub enum Split {
    Total { index: u8, at: i64 },
    Peak { group: u8, at: i64 },
}
