//! Moves, what they cost, and the levels between which they may be used.

use d_rows::Packed;

/// One thing that may be done in an interval.
#[derive(Clone, Copy)]
pub struct Move {
    /// By how many levels the level rises.
    pub change: i16,
    /// The least level at which it may begin.
    pub low: u8,
    /// The greatest level at which it may begin.
    pub high: u8,
}

/// The intervals of a month, and the moves that there are in each.
///
/// A way takes one move per interval: none that may not be used, each begun in its range of levels, each level after it from `floor`
/// to `capacity`, and the last level at least `end`. This is our own rule.
#[derive(Clone, Copy)]
pub struct Ways<'a> {
    /// What each move costs in each interval, in money, interval by interval; no way marks a move that may not be used there.
    pub costs: &'a [Packed],
    /// The moves, by their numbers.
    pub moves: &'a [Move],
    /// The least level that a way may pass.
    pub floor: u8,
    /// The greatest level that a way may pass.
    pub capacity: u8,
    /// The level where a way begins.
    pub start: u8,
    /// The least level at which a way may end.
    pub end: u8,
}
