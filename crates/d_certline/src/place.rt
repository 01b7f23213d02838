//! Where in a certificate the next line stands.

use crate::kind::Kind;
use d_num::Money;

/// Which line comes next.
#[derive(Clone, Copy, PartialEq, Eq, Debug)]
pub enum Stage {
    Version,
    Label,
    Month,
    Minutes,
    Intervals,
    Levels,
    Modes,
    Groups,
    Tiered,
    Verdict,
    /// The modes of this day, from 1.
    Day(u8),
    Bill,
    Lower,
    /// A split or a leaf, or the last line where no tree is owed.
    Tree,
    Slopes,
    /// The potentials of this interval.
    Layer(u32),
    /// Nothing: the certificate has ended.
    Done,
}

/// Where in a certificate the next line stands, and what the lines before have said that decides which lines may follow. What hasn't been
/// said yet is 0, and `kind` then means nothing.
#[derive(Clone, Copy)]
pub struct Place {
    /// Which line comes next.
    pub stage: Stage,
    /// How many days the month has.
    pub days: u8,
    /// The length of an interval in minutes.
    pub minutes: u8,
    /// How many intervals the month has.
    pub intervals: u32,
    /// The battery's least level, in steps.
    pub floor: u8,
    /// The battery's greatest level, in steps.
    pub capacity: u8,
    /// How many modes the battery has.
    pub modes: u8,
    /// How many groups of demand the month has.
    pub groups: u8,
    /// How many tiered periods of energy the month has.
    pub tiered: u8,
    /// What is claimed.
    pub kind: Kind,
    /// The bill of the schedule, in 10^-21 USD.
    pub bill: Money,
    /// How many trees still have to come.
    pub owed: u32,
    /// How many nodes the whole tree has at least: those that have begun, and one for each tree that is owed.
    pub need: u32,
    /// How many leaves have begun.
    pub leaves: u32,
}
