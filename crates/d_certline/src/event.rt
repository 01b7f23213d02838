//! What the lines of a certificate say, one after the other.

use crate::kind::Kind;
use d_batt::Name;
use d_box::Split;
use d_num::{Money, Pot, Rate};

/// What a line of a certificate says, or a part of it. The line of the version and the words in front of lists say nothing.
#[derive(Drop)]
pub enum Event {
    /// The label of the record.
    Label(Name),
    /// The year, from 1 to 9999, and the month's number in it, from 1 for January to 12.
    Month(i16, u8),
    /// The length of an interval: 15, 30 or 60.
    Minutes(u8),
    /// How many intervals the month has.
    Intervals(u32),
    /// The battery's floor, capacity, level at the month's start and least level at its end, in steps.
    Levels(u8, u8, u8, u8),
    /// How many modes the battery has: 1 to 64.
    Modes(u8),
    /// How many groups of demand the month has: 0 to 37.
    Groups(u8),
    /// How many tiered periods of energy the month has: 0 to 36.
    Tiered(u8),
    /// What is claimed.
    Verdict(Kind),
    /// The number of the mode of the next interval, from 0.
    Mode(u8),
    /// The bill of the schedule, in 10^-21 USD.
    Bill(Money),
    /// The bound that no bill goes below, in 10^-21 USD.
    Lower(Money),
    /// The next box is split here.
    Split(Split),
    /// The next box is a leaf.
    Leaf,
    /// The slope of the leaf's next tiered period, in 10^-18 USD per kWh.
    Slope(Rate),
    /// The potentials of this interval follow; those at the month's end have the number of intervals.
    Layer(u32),
    /// The potential of the next level, from the floor on, in 10^-21 USD.
    Potential(Pot),
    /// The certificate has ended.
    End,
}
