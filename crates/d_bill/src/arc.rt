//! An interval, what it takes and gives in a mode, and where a schedule breaks a rule.

use d_num::{Rate, Watt, Wh};

/// What a plan needs to know of an interval.
#[derive(Clone, Copy)]
pub struct Interval {
    /// The net reading, at most 10^9 Wh in size; below 0 where more was made than used.
    pub net: Wh,
    /// The energy period, from 0 to 35.
    pub period: u8,
    /// What is paid for the export, in units of 10^-18 USD per kWh, at most 3000 USD in size.
    pub sell: Rate,
}

/// Import, export and power of an interval in a mode.
#[derive(Clone, Copy)]
pub struct Arc {
    /// The energy from the grid, from 0 to 2 * 10^9 Wh.
    pub import: Wh,
    /// The energy into the grid, from 0 to 2 * 10^9 Wh.
    pub export: Wh,
    /// The import's power in W, evenly over the interval.
    pub power: Watt,
}

/// The interval, counted from 0, at which a schedule breaks a rule; the number of intervals where only the end level is missed.
#[derive(Clone, Copy)]
pub struct At {
    /// From 0 to the number of intervals.
    pub interval: u32,
}
