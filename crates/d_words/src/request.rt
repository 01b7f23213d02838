//! What the words of a request name.

use crate::budget::Budget;
use d_num::Watt;

/// What the words of a request name.
#[derive(Clone, Copy)]
pub struct Request<'a> {
    /// The name of the file of tariff records.
    pub records: &'a str,
    /// The label of the record.
    pub label: &'a str,
    /// The name of the file of meter readings.
    pub readings: &'a str,
    /// What is wanted.
    pub task: Task<'a>,
    /// Whether the month is billed by net billing, whatever the record says.
    pub net_billing: bool,
    /// The highest flat demand of earlier months, from which a ratchet counts, from 0 to 10^13 W; 0 where the words give none.
    pub prior_peak: Watt,
}

/// What is wanted for a record and a month of readings.
#[derive(Clone, Copy)]
pub enum Task<'a> {
    /// A plan with the battery of this file.
    Plan {
        /// The name of the battery file.
        battery: &'a str,
        /// The most boxes that the search for it may make; None where the words give no budget.
        budget: Option<Budget>,
    },
    /// The bill of the readings alone.
    MeteredBill,
    /// The bill of a schedule file with a battery file.
    ScheduleBill {
        /// The name of the battery file.
        battery: &'a str,
        /// The name of the schedule file.
        schedule: &'a str,
    },
}
