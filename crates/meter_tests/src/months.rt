//! Months that are read.

use crate::files::{FEBRUARY, Form, check_months};
use std::test::Fail;

/// Forms of starts and of net readings that are taken, in February 2023.
const FORMS: &str = "2023-2 60 672 24=\
    |2023-2 60 672 24=3:2023-02-01 03:00,5\
    |2023-2 60 672 24=3:2023-02-01T03:00:00,5;4:2023-02-01 04:00:00,6\
    |2023-2 60 672 24=0: 2023-02-01T00:00 ,\t0\
    |2023-2 60 672 -1000000000=24:2023-02-02T00:00,-1e9\
    |2023-2 60 672 1000000000=24:2023-02-02T00:00,1000000000\
    |2023-2 60 672 -7=24:2023-02-02T00:00,-7.0";

#[test]
fn reads_each_form(rt: HostRuntime) -> Result<(), Fail> {
    check_months(rt.alloc(), FEBRUARY, FORMS)
}

fn form(year: u16, number: u8, days: u8, minutes: u8) -> Form {
    Form {
        year,
        number,
        days,
        minutes,
    }
}

/// Leap years and others, the first and the last month of all, and each length of intervals.
#[test]
fn reads_each_kind_of_month(rt: HostRuntime) -> Result<(), Fail> {
    let alloc = rt.alloc();
    check_months(alloc, form(2024, 2, 29, 60), "2024-2 60 696 24=")?;
    check_months(alloc, form(1900, 2, 28, 30), "1900-2 30 1344 48=")?;
    check_months(alloc, form(2000, 2, 29, 30), "2000-2 30 1392 48=")?;
    check_months(alloc, form(2025, 4, 30, 30), "2025-4 30 1440 48=")?;
    check_months(alloc, form(1, 1, 31, 60), "1-1 60 744 24=")?;
    check_months(alloc, form(9999, 12, 31, 15), "9999-12 15 2976 96=")
}

/// A month with a day more or less than it has, and years and months that there aren't.
#[test]
fn refuses_what_is_no_month(rt: HostRuntime) -> Result<(), Fail> {
    let alloc = rt.alloc();
    check_months(alloc, form(2024, 2, 28, 60), "Count 672 696=")?;
    check_months(alloc, form(2023, 2, 29, 60), "Count 696 672=")?;
    check_months(alloc, form(2100, 2, 29, 15), "Count 2784 2688=")?;
    check_months(alloc, form(0, 1, 31, 60), "Start 0=")?;
    check_months(alloc, form(2025, 13, 31, 60), "Start 0=")
}
