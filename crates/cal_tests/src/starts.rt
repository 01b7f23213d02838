//! The starts of intervals: what is read of a cell, and how they are written.

use d_cal::{Month, Start, read_start, start_text};
use std::process::Abort;

#[test]
fn reads_the_forms_of_a_start(rt: HostRuntime) {
    let rows: [(&[u8], Start); 6] = [
        (b"2024-02-29T23:45", start(2024, 2, 29, 1425)),
        (b"2024-02-29 23:45", start(2024, 2, 29, 1425)),
        (b"2024-02-29T23:45:00", start(2024, 2, 29, 1425)),
        (b"2024-02-29 00:00:00", start(2024, 2, 29, 0)),
        (b"0001-01-01T00:00", start(1, 1, 1, 0)),
        (b"9999-12-31T23:59", start(9999, 12, 31, 1439)),
    ];
    for (cell, wanted) in rows {
        assert!(rt; read_start(cell) == Some(wanted));
    }
}

#[test]
fn refuses_what_is_no_start(rt: HostRuntime) {
    let cells =
        "2025-02-29T00:00|2100-02-29T00:00|2025-04-31T00:00|2025-02-00T00:00|2025-00-01T00:00|2025-13-01T00:00|0000-01-01T00:00\
         |2025-02-01T24:00|2025-02-01T00:60|2025-02-01T24:00:00|2025-2-01T00:00|2025-02-1T00:00|2025-02-01T0:00|2025-02-01T00:0\
         |2025-02-01T00:00Z|2025-02-01T00:00:01|2025-02-01T00:00:|2025-02-01T00:00:00.0|2025-02-01T00:00 |2025-02-01  00:00\
         |2025-02-01t00:00|2025-02-01_00:00|2025-02-01|2025-02-01T00|20250201T0000|2025/02/01T00:00|+025-02-01T00:00\
         |-025-02-01T00:00|12025-02-01T00:00| 2025-02-01T00:00|2025-02-01T00.00|";
    for cell in cells.split('|') {
        assert!(rt; read_start(cell.as_bytes()).is_none(), "of {cell:?}");
    }
}

#[test]
fn writes_the_starts_of_a_month(rt: HostRuntime) {
    let rows: [(Month, u8, u16, &[u8]); 6] = [
        (month(&rt, 2024, 2), 60, 0, b"2024-02-01T00:00"),
        (month(&rt, 2024, 2), 60, 695, b"2024-02-29T23:00"),
        (month(&rt, 2024, 2), 30, 1367, b"2024-02-29T11:30"),
        (month(&rt, 2024, 2), 15, 2783, b"2024-02-29T23:45"),
        (month(&rt, 1, 1), 30, 3, b"0001-01-01T01:30"),
        (month(&rt, 9999, 12), 15, 2975, b"9999-12-31T23:45"),
    ];
    for (month, minutes, index, wanted) in rows {
        let index = index as u32;
        assert!(rt; index * (minutes as u32) < month.days() as u32 * 1440);
        assert!(rt; start_text(month, minutes, index).as_slice() == wanted);
    }
}

/// A start of these numbers.
fn start(year: i16, month: u8, day: u8, minute: u16) -> Start {
    Start {
        year,
        month,
        day,
        minute,
    }
}

/// A month that is there.
fn month(rt: &impl Abort, year: i16, number: u8) -> Month {
    Month::new(year, number).expect(rt, "a month")
}
