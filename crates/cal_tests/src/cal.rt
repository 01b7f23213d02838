//! Months, weekends and schedules against calendars made by others.

use d_cal::{Month, Schedule};
use std::process::Abort;

#[test]
fn months_have_their_days(rt: HostRuntime) {
    let plain = [31, 28, 31, 30, 31, 30, 31, 31, 30, 31, 30, 31];
    let leap = [31, 29, 31, 30, 31, 30, 31, 31, 30, 31, 30, 31];
    let years = [
        (1, plain),
        (1900, plain),
        (2000, leap),
        (2024, leap),
        (2100, plain),
        (9999, plain),
    ];
    for (year, days) in years {
        for number in 1..13u8 {
            let month = month(&rt, year, number);
            assert_eq!(rt; (month.year(), month.number()), (year, number));
            assert_eq!(rt;
                month.days(),
                days[(number - 1) as usize],
                "in {year}-{number}"
            );
        }
    }
}

#[test]
fn other_months_are_none(rt: HostRuntime) {
    for (year, number) in [(0, 1), (-1, 1), (10_000, 1), (2024, 0), (2024, 13)] {
        assert!(rt; Month::new(year, number).is_none(), "{year}-{number}");
    }
}

#[test]
fn weekends_are_saturdays_and_sundays(rt: HostRuntime) {
    let days =
        "yes 1-1-6|yes 1582-10-16|yes 1666-9-12|yes 1755-11-1|yes 1815-6-18|yes 1900-3-3|yes 1969-7-20|yes 2000-1-1|yes 2024-3-2|\
         yes 2024-3-3|yes 2099-12-26|yes 2400-2-27|yes 9999-12-26|no 1-1-1|no 1582-10-15|no 1776-7-4|no 1900-1-1|no 1963-11-22|\
         no 1999-12-31|no 2000-2-29|no 2024-2-29|no 2024-3-1|no 2024-3-4|no 2100-3-1|no 9999-12-31";
    for case in days.split('|') {
        let (answer, date) = case.split_once(' ').expect(&rt, "an answer and a date");
        let (year, rest) = date.split_once('-').expect(&rt, "a year");
        let (number, day) = rest.split_once('-').expect(&rt, "a month and a day");
        let year = year.parse::<i16>().expect(&rt, "a year");
        let number = number.parse::<u8>().expect(&rt, "a month");
        let day = day.parse::<u8>().expect(&rt, "a day");
        assert_eq!(rt;
            is_weekend(&rt, year, number, day),
            answer == "yes",
            "at {case}"
        );
    }
}

#[test]
fn periods_end_at_35(rt: HostRuntime) {
    let low = [[0; 24]; 12];
    let mut high = [[0; 24]; 12];
    high[11][23] = 35;
    let schedule = Schedule::new(low, high).expect(&rt, "a schedule");
    let month = month(&rt, 2024, 12);
    assert!(rt; month.days() >= 7);
    assert_eq!(rt;
        (
            schedule.period_at(month, 6, 23),
            schedule.period_at(month, 7, 23)
        ),
        (0, 35)
    );
    assert_eq!(rt;
        (schedule.weekday()[11][23], schedule.weekend()[11][23]),
        (0, 35)
    );
    high[11][23] = 36;
    assert!(rt; Schedule::new(low, high).is_none());
}

/// The month of a number that is there.
fn month(rt: &impl Abort, year: i16, number: u8) -> Month {
    Month::new(year, number).expect(rt, "a month")
}

/// Whether a day that is there is on a weekend.
fn is_weekend(rt: &impl Abort, year: i16, number: u8, day: u8) -> bool {
    let month = month(rt, year, number);
    assert!(rt; day >= 1 && day <= month.days());
    month.weekend(day)
}
