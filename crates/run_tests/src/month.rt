//! Files of February 2025, with one line an hour.

use std::alloc::Global;
use std::test::Fail;

/// A header and a line for each hour, of its start and this value. The lines from this place on, 0 for the header, are others.
pub fn month(
    alloc: Global,
    header: &str,
    value: &str,
    place: usize,
    others: &str,
) -> Result<String, Fail> {
    let end = place.saturating_add(others.split('\n').count());
    let mut text = String::new(alloc);
    text.push_str(if place == 0 { others } else { header })?;
    for hour in 0..672usize {
        let line = hour + 1;
        text.push_str("\n")?;
        if line == place {
            text.push_str(others)?;
        } else if line < place || line >= end {
            let day = hour / 24 + 1;
            let clock = hour % 24;
            write!(&mut text, "2025-02-{day:02}T{clock:02}:00,{value}")?;
        }
    }
    Ok(text)
}

/// Readings of 1000 Wh in each hour.
pub fn readings(alloc: Global) -> Result<String, Fail> {
    month(alloc, "start,net_wh", "1000", 673, "")
}

/// Readings of 1000 Wh in each interval, which are so many minutes long.
pub fn readings_every(alloc: Global, minutes: u8) -> Result<String, Fail> {
    let mut text = String::from_str(alloc, "start,net_wh\n")?;
    for hour in 0..672u16 {
        put_hour(&mut text, hour, minutes)?;
    }
    Ok(text)
}

/// Adds the readings of an hour of the month.
fn put_hour(text: &mut String, hour: u16, minutes: u8) -> Result<(), Fail> {
    let day = hour / 24 + 1;
    let clock = hour % 24;
    for part in 0..4u16 {
        let minute = part * minutes as u16;
        if minute < 60 {
            write!(text, "2025-02-{day:02}T{clock:02}:{minute:02},1000\n")?;
        }
    }
    Ok(())
}
