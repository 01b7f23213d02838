//! Many cases in one text: what stands in a file, and what a run is to answer.

use crate::month::{month, readings};
use d_desk::MemoryDesk;
use d_run::run;
use std::alloc::Global;
use std::str;
use std::test::Fail;

pub const RECORD: &str = "label,energyratestructure/period0/tier0rate\nL,0.10\n";

pub const IDLE: &str = "kind,name,change,grid_wh,low,high\nset,capacity,0,,,\nmode,idle,0,0,,\n";

pub const PLAN: &str = "plan --records tariff --label L --readings readings --battery battery";

pub const BILL: &str = "bill --records tariff --label L --readings readings";

/// The words of a line, cut at its blanks.
pub fn words(alloc: Global, line: &str) -> Result<Vec<String>, Fail> {
    let mut words = Vec::new(alloc);
    for word in line.split(' ') {
        words.push(String::from_str(alloc, word)?)?;
    }
    Ok(words)
}

/// A desk with a record of one price, readings of 1000 Wh an hour and a battery that idles.
pub fn example(alloc: Global) -> Result<MemoryDesk, Fail> {
    let mut desk = MemoryDesk::new(alloc, 100);
    desk.put_file("tariff", RECORD.as_bytes())?;
    desk.put_file("readings", readings(alloc)?.as_str().as_bytes())?;
    desk.put_file("battery", IDLE.as_bytes())?;
    Ok(desk)
}

/// What a run of these words answers: its status, and the line of the bill where it prints a bill, else the last line.
pub fn answer(alloc: Global, line: &str, desk: &mut MemoryDesk) -> Result<String, Fail> {
    let words = words(alloc, line)?;
    let status = run(alloc, words.as_slice(), desk).number();
    let printed = str::from_utf8(desk.printed_bytes())?;
    let last = printed.lines().last().unwrap_or("");
    let told = if line.starts_with("bill ") {
        printed
            .lines()
            .find(|shown| shown.starts_with("bill "))
            .unwrap_or(last)
    } else {
        last
    };
    Ok(format!(in alloc; "{status} {told}")?)
}

/// Runs the words once a case, with the case's file on the desk. The cases are cut by `|`, and each is the file's text behind the
/// head, a `>`, and the answer.
pub fn check_files(
    alloc: Global,
    line: &str,
    file: &str,
    head: &str,
    cases: &str,
) -> Result<(), Fail> {
    for case in cases.split('|') {
        let Some((rest, wanted)) = case.split_once('>') else {
            return Err(Fail::new("a case without an answer"));
        };
        let text = format!(in alloc; "{head}{rest}")?;
        let mut desk = example(alloc)?;
        desk.put_file(file, text.as_str().as_bytes())?;
        let found = answer(alloc, line, &mut desk)?;
        if found.as_str() != wanted {
            return Err(Fail::new(format!(in alloc; "of {rest:?}: {found}")?));
        }
    }
    Ok(())
}

/// Runs the words once a case, with a month on the desk in which one line is the case's. The cases are cut by `|`, and each is the
/// line's place, a blank, the line, a `>`, and the answer.
pub fn check_months(
    alloc: Global,
    line: &str,
    file: &str,
    header: &str,
    value: &str,
    cases: &str,
) -> Result<(), Fail> {
    for case in cases.split('|') {
        let Some((front, wanted)) = case.split_once('>') else {
            return Err(Fail::new("a case without an answer"));
        };
        let Some((place, row)) = front.split_once(' ') else {
            return Err(Fail::new("a case without a place"));
        };
        let text = month(alloc, header, value, place.parse::<usize>()?, row)?;
        let mut desk = example(alloc)?;
        desk.put_file("battery", SHIFTS.as_bytes())?;
        desk.put_file(file, text.as_str().as_bytes())?;
        let found = answer(alloc, line, &mut desk)?;
        if found.as_str() != wanted {
            return Err(Fail::new(format!(in alloc; "of {front:?}: {found}")?));
        }
    }
    Ok(())
}

/// A battery that charges and discharges by one level an hour.
pub const SHIFTS: &str =
    "kind,name,change,grid_wh,low,high\nset,capacity,4,,,\nset,start,0,,,\nset,end,0,,,\nmode,idle,0,0,,\nmode,charge,1,1000,,\nmode,discharge,-1,-1000,,\n";
