//! Records in short texts, and what reading one answers.

use d_table::read_table;
use d_tariff::Tariff;
use d_urdb::{RecordFault, Refused, RuleChoice, read_record};
use std::alloc::Global;
use std::test::Fail;

/// How the names of the tiers of energy period 0 begin, which `~` stands for.
const TIER: &str = "energyratestructure/period0/tier";

/// A day in period 0, which `^` stands for.
const DAY: &str = "[0,0,0,0,0,0,0,0,0,0,0,0,0,0,0,0,0,0,0,0,0,0,0,0]";

/// A text with its short signs written out.
pub fn written_out(alloc: Global, text: &str) -> Result<String, Fail> {
    let mut written = String::new(alloc);
    for sign in text.chars() {
        match sign {
            '~' => written.push_str(TIER)?,
            '^' => written.push_str(DAY)?,
            _ => written.push(sign)?,
        }
    }
    Ok(written)
}

/// What reading the record `L` answers: the highest price of energy period 0 in units of 10^-18 USD, or the refusal's number, column
/// (`-` where it names none) and detail.
pub fn answer(alloc: Global, file: &str, rule: RuleChoice) -> Result<String, Fail> {
    let Ok(table) = read_table(alloc, file.as_bytes()) else {
        return Err(Fail::new("a file that is no table"));
    };
    match read_record(alloc, &table, b"L", rule) {
        Ok(tariff) => price_text(alloc, &tariff),
        Err(RecordFault::Refused(refused)) => refusal_text(alloc, refused, table.columns()),
        Err(RecordFault::Memory) => Err(Fail::new("no memory")),
    }
}

fn price_text(alloc: Global, tariff: &Tariff) -> Result<String, Fail> {
    match tariff.period(0) {
        Some(period) => {
            let price = period.tiers.highest_price().units();
            Ok(format!(in alloc; "{price}")?)
        }
        None => Err(Fail::new("a tariff without period 0")),
    }
}

fn refusal_text(alloc: Global, refused: Refused, columns: usize) -> Result<String, Fail> {
    let Refused {
        number,
        column,
        detail,
    } = refused;
    if column == columns {
        return Ok(format!(in alloc; "{number} - {detail}")?);
    }
    Ok(format!(in alloc; "{number} {column} {detail}")?)
}

/// Reads the record of each case. The cases are cut by `|`, and each is the answer, a `=`, and the file.
pub fn check_records(alloc: Global, rule: RuleChoice, cases: &str) -> Result<(), Fail> {
    for case in cases.split('|') {
        let Some((wanted, text)) = case.split_once('=') else {
            return Err(Fail::new("a case without an answer"));
        };
        let file = written_out(alloc, text)?;
        let found = answer(alloc, file.as_str(), rule)?;
        if found.as_str() != wanted {
            return Err(Fail::new(format!(in alloc; "of {text:?}: {found}")?));
        }
    }
    Ok(())
}
