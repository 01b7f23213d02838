//! Lists of words, and what they ask for.

use d_words::{Request, Task, names_one_request, names_one_show, read_show, read_words};
use std::alloc::Global;
use std::test::Fail;

/// What a request asks for, in one line.
fn shown(alloc: Global, request: &Request<'_>) -> Result<String, Fail> {
    let (records, label, readings) = (request.records, request.label, request.readings);
    let rule = if request.net_billing { "net" } else { "own" };
    let peak = request.prior_peak.value();
    let front = format!(in alloc; "{records} {label} {readings} {rule} {peak}")?;
    let task = match request.task {
        Task::Plan { battery, budget } => {
            let budget = budget.map_or(0, |budget| budget.boxes());
            format!(in alloc; " plan {battery} {budget}")?
        }
        Task::MeteredBill => String::from_str(alloc, "")?,
        Task::ScheduleBill { battery, schedule } => format!(in alloc; " {battery} {schedule}")?,
    };
    Ok(format!(in alloc; "{front}{task}")?)
}

/// What these words behind a command ask for, with the words up to the readings file between them.
fn asked(alloc: Global, line: &str) -> Result<String, Fail> {
    let mut words = Vec::new(alloc);
    for (place, word) in line.split(' ').enumerate() {
        words.push(String::from_str(alloc, word)?)?;
        if place == 0 {
            for word in "--records a --label l --readings r".split(' ') {
                words.push(String::from_str(alloc, word)?)?;
            }
        }
    }
    match read_words(words.as_slice()) {
        Some(request) => shown(alloc, &request),
        None => Ok(String::from_str(alloc, "refused")?),
    }
}

/// Both commands with each of their options, and words that are no request. A case is what is shown, an equals sign, the command, and
/// the words behind the readings file. A plan without a budget shows 0 for it.
#[test]
fn reads_each_form_of_words(rt: HostRuntime) -> Result<(), Fail> {
    let alloc = rt.alloc();
    let cases = "a l r own 0 plan b 0=plan --battery b\
        |a l r net 0 plan b 0=plan --battery b --rule net-billing\
        |a l r own 10000000000000 plan b 0=plan --battery b --prior-peak 10000000000000\
        |a l r net 7 plan b 0=plan --battery b --rule net-billing --prior-peak 007\
        |a l r own 0 plan b 1=plan --battery b --budget 1\
        |a l r own 0 plan b 65535=plan --battery b --budget 65535\
        |a l r net 0 plan b 7=plan --battery b --rule net-billing --budget 007\
        |a l r own 5 plan b 255=plan --battery b --prior-peak 5 --budget 255\
        |a l r net 5 plan b 9=plan --battery b --rule net-billing --prior-peak 5 --budget 00000000000009\
        |refused=plan --battery b --budget 0\
        |refused=plan --battery b --budget 65536\
        |refused=plan --battery b --budget 000000000000001\
        |refused=plan --battery b --budget\
        |refused=plan --battery b --budget +1\
        |refused=plan --battery b --budget -1\
        |refused=plan --battery b --budget 1 --budget 1\
        |refused=plan --battery b --budget 1 --prior-peak 1\
        |refused=plan --budget 1 --battery b\
        |refused=bill --budget 1\
        |refused=bill --battery b --schedule s --budget 1\
        |refused=plan --rule net-billing --battery b\
        |refused=plan --battery b --prior-peak 1 --rule net-billing\
        |refused=plan --battery b --schedule s\
        |a l r own 0=bill\
        |a l r net 0=bill --rule net-billing\
        |a l r own 5=bill --prior-peak 5\
        |a l r net 10000=bill --rule net-billing --prior-peak 00000000010000\
        |a l r own 0 b s=bill --battery b --schedule s\
        |a l r net 0 b s=bill --rule net-billing --battery b --schedule s\
        |a l r net 10000 b s=bill --rule net-billing --prior-peak 10000 --battery b --schedule s\
        |refused=bill --battery b --schedule s --rule net-billing\
        |refused=bill --battery b --schedule s --prior-peak 1\
        |refused=bill --battery b\
        |refused=bill --battery -b --schedule s\
        |refused=bill --rule net-metering\
        |refused=bill --rule net-billing --rule net-billing\
        |refused=bill --prior-peak\
        |refused=bill --prior-peak +1\
        |refused=bill --prior-peak -1\
        |refused=bill --prior-peak 1.0\
        |refused=bill --prior-peak 10000000000001\
        |refused=bill --prior-peak 000000000000001\
        |refused=show";
    for case in cases.split('|') {
        let Some((wanted, line)) = case.split_once('=') else {
            return Err(Fail::new("a case without words"));
        };
        let found = asked(alloc, line)?;
        assert!(rt; found.as_str() == wanted, "of {line}: {found}");
    }
    Ok(())
}

/// What these words ask to see.
fn seen(alloc: Global, line: &str) -> Result<String, Fail> {
    let mut words = Vec::new(alloc);
    for word in line.split(' ') {
        words.push(String::from_str(alloc, word)?)?;
    }
    match read_show(words.as_slice()) {
        Some(show) => {
            let (records, label) = (show.records, show.label);
            let rule = if show.net_billing { "net" } else { "own" };
            Ok(format!(in alloc; "{records} {label} {rule}")?)
        }
        None => Ok(String::from_str(alloc, "refused")?),
    }
}

/// Words that ask to see a tariff, and words that don't. A case is what is shown, an equals sign and the words.
#[test]
fn reads_what_is_to_be_seen(rt: HostRuntime) -> Result<(), Fail> {
    let alloc = rt.alloc();
    let cases = "a l own=show --records a --label l\
        |a l net=show --records a --label l --rule net-billing\
        |refused=plan --records a --label l\
        |refused=show --label l --records a\
        |refused=show --records a --label\
        |refused=show --records a\
        |refused=show --records -a --label l\
        |refused=show --records  --label l\
        |refused=show --records a --label -l\
        |refused=show --records a --label \u{e9}\
        |refused=show --records a --label l --rule\
        |refused=show --records a --label l --rule net-metering\
        |refused=show --rule net-billing --records a --label l\
        |refused=show --records a --label l --rule net-billing --rule net-billing\
        |refused=show --records a --label l --readings r\
        |refused=show\
        |refused=";
    for case in cases.split('|') {
        let Some((wanted, line)) = case.split_once('=') else {
            return Err(Fail::new("a case without words"));
        };
        let found = seen(alloc, line)?;
        assert!(rt; found.as_str() == wanted, "of {line}: {found}");
    }
    Ok(())
}

/// The laws are functions that do nothing.
#[test]
fn states_its_laws(_rt: HostRuntime) {
    names_one_request();
    names_one_show();
}
