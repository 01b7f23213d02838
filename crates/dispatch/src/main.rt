//! The dispatcher: plans a building's battery for one month and prints the plan with its exact bill, or prints a bill alone, or a record's tariff.
#![tactic(auto)]

use d_run::{RealDesk, Status, run};
use std::io::ErrorKind;
use std::process::ExitCode;
use std::rt::Env;
use std::{env, io};

// The status where the words can't be had from the system, as where one isn't UTF-8.
const NO_WORDS: u8 = 10;

fn main(rt: HostRuntime) -> ExitCode {
    let alloc = rt.alloc();
    let words = match words_of(&rt) {
        Ok(words) => words,
        Err(error) if error.kind() == ErrorKind::OutOfMemory => {
            return ExitCode::from(Status::Memory.number());
        }
        Err(_) => return ExitCode::from(NO_WORDS),
    };
    let mut desk = RealDesk::new(rt);
    ExitCode::from(run(alloc, words.as_slice(), &mut desk).number())
}

/// The program's words, without its name.
fn words_of<R: Env + AllocGlobal>(rt: &R) -> io::Result<Vec<String>> {
    let mut words = Vec::new(rt.alloc());
    for word in env::args(rt)?.skip(1) {
        words.push(word)?;
    }
    Ok(words)
}
