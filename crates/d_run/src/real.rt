//! The desk of real files and of standard output.

ghost use Rattle.std.specs.Prelude.{◌≡◌, ◌≤◌, length, IfOk};
ghost use Rattle.d_desk.specs.Cause.{Rose};

use d_desk::{Desk, DeskFault};
use std::io::{ErrorKind, Read, Write};
use std::rt::Files;
use std::{fs, io};

/// Files and standard output of the system. It tells nothing of what they hold: what a real file gives or keeps is trusted.
///
/// It counts each error but want of memory, and each call that took nothing of a part that wasn't empty. A call that a signal
/// interrupted is made again.
#[derive(Drop)]
pub struct RealDesk<R: Files + Print + Drop> {
    rt: R,
    input: Option<R::File>,
    output: Option<R::File>,
    taken: u64,
    faults: u64,
}

impl<R: Files + Print + Drop> RealDesk<R> {
    /// A desk with nothing open and no fault.
    pub fn new(rt: R) -> Self {
        RealDesk {
            rt,
            input: None,
            output: None,
            taken: 0,
            faults: 0,
        }
    }
}

impl<R: Files + Print + Drop> Desk for RealDesk<R> {
    ghost use Rattle.std.specs.Prelude.{[], None, is_some};

    ghost tells = { ⊥ };

    ghost scene = { λ _. record { files = λ _. None; left = []; saved = []; printed = []; opened = [] } };

    ghost input_open = { λ d. is_some d.input };

    ghost output_open = { λ d. is_some d.output };

    ghost taken = { λ d. d.taken };

    ghost faults = { λ d. d.faults };

    fn open_in(&mut self, name: &str) -> Result<(), DeskFault> {
        self.input = None;
        self.taken = 0;
        match fs::open(&self.rt, name) {
            Ok(file) => {
                self.input = Some(file);
                Ok(())
            }
            Err(error) => Err(counted(&mut self.faults, &error)),
        }
    }

    fn read(&mut self, room: &mut [u8]) -> Result<usize, DeskFault> {
        match read_again(self.input.as_mut().unwrap(), room) {
            Ok(count) => {
                self.taken = self.taken.saturating_add(count as u64);
                Ok(count)
            }
            Err(error) => Err(counted(&mut self.faults, &error)),
        }
    }

    fn open_out(&mut self, name: &str) -> Result<(), DeskFault> {
        self.output = None;
        match fs::create(&self.rt, name) {
            Ok(file) => {
                self.output = Some(file);
                Ok(())
            }
            Err(error) => Err(counted(&mut self.faults, &error)),
        }
    }

    fn save(&mut self, part: &[u8]) -> Result<usize, DeskFault> {
        match write_again(self.output.as_mut().unwrap(), part) {
            Ok(0) if !part.is_empty() => Err(one_more(&mut self.faults)),
            Ok(count) => Ok(count),
            Err(error) => Err(counted(&mut self.faults, &error)),
        }
    }

    fn close_out(&mut self) -> Result<(), DeskFault> {
        self.output = None;
        Ok(())
    }

    fn print(&mut self, part: &[u8]) -> Result<usize, DeskFault> {
        match write_again(&mut io::writer(&self.rt), part) {
            Ok(0) if !part.is_empty() => Err(one_more(&mut self.faults)),
            Ok(count) => Ok(count),
            Err(error) => Err(counted(&mut self.faults, &error)),
        }
    }
}

/// Reads into the room, once more after each call that a signal interrupted.
fn read_again<F: Read>(file: &mut F, room: &mut [u8]) -> io::Result<usize>
    ensures { IfOk result (λ count. count ≤ length room.new) }
{
    for _ in 0..u64::MAX {
        match file.read(room) {
            Ok(count) => return Ok(count),
            Err(error) => {
                if error.kind() != ErrorKind::Interrupted {
                    return Err(error);
                }
            }
        }
    }
    Err(io::Error::from(ErrorKind::Interrupted))
}

/// Writes a front of the part, once more after each call that a signal interrupted.
fn write_again<W: Write>(writer: &mut W, part: &[u8]) -> io::Result<usize>
    ensures { IfOk result (λ count. count ≤ length part.now) }
{
    for _ in 0..u64::MAX {
        match writer.write(part) {
            Ok(count) => return Ok(count),
            Err(error) => {
                if error.kind() != ErrorKind::Interrupted {
                    return Err(error);
                }
            }
        }
    }
    Err(io::Error::from(ErrorKind::Interrupted))
}

/// What the desk answers to an error of the system: want of memory isn't counted, and every other error is.
fn counted(faults: &mut u64, error: &io::Error) -> DeskFault
    ensures later { faults.old ≤ faults.new }
    ensures failed { result ≡ DeskFault.Failed → Rose faults.old faults.new }
{
    if error.kind() == ErrorKind::OutOfMemory {
        DeskFault::Memory
    } else {
        one_more(faults)
    }
}

/// One more fault, and the answer that says so.
fn one_more(faults: &mut u64) -> DeskFault
    ensures rose { Rose faults.old faults.new }
    ensures later { faults.old ≤ faults.new }
{
    *faults = faults.saturating_add(1);
    DeskFault::Failed
}
