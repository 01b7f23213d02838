//! A runtime over real files, in which a signal interrupts every other call and what is printed is kept.

use std::alloc::{Allocator, Global};
use std::cell::{Cell, RefCell};
use std::fmt::Display;
use std::fs::{File, Metadata, OpenFile, OpenOptions};
use std::io::{self, ErrorKind, Print, Read, Seek, SeekFrom, Write};
use std::rt::Files;

// How many bytes one call prints at most.
const ROOM: usize = 100;

/// The system's files, and a text in memory in place of standard output.
#[derive(Drop)]
pub struct Signals {
    system: HostRuntime,
    printed: RefCell<Vec<u8>>,
    interrupts: Cell<bool>,
}

impl Signals {
    /// Nothing is printed yet, and the first call is interrupted.
    pub fn new(alloc: Global, system: HostRuntime) -> Signals {
        Signals {
            system,
            printed: RefCell::new(Vec::new(alloc)),
            interrupts: Cell::new(true),
        }
    }

    /// All that was printed.
    pub fn into_printed(self) -> Vec<u8> {
        let Signals { printed, .. } = self;
        printed.into_inner()
    }
}

impl Print for Signals {
    fn print<D: Display + Drop>(&self, _value: D) -> io::Result<()> {
        Err(unsupported())
    }

    fn println<D: Display + Drop>(&self, _value: D) -> io::Result<()> {
        Err(unsupported())
    }

    fn write_all(&self, _bytes: &[u8]) -> io::Result<()> {
        Err(unsupported())
    }

    fn write_some(&self, bytes: &[u8]) -> io::Result<usize> {
        if self.interrupts.replace(!self.interrupts.get()) {
            return Err(interrupted());
        }
        let count = bytes.len().min(ROOM);
        match self.printed.try_borrow_mut() {
            Ok(mut printed) => printed.extend_from_slice(&bytes[..count])?,
            Err(_) => return Err(unsupported()),
        }
        Ok(count)
    }
}

impl Files for Signals {
    type File = InterruptedFile;

    type Dir = InterruptedFile;

    fn open_file(&self, how: &OpenOptions, path: &str) -> io::Result<InterruptedFile> {
        let file = self.system.open_file(how, path)?;
        Ok(InterruptedFile {
            file,
            interrupts: true,
        })
    }

    fn open_dir(&self, _path: &str) -> io::Result<InterruptedFile> {
        Err(unsupported())
    }

    fn metadata(&self, _path: &str) -> io::Result<Metadata> {
        Err(unsupported())
    }

    fn symlink_metadata(&self, _path: &str) -> io::Result<Metadata> {
        Err(unsupported())
    }

    fn copy(&self, _from: &str, _to: &str) -> io::Result<u64> {
        Err(unsupported())
    }

    fn rename(&self, _from: &str, _to: &str) -> io::Result<()> {
        Err(unsupported())
    }

    fn remove_file(&self, _path: &str) -> io::Result<()> {
        Err(unsupported())
    }

    fn create_dir(&self, _path: &str) -> io::Result<()> {
        Err(unsupported())
    }

    fn remove_dir(&self, _path: &str) -> io::Result<()> {
        Err(unsupported())
    }

    fn remove_dir_all<B: Allocator>(&self, _alloc: B, _path: &str) -> io::Result<()> {
        Err(unsupported())
    }
}

/// A file whose every other call is interrupted, the first one too.
#[derive(Drop)]
pub struct InterruptedFile {
    file: File,
    interrupts: bool,
}

impl InterruptedFile {
    /// Whether this call is interrupted.
    fn is_interrupted(&mut self) -> bool {
        self.interrupts = !self.interrupts;
        !self.interrupts
    }
}

impl Read for InterruptedFile {
    fn read(&mut self, buf: &mut [u8]) -> io::Result<usize> {
        if self.is_interrupted() {
            return Err(interrupted());
        }
        self.file.read(buf)
    }
}

impl Write for InterruptedFile {
    fn write(&mut self, buf: &[u8]) -> io::Result<usize> {
        if self.is_interrupted() {
            return Err(interrupted());
        }
        self.file.write(buf)
    }

    fn flush(&mut self) -> io::Result<()> {
        Err(unsupported())
    }
}

impl Seek for InterruptedFile {
    fn seek(&mut self, _pos: SeekFrom) -> io::Result<u64> {
        Err(unsupported())
    }
}

impl OpenFile for InterruptedFile {
    fn metadata(&self) -> io::Result<Metadata> {
        Err(unsupported())
    }

    fn set_len(&self, _size: u64) -> io::Result<()> {
        Err(unsupported())
    }

    fn sync_all(&self) -> io::Result<()> {
        Err(unsupported())
    }

    fn sync_data(&self) -> io::Result<()> {
        Err(unsupported())
    }
}

/// What a call answers that a signal cut off.
fn interrupted() -> io::Error {
    io::Error::from(ErrorKind::Interrupted)
}

/// What a call answers that a desk never makes.
fn unsupported() -> io::Error {
    io::Error::from(ErrorKind::Unsupported)
}
