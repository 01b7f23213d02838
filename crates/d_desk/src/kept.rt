ghost use Rattle.std.specs.Prelude.{◌≡◌, ◌≤◌, ◌<◌, true, Some, ◌∷◌, ◌++◌, length, [], IfOk, OnOk, OnErr, IsOkUnless, bytes_eq, string_bytes};
ghost use Rattle.std.specs.Map.{update};
ghost use Rattle.d_desk.specs.Calls.{taken_of};
ghost use Rattle.d_desk.specs.Scene.{bytes_in, opening, output_name};
ghost use Rattle.d_desk.specs.Stored.{files_of, openings_of};

use crate::fault::DeskFault;
use crate::opened::{Direction, Opened};
use std::alloc::{AllocError, Global};
use std::collections::BTreeMap;

/// What a desk in memory keeps: its files, its open input and output, what was printed and what was
/// opened.
#[derive(Drop)]
pub struct Kept {
    alloc: Global,
    files: BTreeMap<String, Vec<u8>>,
    // The open input's bytes, of which the first `at` are read.
    input: Vec<u8>,
    at: usize,
    /// Whether an input is open.
    pub reading: bool,
    /// How many bytes the open input has given.
    pub taken: u64,
    // The open output's name, and what it has taken.
    output: String,
    saved: Vec<u8>,
    /// Whether an output is open.
    pub writing: bool,
    printed: Vec<u8>,
    openings: Vec<Opened>,
    // The most bytes that one call reads, saves or prints.
    greatest: usize,
    ghost within: { at ≤ length input.items },
    ghost moves: { 1 ≤ greatest },
    ghost named: { writing ≡ true → string_bytes output ≡ output_name (openings_of openings.items) },
}

impl Kept {
    ghost use Rattle.std.specs.Prelude.{◌≡◌, ◌+◌, ◌-◌, ◌^◌, ◌<◌, ◌≤◌, Ok, true, false, length, min, is_ok, is_some, IsTrue, IsOkUnless, IfOk, OnOk, OnErr, option_copied, option_map};
    ghost use Rattle.d_desk.specs.Calls.{OpensIn, Reads, OpensOut, Saves, ClosesOut, Prints};
    ghost use Rattle.d_desk.specs.KeptState.{kept_scene};
    ghost use Rattle.d_desk.specs.Scene.{opening};
    ghost use Rattle.d_desk.specs.State.{blank_scene, with_file};
    ghost use Rattle.d_desk.specs.Stored.{Lists, openings_of};

    /// No files, and nothing open.
    pub fn new(alloc: Global, greatest: usize) -> Kept
        requires { 1 ≤ greatest }
        ensures scene { kept_scene result ≡ blank_scene }
        ensures input { result.reading ≡ false }
        ensures output { result.writing ≡ false }
        ensures taken { result.taken ≡ 0 }
    {
        Kept {
            alloc,
            files: BTreeMap::new(alloc),
            input: Vec::new(alloc),
            at: 0,
            reading: false,
            taken: 0,
            output: String::new(alloc),
            saved: Vec::new(alloc),
            writing: false,
            printed: Vec::new(alloc),
            openings: Vec::new(alloc),
            greatest,
        }
    }

    /// The bytes of the file of that name, if there is one.
    pub fn file_bytes(&self, name: &str) -> Option<&[u8]>
        ensures { option_map (λ bytes. bytes.now) result ≡ (kept_scene self.now).files name.now }
    {
        match self.files.get(name) {
            Some(bytes) => Some(bytes.as_slice()),
            None => None,
        }
    }

    /// What the last output has taken.
    pub fn saved_bytes(&self) -> &[u8]
        ensures { result.now ≡ (kept_scene self.now).saved }
    {
        self.saved.as_slice()
    }

    /// All that was printed.
    pub fn printed_bytes(&self) -> &[u8]
        ensures { result.now ≡ (kept_scene self.now).printed }
    {
        self.printed.as_slice()
    }

    /// The openings so far, in order.
    pub fn openings(&self) -> &[Opened]
        ensures { openings_of result.now ≡ (kept_scene self.now).opened }
    {
        self.openings.as_slice()
    }

    /// Sets the bytes of the file of that name. An open input keeps the bytes that it was opened
    /// with.
    pub fn put_file(&mut self, name: &str, bytes: &[u8]) -> Result<(), DeskFault>
        ensures ok { OnOk result (kept_scene self.new ≡ with_file name.now bytes.now (kept_scene self.old)) }
        ensures err { OnErr result (kept_scene self.new ≡ kept_scene self.old) }
        ensures memory { IsOkUnless result DeskFault.Memory }
        ensures input { self.new.reading ≡ self.old.reading }
        ensures output { self.new.writing ≡ self.old.writing }
        ensures taken { self.new.taken ≡ self.old.taken }
    {
        put(self.alloc, &mut self.files, name, bytes)?;
        Ok(())
    }

    /// Lists an opening for reading that opens nothing. An open input is ended.
    pub fn refuse_in(&mut self, name: &str) -> Result<(), DeskFault>
        ensures told { Lists (opening Direction.In name.now) (kept_scene self.old) (kept_scene self.new) result }
        ensures memory { IsOkUnless result DeskFault.Memory }
        ensures input { self.new.reading ≡ false }
        ensures output { self.new.writing ≡ self.old.writing }
        ensures taken { self.new.taken ≡ 0 }
    {
        self.reading = false;
        self.taken = 0;
        list(self.alloc, &mut self.openings, Direction::In, name)?;
        Ok(())
    }

    /// Lists an opening for writing that opens nothing. An open output is ended.
    pub fn refuse_out(&mut self, name: &str) -> Result<(), DeskFault>
        ensures told { Lists (opening Direction.Out name.now) (kept_scene self.old) (kept_scene self.new) result }
        ensures memory { IsOkUnless result DeskFault.Memory }
        ensures input { self.new.reading ≡ self.old.reading }
        ensures output { self.new.writing ≡ false }
        ensures taken { self.new.taken ≡ self.old.taken }
    {
        self.writing = false;
        list(self.alloc, &mut self.openings, Direction::Out, name)?;
        Ok(())
    }

    /// Opens a copy of the file of that name for reading; one that isn't there is empty.
    pub fn open_in(&mut self, name: &str) -> Result<(), DeskFault>
        ensures told { OpensIn name.now (kept_scene self.old) (kept_scene self.new) result }
        ensures memory { IsOkUnless result DeskFault.Memory }
        ensures input { self.new.reading ≡ is_ok result }
        ensures output { self.new.writing ≡ self.old.writing }
        ensures taken { self.new.taken ≡ 0 }
    {
        self.reading = false;
        self.taken = 0;
        let input = copy_of(self.alloc, &self.files, name)?;
        list(self.alloc, &mut self.openings, Direction::In, name)?;
        self.input = input;
        self.at = 0;
        self.reading = true;
        Ok(())
    }

    /// Reads as many bytes as the room, the input and the greatest size allow.
    pub fn read(&mut self, room: &mut [u8]) -> usize
        ensures count { result ≤ length room.new }
        ensures told { Reads room.new (kept_scene self.old) (kept_scene self.new) (Ok result) }
        ensures input { self.new.reading ≡ self.old.reading }
        ensures output { self.new.writing ≡ self.old.writing }
        ensures taken { self.new.taken ≡ min (self.old.taken + result) (2 ^ 64 - 1) }
    {
        let count = room
            .len()
            .min(self.input.len() - self.at)
            .min(self.greatest);
        room[..count].copy_from_slice(&self.input[self.at..self.at + count]);
        self.at += count;
        self.taken = self.taken.saturating_add(count as u64);
        count
    }

    /// Begins an empty output of that name.
    pub fn open_out(&mut self, name: &str) -> Result<(), DeskFault>
        ensures told { OpensOut name.now (kept_scene self.old) (kept_scene self.new) result }
        ensures memory { IsOkUnless result DeskFault.Memory }
        ensures input { self.new.reading ≡ self.old.reading }
        ensures output { self.new.writing ≡ is_ok result }
        ensures taken { self.new.taken ≡ self.old.taken }
    {
        self.writing = false;
        let output = String::from_str(self.alloc, name)?;
        list(self.alloc, &mut self.openings, Direction::Out, name)?;
        self.output = output;
        self.saved.clear();
        self.writing = true;
        Ok(())
    }

    /// Appends to the open output as much of the part as the greatest size allows.
    pub fn save(&mut self, part: &[u8]) -> Result<usize, DeskFault>
        ensures count { IfOk result (λ n. n ≤ length part.now) }
        ensures progress { IfOk result (λ n. 0 < length part.now → 0 < n) }
        ensures told { Saves part.now (kept_scene self.old) (kept_scene self.new) result }
        ensures memory { IsOkUnless result DeskFault.Memory }
        ensures input { self.new.reading ≡ self.old.reading }
        ensures output { self.new.writing ≡ self.old.writing }
        ensures taken { self.new.taken ≡ self.old.taken }
    {
        append(&mut self.saved, part, self.greatest)
    }

    /// Keeps what the open output has taken as the file of its name, and ends the output.
    pub fn close_out(&mut self) -> Result<(), DeskFault>
        requires { IsTrue self.old.writing }
        ensures told { ClosesOut (kept_scene self.old) (kept_scene self.new) result }
        ensures memory { IsOkUnless result DeskFault.Memory }
        ensures input { self.new.reading ≡ self.old.reading }
        ensures output { self.new.writing ≡ false }
        ensures taken { self.new.taken ≡ self.old.taken }
    {
        self.writing = false;
        put(
            self.alloc,
            &mut self.files,
            self.output.as_str(),
            self.saved.as_slice(),
        )?;
        Ok(())
    }

    /// Ends the output and doesn't keep it.
    pub fn end_output(&mut self)
        ensures scene { kept_scene self.new ≡ kept_scene self.old }
        ensures input { self.new.reading ≡ self.old.reading }
        ensures output { self.new.writing ≡ false }
        ensures taken { self.new.taken ≡ self.old.taken }
    {
        self.writing = false;
    }

    /// Prints as much of the part as the greatest size allows.
    pub fn print(&mut self, part: &[u8]) -> Result<usize, DeskFault>
        ensures count { IfOk result (λ n. n ≤ length part.now) }
        ensures progress { IfOk result (λ n. 0 < length part.now → 0 < n) }
        ensures told { Prints part.now (kept_scene self.old) (kept_scene self.new) result }
        ensures memory { IsOkUnless result DeskFault.Memory }
        ensures input { self.new.reading ≡ self.old.reading }
        ensures output { self.new.writing ≡ self.old.writing }
        ensures taken { self.new.taken ≡ self.old.taken }
    {
        append(&mut self.printed, part, self.greatest)
    }
}

// A copy of the file of that name; one that isn't there is empty.
fn copy_of(
    alloc: Global,
    files: &BTreeMap<String, Vec<u8>>,
    name: &str,
) -> Result<Vec<u8>, AllocError>
    ensures { IfOk result (λ bytes. bytes.items ≡ bytes_in (files_of files.now) name.now) }
{
    match files.get(name) {
        Some(bytes) => Vec::from_slice(alloc, bytes.as_slice()),
        None => Ok(Vec::new(alloc)),
    }
}

// Sets the bytes of the file of that name.
fn put(
    alloc: Global,
    files: &mut BTreeMap<String, Vec<u8>>,
    name: &str,
    bytes: &[u8],
) -> Result<(), AllocError>
    ensures ok { OnOk result
        (files_of files.new ≡ update bytes_eq (files_of files.old) name.now (Some bytes.now)) }
    ensures err { OnErr result (files_of files.new ≡ files_of files.old) }
{
    let name = String::from_str(alloc, name)?;
    let bytes = Vec::from_slice(alloc, bytes)?;
    files.insert(name, bytes)?;
    Ok(())
}

// Adds an opening to the list.
fn list(
    alloc: Global,
    openings: &mut Vec<Opened>,
    way: Direction,
    name: &str,
) -> Result<(), AllocError>
    ensures ok { OnOk result
        (openings_of openings.new.items
        ≡ openings_of openings.old.items ++ opening way name.now ∷ []) }
    ensures err { OnErr result (openings_of openings.new.items ≡ openings_of openings.old.items) }
{
    let name = String::from_str(alloc, name)?;
    openings.push(Opened { way, name })?;
    Ok(())
}

// Appends a front of the part, of at most the greatest size.
fn append(to: &mut Vec<u8>, part: &[u8], greatest: usize) -> Result<usize, DeskFault>
    requires { 1 ≤ greatest }
    ensures count { IfOk result (λ n. n ≤ length part.now) }
    ensures progress { IfOk result (λ n. 0 < length part.now → 0 < n) }
    ensures bytes { to.new.items ≡ to.old.items ++ taken_of result part.now }
    ensures memory { IsOkUnless result DeskFault.Memory }
{
    let count = part.len().min(greatest);
    to.extend_from_slice(&part[..count])?;
    Ok(count)
}
