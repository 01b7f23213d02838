use crate::desk::Desk;
use crate::fault::DeskFault;
use crate::kept::Kept;
use crate::opened::Opened;
use std::alloc::Global;

/// A desk whose files stand in memory, and which never fails. A file that it doesn't have reads as
/// an empty one.
#[derive(Drop)]
pub struct SureDesk {
    kept: Kept,
}

impl SureDesk {
    ghost use Rattle.std.specs.Prelude.{◌≡◌, ◌≤◌, OnOk, OnErr, IsOkUnless, option_map};
    ghost use Rattle.d_desk.specs.InMemory.{sure_state};
    ghost use Rattle.d_desk.specs.State.{new_state, put_in_state};
    ghost use Rattle.d_desk.specs.Stored.{openings_of};

    /// A desk without a file. One call reads, saves or prints at most the greatest number of bytes.
    pub fn new(alloc: Global, greatest: usize) -> SureDesk
        requires { 1 ≤ greatest }
        ensures { sure_state result ≡ new_state }
    {
        SureDesk {
            kept: Kept::new(alloc, greatest),
        }
    }

    /// The bytes of the file of that name; None exactly where there is no such file.
    pub fn file_bytes(&self, name: &str) -> Option<&[u8]>
        ensures { option_map (λ bytes. bytes.now) result ≡ (sure_state self.now).scene.files name.now }
    {
        self.kept.file_bytes(name)
    }

    /// What the last output that was begun has taken.
    pub fn saved_bytes(&self) -> &[u8]
        ensures { result.now ≡ (sure_state self.now).scene.saved }
    {
        self.kept.saved_bytes()
    }

    /// All that was printed.
    pub fn printed_bytes(&self) -> &[u8]
        ensures { result.now ≡ (sure_state self.now).scene.printed }
    {
        self.kept.printed_bytes()
    }

    /// The openings so far, in order.
    pub fn openings(&self) -> &[Opened]
        ensures { openings_of result.now ≡ (sure_state self.now).scene.opened }
    {
        self.kept.openings()
    }

    /// Sets the bytes of the file of that name. The only error is want of memory, and it changes
    /// nothing.
    pub fn put_file(&mut self, name: &str, bytes: &[u8]) -> Result<(), DeskFault>
        ensures ok { OnOk result (sure_state self.new ≡ put_in_state name.now bytes.now (sure_state self.old)) }
        ensures err { OnErr result (sure_state self.new ≡ sure_state self.old) }
        ensures memory { IsOkUnless result DeskFault.Memory }
    {
        self.kept.put_file(name, bytes)
    }
}

impl Desk for SureDesk {
    ghost use Rattle.d_desk.specs.InMemory.{sure_state};

    ghost tells = { Unit {0} };

    ghost scene = { λ d. (sure_state d).scene };

    ghost input_open = { λ d. (sure_state d).input_open };

    ghost output_open = { λ d. (sure_state d).output_open };

    ghost taken = { λ d. (sure_state d).taken };

    ghost faults = { λ d. (sure_state d).faults };

    fn open_in(&mut self, name: &str) -> Result<(), DeskFault> {
        self.kept.open_in(name)
    }

    fn read(&mut self, room: &mut [u8]) -> Result<usize, DeskFault> {
        Ok(self.kept.read(room))
    }

    fn open_out(&mut self, name: &str) -> Result<(), DeskFault> {
        self.kept.open_out(name)
    }

    fn save(&mut self, part: &[u8]) -> Result<usize, DeskFault> {
        self.kept.save(part)
    }

    fn close_out(&mut self) -> Result<(), DeskFault> {
        self.kept.close_out()
    }

    fn print(&mut self, part: &[u8]) -> Result<usize, DeskFault> {
        self.kept.print(part)
    }
}
