ghost use Rattle.std.specs.Prelude.{◌≡◌, ◌≤◌};
ghost use Rattle.d_desk.specs.Cause.{Rose};

use crate::desk::Desk;
use crate::fault::DeskFault;
use crate::kept::Kept;
use crate::opened::Opened;
use crate::plan::{DeskCall, Plan};
use std::alloc::Global;

/// A desk whose files stand in memory, and which fails at the calls that it was told to, and at
/// opening a file for reading that it doesn't have. It counts each failure.
#[derive(Drop)]
pub struct MemoryDesk {
    kept: Kept,
    plan: Plan,
    faults: u64,
}

impl MemoryDesk {
    ghost use Rattle.std.specs.Prelude.{◌≡◌, ◌≤◌, [], ◌∷◌, ◌++◌, OnOk, OnErr, IsOkUnless, option_map};
    ghost use Rattle.d_desk.specs.InMemory.{memory_state, planned_faults};
    ghost use Rattle.d_desk.specs.State.{new_state, put_in_state};
    ghost use Rattle.d_desk.specs.Stored.{openings_of};

    /// A desk without a file, on which no call is to fail. One call reads, saves or prints at most
    /// the greatest number of bytes.
    pub fn new(alloc: Global, greatest: usize) -> MemoryDesk
        requires { 1 ≤ greatest }
        ensures state { memory_state result ≡ new_state }
        ensures planned { planned_faults result ≡ [] }
    {
        MemoryDesk {
            kept: Kept::new(alloc, greatest),
            plan: Plan::new(alloc),
            faults: 0,
        }
    }

    /// The bytes of the file of that name; None exactly where there is no such file.
    pub fn file_bytes(&self, name: &str) -> Option<&[u8]>
        ensures { option_map (λ bytes. bytes.now) result ≡ (memory_state self.now).scene.files name.now }
    {
        self.kept.file_bytes(name)
    }

    /// What the last output that was begun has taken.
    pub fn saved_bytes(&self) -> &[u8]
        ensures { result.now ≡ (memory_state self.now).scene.saved }
    {
        self.kept.saved_bytes()
    }

    /// All that was printed.
    pub fn printed_bytes(&self) -> &[u8]
        ensures { result.now ≡ (memory_state self.now).scene.printed }
    {
        self.kept.printed_bytes()
    }

    /// The openings so far, in order.
    pub fn openings(&self) -> &[Opened]
        ensures { openings_of result.now ≡ (memory_state self.now).scene.opened }
    {
        self.kept.openings()
    }

    /// How many calls have failed.
    pub fn fault_count(&self) -> u64
        ensures { result ≡ (memory_state self.now).faults }
    {
        self.faults
    }

    /// Sets the bytes of the file of that name. The only error is want of memory, and it changes
    /// nothing.
    pub fn put_file(&mut self, name: &str, bytes: &[u8]) -> Result<(), DeskFault>
        ensures ok { OnOk result
            (memory_state self.new ≡ put_in_state name.now bytes.now (memory_state self.old)) }
        ensures err { OnErr result (memory_state self.new ≡ memory_state self.old) }
        ensures memory { IsOkUnless result DeskFault.Memory }
        ensures planned { planned_faults self.new ≡ planned_faults self.old }
    {
        self.kept.put_file(name, bytes)
    }

    /// Lets the call of that kind and number fail. The only error is want of memory, and it changes
    /// nothing.
    pub fn fail_at(&mut self, kind: DeskCall, number: u32) -> Result<(), DeskFault>
        ensures ok { OnOk result
            (planned_faults self.new
            ≡ planned_faults self.old ++ record { kind = kind; number = number } ∷ []) }
        ensures err { OnErr result (planned_faults self.new ≡ planned_faults self.old) }
        ensures memory { IsOkUnless result DeskFault.Memory }
        ensures state { memory_state self.new ≡ memory_state self.old }
    {
        self.plan.add(kind, number)?;
        Ok(())
    }
}

impl Desk for MemoryDesk {
    ghost use Rattle.d_desk.specs.InMemory.{memory_state};

    ghost tells = { Unit {0} };

    ghost scene = { λ d. (memory_state d).scene };

    ghost input_open = { λ d. (memory_state d).input_open };

    ghost output_open = { λ d. (memory_state d).output_open };

    ghost taken = { λ d. (memory_state d).taken };

    ghost faults = { λ d. (memory_state d).faults };

    fn open_in(&mut self, name: &str) -> Result<(), DeskFault> {
        if self.plan.fails(DeskCall::OpenIn) || self.kept.file_bytes(name).is_none() {
            self.kept.refuse_in(name)?;
            return Err(count_fault(&mut self.faults));
        }
        self.kept.open_in(name)
    }

    fn read(&mut self, room: &mut [u8]) -> Result<usize, DeskFault> {
        if self.plan.fails(DeskCall::Read) {
            return Err(count_fault(&mut self.faults));
        }
        Ok(self.kept.read(room))
    }

    fn open_out(&mut self, name: &str) -> Result<(), DeskFault> {
        if self.plan.fails(DeskCall::OpenOut) {
            self.kept.refuse_out(name)?;
            return Err(count_fault(&mut self.faults));
        }
        self.kept.open_out(name)
    }

    fn save(&mut self, part: &[u8]) -> Result<usize, DeskFault> {
        if self.plan.fails(DeskCall::Save) {
            return Err(count_fault(&mut self.faults));
        }
        self.kept.save(part)
    }

    fn close_out(&mut self) -> Result<(), DeskFault> {
        if self.plan.fails(DeskCall::CloseOut) {
            self.kept.end_output();
            return Err(count_fault(&mut self.faults));
        }
        self.kept.close_out()
    }

    fn print(&mut self, part: &[u8]) -> Result<usize, DeskFault> {
        if self.plan.fails(DeskCall::Print) {
            return Err(count_fault(&mut self.faults));
        }
        self.kept.print(part)
    }
}

// Counts a failure, and answers it.
fn count_fault(faults: &mut u64) -> DeskFault
    ensures fault { result ≡ DeskFault.Failed }
    ensures rose { Rose faults.old faults.new }
    ensures later { faults.old ≤ faults.new }
{
    *faults = faults.saturating_add(1);
    DeskFault::Failed
}
