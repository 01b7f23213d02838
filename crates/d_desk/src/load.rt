ghost use Rattle.std.specs.Prelude.{◌≡◌, ℕ, ◌+◌, ◌-◌, ◌^◌, ◌<◌, ◌≤◌, ◌↔◌, length, IfOk, IsErrOf};
ghost use Rattle.d_desk.specs.Cause.{Rose};
ghost use Rattle.d_desk.specs.WholeFile.{Loads, load_fault_of};

use crate::desk::Desk;
use crate::fault::DeskFault;
use std::alloc::{AllocError, Global};

// How many bytes are asked for in one read, at most.
const ROOM: usize = 4096;

/// Why a whole file couldn't be loaded.
#[derive(Clone, Copy, Debug, PartialEq, Eq)]
pub enum LoadFault {
    /// The desk failed, and has counted it.
    Failed,
    /// The file has more bytes than the limit.
    TooLong,
    /// Memory was wanting.
    Memory,
}

impl From<DeskFault> for LoadFault {
    ghost from_gives = { λ fault load. load ≡ load_fault_of fault };

    fn from(fault: DeskFault) -> LoadFault {
        match fault {
            DeskFault::Failed => LoadFault::Failed,
            DeskFault::Memory => LoadFault::Memory,
        }
    }
}

impl From<AllocError> for LoadFault {
    ghost use Rattle.std.specs.Prelude.{◌≡◌};
    ghost use Rattle.d_desk.specs.declared.load.LoadFault.TheVariants.{Memory};

    ghost from_gives = { λ _ load. load ≡ Memory };

    fn from(_error: AllocError) -> LoadFault {
        LoadFault::Memory
    }
}

/// Opens the file of that name, reads it to its end, and answers its bytes.
///
/// TooLong is answered exactly where `limit` + 1 bytes were read, so only for a file of more bytes
/// than the limit; of a file that is within the limit all bytes are answered. Failed is answered
/// only where the desk counted a fault in this call. Where told, the call opens that file alone, or
/// nothing, and then it answers Memory; it saves and prints nothing and leaves the files.
pub fn load_file<D: Desk>(
    alloc: Global,
    desk: &mut D,
    name: &str,
    limit: u64,
) -> Result<Vec<u8>, LoadFault>
    requires { limit ≤ 2 ^ 30 }
    ensures told { D.tells → Loads name.now limit (D.scene desk.old) (D.scene desk.new) result }
    ensures too_long { IsErrOf result LoadFault.TooLong ↔ (D.taken desk.new ≡ limit + 1) }
    ensures within { IfOk result
        (λ bytes. (D.taken desk.new ≡ length bytes.items) × (length bytes.items ≤ limit)) }
    ensures output { D.output_open desk.new ≡ D.output_open desk.old }
    ensures later { D.faults desk.old ≤ D.faults desk.new }
    ensures failed { IsErrOf result LoadFault.Failed → Rose (D.faults desk.old) (D.faults desk.new) }
{
    desk.open_in(name)?;
    let limit = limit as usize;
    let mut bytes = Vec::new(alloc);
    let mut room = [0u8; ROOM];
    loop {
        let want = ROOM.min(limit + 1 - bytes.len());
        let count = desk.read(&mut room[..want])?;
        if count == 0 {
            return Ok(bytes);
        }
        // Before the bytes are kept: so want of memory is never answered at `limit` + 1 bytes read.
        if count > limit - bytes.len() {
            return Err(LoadFault::TooLong);
        }
        bytes.extend_from_slice(&room[..count])?;
    }
}
