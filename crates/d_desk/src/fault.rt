ghost use Rattle.std.specs.Prelude.{◌≡◌};
ghost use Rattle.d_desk.specs.declared.fault.DeskFault.TheVariants.{Memory};

use std::alloc::{AllocError, AllocFailed};

/// Why a call on a desk gave up.
#[derive(Clone, Copy, Debug, PartialEq, Eq)]
pub enum DeskFault {
    /// The desk failed, and has counted it.
    Failed,
    /// Memory was wanting. This is counted nowhere.
    Memory,
}

impl From<AllocError> for DeskFault {
    ghost from_gives = { λ _ fault. fault ≡ Memory };

    fn from(_error: AllocError) -> DeskFault {
        DeskFault::Memory
    }
}

impl<T: Drop> From<AllocFailed<T>> for DeskFault {
    ghost from_gives = { λ _ fault. fault ≡ Memory };

    fn from(_error: AllocFailed<T>) -> DeskFault {
        DeskFault::Memory
    }
}
