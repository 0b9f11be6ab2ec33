//! What `?` makes of refused memory.
use crate::errors::{CloneError, MakeError, OutOfMemory};
use std::alloc::AllocError;

/// A library was refused memory.
impl From<AllocError> for OutOfMemory {
    fn from(_refused: AllocError) -> OutOfMemory {
        OutOfMemory
    }
}

impl From<OutOfMemory> for MakeError {
    ghost use Rattle.std.specs.Prelude.{◌≡◌};
    ghost use Rattle.channel_core.specs.declared.errors.MakeError.TheVariants.{OutOfMemory};

    ghost from_gives = { λ _ error. error ≡ OutOfMemory };

    fn from(_refused: OutOfMemory) -> MakeError {
        MakeError::OutOfMemory
    }
}

impl From<OutOfMemory> for CloneError {
    ghost use Rattle.std.specs.Prelude.{◌≡◌};
    ghost use Rattle.channel_core.specs.declared.errors.CloneError.TheVariants.{OutOfMemory};

    ghost from_gives = { λ _ error. error ≡ OutOfMemory };

    fn from(_refused: OutOfMemory) -> CloneError {
        CloneError::OutOfMemory
    }
}
