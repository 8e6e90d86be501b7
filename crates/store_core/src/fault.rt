//! Why a command isn't applied.
ghost use Rattle.std.specs.Prelude.{◌≡◌};

use schedule_model::Refused;
use std::alloc::AllocError;

/// Why a command isn't applied. The store is as before.
#[derive(Clone, Copy, Debug, PartialEq, Eq)]
pub enum StoreFault {
    /// The first row that refuses it.
    Refused(Refused),
    /// There was no memory.
    NoMemory,
}

impl From<AllocError> for StoreFault {
    ghost use Rattle.store_core.specs.declared.fault.StoreFault.TheVariants.{NoMemory};

    ghost from_gives = { λ _ e. e ≡ NoMemory };

    fn from(_e: AllocError) -> StoreFault {
        StoreFault::NoMemory
    }
}
