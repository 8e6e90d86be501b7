//! Why a text is no JSON text.
ghost use Rattle.std.specs.Prelude.{◌≡◌};
ghost use Rattle.json_text.specs.declared.fault.JsonFault.TheVariants.{NoMemory};

use std::alloc::{AllocError, AllocFailed};
use thiserror::Error;

/// Why a text was not read.
#[derive(Clone, Copy, Debug, PartialEq, Eq, Error)]
pub enum JsonFault {
    #[error("no memory")]
    NoMemory,
    /// The text is no JSON text within the limits. `at` is the offset, in bytes, of the token with which
    /// that becomes certain, and the text's length where the text ends too early.
    #[error("no JSON text at {at}")]
    Bad { at: usize },
}

impl From<AllocError> for JsonFault {
    ghost from_gives = { λ _ e. e ≡ NoMemory };

    fn from(_e: AllocError) -> JsonFault {
        JsonFault::NoMemory
    }
}

impl<T: Drop> From<AllocFailed<T>> for JsonFault {
    ghost from_gives = { λ _ e. e ≡ NoMemory };

    fn from(_e: AllocFailed<T>) -> JsonFault {
        JsonFault::NoMemory
    }
}
