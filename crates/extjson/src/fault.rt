//! Why a JSON value stands for no value.
ghost use Rattle.std.specs.Prelude.{◌≡◌};
ghost use Rattle.extjson.specs.declared.fault.ExtFault.TheVariants.{NoMemory};

use std::alloc::{AllocError, AllocFailed};
use thiserror::Error;

/// Why a JSON value was not read as a value.
#[derive(Clone, Copy, Debug, PartialEq, Eq, Error)]
pub enum ExtFault {
    #[error("no memory")]
    NoMemory,
    #[error("a wrapper has other names or another content")]
    BadWrapper,
    #[error("a double that isn't told by its bits")]
    Double,
    #[error("a decimal that isn't told by its bits")]
    Decimal,
    #[error("a number is out of range")]
    Range,
}

impl From<AllocError> for ExtFault {
    ghost from_gives = { λ _ e. e ≡ NoMemory };

    fn from(_e: AllocError) -> ExtFault {
        ExtFault::NoMemory
    }
}

impl<T: Drop> From<AllocFailed<T>> for ExtFault {
    ghost from_gives = { λ _ e. e ≡ NoMemory };

    fn from(_e: AllocFailed<T>) -> ExtFault {
        ExtFault::NoMemory
    }
}
