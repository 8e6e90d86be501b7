//! Why an update is refused.
ghost use Rattle.std.specs.Prelude.{◌≡◌};
ghost use Rattle.update_model.specs.declared.fault.OpsFault.TheVariants.{NoMemory as no_operators};
ghost use Rattle.update_model.specs.declared.fault.UpdateFault.TheVariants.{NoMemory as no_update};

use std::alloc::{AllocError, AllocFailed};
use thiserror::Error;

/// Why a document holds no operators.
#[derive(Clone, Copy, Debug, PartialEq, Eq, Error)]
pub enum OpsFault {
    #[error("no memory")]
    NoMemory,
    #[error("unknown operator")]
    UnknownOperator,
    /// A path is equal to an earlier one, or begins with it, or the other way round.
    #[error("two paths conflict")]
    Conflict,
    #[error("bad path")]
    BadPath,
    /// A path begins with `_id`.
    #[error("the _id doesn't change")]
    ImmutableId,
    /// An operator doesn't take this operand.
    #[error("bad argument")]
    BadArgument,
}

impl From<AllocError> for OpsFault {
    ghost from_gives = { λ _ e. e ≡ no_operators };

    fn from(_e: AllocError) -> OpsFault {
        OpsFault::NoMemory
    }
}

impl<T: Drop> From<AllocFailed<T>> for OpsFault {
    ghost from_gives = { λ _ e. e ≡ no_operators };

    fn from(_e: AllocFailed<T>) -> OpsFault {
        OpsFault::NoMemory
    }
}

/// Why a document isn't updated.
#[derive(Clone, Copy, Debug, PartialEq, Eq, Error)]
pub enum UpdateFault {
    #[error("no memory")]
    NoMemory,
    /// A path leads through a scalar, or through an array by a part that is no index of it.
    #[error("the path isn't viable")]
    NotViable,
    /// The value at a path is none that the operator changes.
    #[error("wrong type")]
    WrongType,
    #[error("a number overflows")]
    Overflow,
    /// More than 1,000 elements would be padded.
    #[error("too many elements to be padded")]
    Backfill,
    /// The new document has more than 16,777,216 bytes.
    #[error("too long")]
    TooLong,
    /// The new document has more than 100 levels.
    #[error("too deep")]
    Deep,
}

impl From<AllocError> for UpdateFault {
    ghost from_gives = { λ _ e. e ≡ no_update };

    fn from(_e: AllocError) -> UpdateFault {
        UpdateFault::NoMemory
    }
}
