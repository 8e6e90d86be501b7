//! Why a document is no entry.
ghost use Rattle.std.specs.Prelude.{◌≡◌};
ghost use Rattle.entry_model.specs.declared.fault.EntryFault.TheVariants.{NoMemory};

use bson_value::Text;
use std::alloc::{AllocError, AllocFailed};
use thiserror::Error;

/// Why a document was not read as an entry.
#[derive(Debug, Drop, Error)]
pub enum EntryFault {
    #[error("no memory")]
    NoMemory,
    /// A field is missing.
    #[error("missing field")]
    MissingField(Text),
    /// A field is of another type or shape.
    #[error("bad field")]
    BadField(Text),
    /// An update says this version.
    #[error("unknown version {0} of an update")]
    UnknownUpdate(i64),
    /// The entry says this operation.
    #[error("unknown operation")]
    UnknownOp(Text),
}

impl From<AllocError> for EntryFault {
    ghost from_gives = { λ _ e. e ≡ NoMemory };

    fn from(_e: AllocError) -> EntryFault {
        EntryFault::NoMemory
    }
}

impl<T: Drop> From<AllocFailed<T>> for EntryFault {
    ghost from_gives = { λ _ e. e ≡ NoMemory };

    fn from(_e: AllocFailed<T>) -> EntryFault {
        EntryFault::NoMemory
    }
}
