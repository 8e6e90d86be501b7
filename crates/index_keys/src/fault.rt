//! Why a document has no keys.
ghost use Rattle.std.specs.Prelude.{◌≡◌};
ghost use Rattle.index_keys.specs.declared.fault.KeyFault.TheVariants.{NoMemory};

use containers::Text;
use std::alloc::AllocError;
use thiserror::Error;

/// Why a document has no keys in an index.
#[derive(Debug, Drop, Error)]
pub enum KeyFault {
    /// Two fields of the index meet an array in the document: the first two of its paths that do.
    #[error("two fields meet an array")]
    ParallelArrays { first: Text, second: Text },
    #[error("no memory")]
    NoMemory,
}

impl From<AllocError> for KeyFault {
    ghost from_gives = { λ _ e. e ≡ NoMemory };

    fn from(_e: AllocError) -> KeyFault {
        KeyFault::NoMemory
    }
}
