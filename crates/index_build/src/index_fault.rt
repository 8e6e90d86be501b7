//! Why a document isn't taken into an index.
ghost use Rattle.std.specs.Prelude.{◌≡◌};
ghost use Rattle.index_build.specs.declared.index_fault.IndexFault.TheVariants.{NoMemory};

use bson_value::Value;
use std::alloc::AllocError;

/// Why a document isn't taken into an index.
#[derive(Drop)]
pub enum IndexFault {
    /// The index is unique, and the document `first` has a key of the document `second`, which was to be
    /// taken in. `first` is the least such document, by the type byte and then by the bytes of its `_id`.
    DuplicateKey { first: Value, second: Value },
    /// Two fields of the index meet an array in the document of this `_id`.
    ParallelArrays { id: Value },
    NoMemory,
}

impl From<AllocError> for IndexFault {
    ghost from_gives = { λ _ e. e ≡ NoMemory };

    fn from(_e: AllocError) -> IndexFault {
        IndexFault::NoMemory
    }
}
