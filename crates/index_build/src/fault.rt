//! Why the indexes of a state can't be built.
ghost use Rattle.std.specs.Prelude.{◌≡◌};
ghost use Rattle.index_build.specs.declared.fault.CountFault.TheVariants.{NoMemory};

use bson_value::{NsName, Value};
use containers::Text;
use std::alloc::AllocError;

/// Why the indexes of a state can't be built. An `_id` is null for a document without one.
#[derive(Drop)]
pub enum CountFault {
    /// Two fields of the index meet an array in the document of this `_id`.
    Parallel {
        ns: NsName,
        index: Text,
        id: Value,
    },
    /// Two documents have one key in a unique index.
    Duplicate {
        ns: NsName,
        index: Text,
        first: Value,
        second: Value,
    },
    NoMemory,
}

impl From<AllocError> for CountFault {
    ghost from_gives = { λ _ e. e ≡ NoMemory };

    fn from(_e: AllocError) -> CountFault {
        CountFault::NoMemory
    }
}
