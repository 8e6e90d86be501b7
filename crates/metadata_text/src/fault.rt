//! Why a text is no metadata.
ghost use Rattle.std.specs.Prelude.{◌≡◌};
ghost use Rattle.metadata_text.specs.declared.fault.MetaFault.TheVariants.{NoMemory};

use json_text::JsonFault;
use std::alloc::{AllocError, AllocFailed};
use thiserror::Error;

/// Why a metadata text was not read.
#[derive(Clone, Copy, Debug, PartialEq, Eq, Error)]
pub enum MetaFault {
    #[error("no memory")]
    NoMemory,
    /// The place at which the text fails as JSON, in bytes, or its length where the JSON is no metadata.
    #[error("bad metadata at {at}")]
    Bad { at: usize },
}

impl From<AllocError> for MetaFault {
    ghost from_gives = { λ _ e. e ≡ NoMemory };

    fn from(_e: AllocError) -> MetaFault {
        MetaFault::NoMemory
    }
}

impl<T: Drop> From<AllocFailed<T>> for MetaFault {
    ghost from_gives = { λ _ e. e ≡ NoMemory };

    fn from(_e: AllocFailed<T>) -> MetaFault {
        MetaFault::NoMemory
    }
}

// The same fault in the text of metadata.
impl From<JsonFault> for MetaFault {
    ghost use Rattle.metadata_text.specs.Faults.{same_fault};

    ghost from_gives = { λ f e. e ≡ same_fault f };

    fn from(fault: JsonFault) -> MetaFault {
        match fault {
            JsonFault::NoMemory => MetaFault::NoMemory,
            JsonFault::Bad { at } => MetaFault::Bad { at },
        }
    }
}
