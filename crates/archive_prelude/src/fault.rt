//! Why a document is no header and no metadata.
ghost use Rattle.std.specs.Prelude.{◌≡◌};
ghost use Rattle.archive_prelude.specs.declared.fault.PreludeFault.TheVariants.{NoMemory};

use bson_value::Text;
use std::alloc::AllocError;

/// Why a document of a prelude wasn't read. The fields are looked at in their order, each first for being there and then
/// for its type; what they hold comes after all of them.
#[derive(Debug, Drop)]
pub enum PreludeFault {
    /// The field of this name isn't there.
    MissingField(Text),
    /// The field of this name is of another type.
    WrongType(Text),
    /// The archive is of this version, and not of 0.1.
    Version(Text),
    /// No namespace has these names.
    BadNs,
    /// There was no memory.
    NoMemory,
}

impl From<AllocError> for PreludeFault {
    ghost from_gives = { λ _ e. e ≡ NoMemory };

    fn from(_e: AllocError) -> PreludeFault {
        PreludeFault::NoMemory
    }
}
