//! Why an entry was not played.
ghost use Rattle.std.specs.Prelude.{◌≡◌};
ghost use Rattle.replay.specs.declared.fault.ReplayFault.TheVariants.{NoMemory};

use bson_value::{Text, Ts};
use std::alloc::AllocError;
use thiserror::Error;

/// Why an entry was not played.
#[derive(Debug, Drop, Error)]
pub enum ReplayFault {
    #[error("no memory")]
    NoMemory,
    /// A collection is renamed, by the entry at this timestamp.
    #[error("a rename")]
    Rename { ts: Ts },
    /// The entry at this timestamp has this command, which isn't known.
    #[error("unknown command")]
    OtherCommand { ts: Ts, name: Text },
}

impl From<AllocError> for ReplayFault {
    ghost from_gives = { λ _ e. e ≡ NoMemory };

    fn from(_e: AllocError) -> ReplayFault {
        ReplayFault::NoMemory
    }
}
