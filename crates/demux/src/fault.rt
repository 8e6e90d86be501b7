//! Why an archive wasn't taken.
ghost use Rattle.std.specs.Prelude.{◌≡◌};
ghost use Rattle.demux.specs.declared.fault.DemuxFault.TheVariants.{Format, NoMemory};
ghost use Rattle.demux.specs.Steps.{halt_fault};

use crate::taker::Halt;
use archive_format::FormatFault;
use std::alloc::{AllocError, AllocFailed};

/// Why an archive wasn't taken.
#[derive(Debug, Drop)]
pub enum DemuxFault {
    /// The input is no archive.
    Format(FormatFault),
    /// The source failed.
    ReadFault,
    /// The taker stopped.
    Stopped,
    /// There was no memory.
    NoMemory,
}

impl From<FormatFault> for DemuxFault {
    ghost from_gives = { λ f e. e ≡ Format f };

    fn from(fault: FormatFault) -> DemuxFault {
        DemuxFault::Format(fault)
    }
}

impl From<Halt> for DemuxFault {
    ghost from_gives = { λ h e. e ≡ halt_fault h };

    fn from(halt: Halt) -> DemuxFault {
        match halt {
            Halt::Stopped => DemuxFault::Stopped,
            Halt::NoMemory => DemuxFault::NoMemory,
        }
    }
}

impl From<AllocError> for DemuxFault {
    ghost from_gives = { λ _ e. e ≡ NoMemory };

    fn from(_e: AllocError) -> DemuxFault {
        DemuxFault::NoMemory
    }
}

impl<T: Drop> From<AllocFailed<T>> for DemuxFault {
    ghost from_gives = { λ _ e. e ≡ NoMemory };

    fn from(_e: AllocFailed<T>) -> DemuxFault {
        DemuxFault::NoMemory
    }
}
