//! Why a dump doesn't go on, and what one reports at its end.
ghost use Rattle.std.specs.Prelude.{◌≡◌};
ghost use Rattle.dump_run.specs.Faults.{is_refusal};

use bson_value::Ts;
use std::alloc::AllocError;
use tool_io::Fault;

/// Why a call of a dump did nothing, or why the dump has failed.
#[derive(Clone, Copy, Debug, PartialEq, Eq)]
pub enum DumpFault {
    /// The call has no place here: a mark before each cursor has ended, or a second one; entries before the mark, or behind
    /// the end of the oplog.
    NotNow,
    /// No cursor on this collection reads on.
    NoCursor,
    /// A collection was renamed since the dump began. This was the last time.
    Renamed { ts: Ts },
    /// The oplog doesn't go back to the beginning of the dump any more.
    Rolled { start: Ts, oldest: Ts },
    /// The sink failed.
    WriteFault,
    /// There was no memory.
    NoMemory,
}

impl DumpFault {
    // Whether the call had no place, and did nothing.
    pub(crate) fn is_refusal(self) -> bool
        ensures { result ≡ is_refusal self }
    {
        matches!(self, DumpFault::NotNow | DumpFault::NoCursor)
    }
}

impl From<Fault> for DumpFault {
    ghost use Rattle.dump_run.specs.Faults.{of_sink};

    ghost from_gives = { λ f e. e ≡ of_sink f };

    fn from(fault: Fault) -> DumpFault {
        match fault {
            Fault::NoMemory => DumpFault::NoMemory,
            Fault::Failed => DumpFault::WriteFault,
        }
    }
}

impl From<AllocError> for DumpFault {
    ghost use Rattle.dump_run.specs.declared.fault.DumpFault.TheVariants.{NoMemory};

    ghost from_gives = { λ _ e. e ≡ NoMemory };

    fn from(_e: AllocError) -> DumpFault {
        DumpFault::NoMemory
    }
}

/// The moments of a dump, and how many documents and entries it wrote. A count stands still at the last number of 64 bits.
#[derive(Clone, Copy, Debug, PartialEq, Eq)]
pub struct DumpReport {
    pub start: Ts,
    pub last_read: Ts,
    pub end: Ts,
    pub documents: u64,
    pub entries: u64,
}
