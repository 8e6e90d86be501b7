//! Why a run of a schedule ends before its dump does.
ghost use Rattle.std.specs.Prelude.{◌≡◌};
ghost use Rattle.schedule_dump.specs.Lines.{fault_of};

use bson_value::Ts;
use dump_run::DumpFault;

/// Why the run of a schedule ends before its dump does.
#[derive(Clone, Copy, Debug, PartialEq, Eq)]
pub enum RunFault {
    /// A collection was renamed since the dump began. This was the last time.
    Renamed { ts: Ts },
    /// The oplog doesn't go back to the beginning of the dump any more.
    Rolled { start: Ts, oldest: Ts },
    /// The output failed.
    OutputFault,
    /// The report failed.
    ReportFault,
    /// There was no memory.
    NoMemory,
}

// Why the run ends where its dump fails so. A dump that has started, or is finished, answers no refusal.
pub(crate) fn fault_of(fault: DumpFault) -> RunFault
    ensures { result ≡ fault_of fault }
{
    match fault {
        DumpFault::Renamed { ts } => RunFault::Renamed { ts },
        DumpFault::Rolled { start, oldest } => RunFault::Rolled { start, oldest },
        DumpFault::WriteFault => RunFault::OutputFault,
        DumpFault::NoMemory | DumpFault::NotNow | DumpFault::NoCursor => RunFault::NoMemory,
    }
}
