//! Why an archive isn't restored.
ghost use Rattle.std.specs.Prelude.{◌≡◌};
ghost use Rattle.restore_plan.specs.Faults.{of_replay, of_indexes};

use bson_value::{NsName, Text, Ts, Value};
use index_build::CountFault;
use replay::ReplayFault;

/// Why an archive isn't restored. `Metadata`, `NoId` and `Entry` are met while it is taken, `NoMemory` at any time, the others once
/// all of it was taken.
#[derive(Drop)]
pub enum RestoreFault {
    NoMemory,
    /// A text is no metadata. The place is that of the fault in the text, or the text's length.
    Metadata {
        ns: NsName,
        at: usize,
    },
    /// A document outside the oplog has no `_id`.
    NoId {
        ns: NsName,
    },
    /// A document of the oplog that was to be replayed is no entry. Its timestamp is told where that can be read.
    Entry {
        ts: Option<Ts>,
    },
    /// A collection is renamed, by the entry at this timestamp.
    Rename {
        ts: Ts,
    },
    /// The entry at this timestamp has this command, which isn't known.
    OtherCommand {
        ts: Ts,
        name: Text,
    },
    /// Two fields of an index meet an array in the document with this `_id`.
    Parallel {
        ns: NsName,
        index: Text,
        id: Value,
    },
    /// Two documents have one key in a unique index.
    Duplicate {
        ns: NsName,
        index: Text,
        first: Value,
        second: Value,
    },
}

/// What an entry that isn't replayed is told as.
pub(crate) fn of_replay(fault: ReplayFault) -> RestoreFault
    ensures { result ≡ of_replay fault }
{
    match fault {
        ReplayFault::NoMemory => RestoreFault::NoMemory,
        ReplayFault::Rename { ts } => RestoreFault::Rename { ts },
        ReplayFault::OtherCommand { ts, name } => RestoreFault::OtherCommand { ts, name },
    }
}

/// What indexes that can't be built are told as.
pub(crate) fn of_indexes(fault: CountFault) -> RestoreFault
    ensures { result ≡ of_indexes fault }
{
    match fault {
        CountFault::NoMemory => RestoreFault::NoMemory,
        CountFault::Parallel { ns, index, id } => RestoreFault::Parallel { ns, index, id },
        CountFault::Duplicate {
            ns,
            index,
            first,
            second,
        } => RestoreFault::Duplicate {
            ns,
            index,
            first,
            second,
        },
    }
}
