ghost use Rattle.std.specs.Prelude.{◌≡◌};
ghost use Rattle.tools_commands.specs.Statuses.{code_of, restore_code, NumbersTellApart};

use archive_format::FormatFault;
use bson_value::Ts;
use restore_plan::RestoreFault;
use schedule_text::LineKind;

/// How a call ended.
#[derive(Drop)]
pub enum Status {
    Done,
    /// The words aren't a command; the place is that of the first word that can't stand where it stands.
    Usage { word: usize },
    /// The input is no schedule; the line is the first that isn't one of a schedule, from 1.
    BadSchedule { line: u32, kind: LineKind },
    /// The input is no archive.
    BadArchive(FormatFault),
    /// It is one that can't be restored.
    NotRestored(RestoreFault),
    /// The oplog doesn't go back to the beginning of the dump any more.
    Rolled { start: Ts, oldest: Ts },
    /// A collection was renamed since the dump began. This was the last time.
    Renamed { ts: Ts },
    ReadFault,
    WriteFault,
    NoMemory,
}

/// The number of the status of an archive that can't be restored.
fn restore_code(fault: &RestoreFault) -> u8
    ensures { result ≡ restore_code fault.now }
{
    match fault {
        RestoreFault::Metadata { .. } | RestoreFault::NoId { .. } => 3,
        RestoreFault::Duplicate { .. } => 6,
        RestoreFault::Parallel { .. } => 7,
        RestoreFault::Entry { .. }
        | RestoreFault::Rename { .. }
        | RestoreFault::OtherCommand { .. } => 8,
        RestoreFault::NoMemory => 11,
    }
}

impl Status {
    /// The exit status.
    pub fn code(&self) -> u8
        ensures { result ≡ code_of self.now }
    {
        match self {
            Status::Done => 0,
            Status::Usage { .. } => 1,
            Status::BadSchedule { .. } => 2,
            Status::BadArchive(_) => 3,
            Status::Rolled { .. } => 4,
            Status::Renamed { .. } => 5,
            Status::NotRestored(fault) => restore_code(fault),
            Status::ReadFault => 9,
            Status::WriteFault => 10,
            Status::NoMemory => 11,
        }
    }
}

/// Numbers tell statuses apart.
pub fn numbers_tell_apart()
    ensures { NumbersTellApart }
{}
