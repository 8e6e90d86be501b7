//! Why a line does nothing.
ghost use Rattle.std.specs.Prelude.{◌≡◌};
ghost use Rattle.schedule_report.specs.Lines.{row_name, refusal_name, refusal_of};

use schedule_model::Refused;

/// Why a line of a schedule does nothing.
#[derive(Clone, Copy, Debug, PartialEq, Eq)]
pub enum LineRefusal {
    /// The store refuses the command.
    NotTaken(Refused),
    /// The step of the dump has no place there.
    NotNow,
    /// It is of a collection without an open cursor.
    NoCursor,
}

// The name of a row that refuses a command.
fn row_name(row: Refused) -> &'static str
    ensures { result.now ≡ row_name row }
{
    match row {
        Refused::NoSuchNamespace => "NoSuchNamespace",
        Refused::NamespaceExists => "NamespaceExists",
        Refused::DuplicateId => "DuplicateId",
        Refused::NoSuchDocument => "NoSuchDocument",
        Refused::DuplicateKey => "DuplicateKey",
        Refused::ParallelArrays => "ParallelArrays",
        Refused::IndexExists => "IndexExists",
        Refused::NoSuchIndex => "NoSuchIndex",
        Refused::BadDocument => "BadDocument",
        Refused::BadUpdate => "BadUpdate",
        Refused::BadName => "BadName",
        Refused::ClockBack => "ClockBack",
        Refused::TooManyIndexes => "TooManyIndexes",
        Refused::TooLarge => "TooLarge",
    }
}

impl LineRefusal {
    /// Its name, as it is told.
    pub fn name(self) -> &'static str
        ensures { result.now ≡ refusal_name (refusal_of self) }
    {
        match self {
            LineRefusal::NotTaken(row) => row_name(row),
            LineRefusal::NotNow => "NotNow",
            LineRefusal::NoCursor => "NoCursor",
        }
    }
}
