use bson_value::Ts;
use document_lines::ListForm;
use restore_plan::Plan;

/// What a command is told to do.
#[derive(Debug, Drop)]
pub enum Order {
    Source(SourceOrder),
    Dump,
    Restore(RestoreOrder),
    /// The drill of so many rounds.
    Drill { rounds: u32 },
    Help,
    Version,
}

/// What `source` is told.
#[derive(Debug, Drop)]
pub struct SourceOrder {
    /// Only writes that are earlier are listed, where there is one.
    pub limit: Option<Ts>,
    /// How documents are listed: as JSON, where nothing else is said.
    pub form: ListForm,
}

/// What `restore` is told.
#[derive(Debug, Drop)]
pub struct RestoreOrder {
    /// What is restored of the archive.
    pub plan: Plan,
    /// How documents are listed: as JSON, where nothing else is said.
    pub form: ListForm,
}
