use bson_value::Ts;
use restore_filter::Filter;

/// What a restore is told.
#[derive(Debug, Drop)]
pub struct Plan {
    /// Which collections it takes, and their new names.
    pub filter: Filter,
    /// Whether the entries of the oplog are replayed.
    pub replaying: bool,
    /// Entries at this timestamp and later ones aren't replayed.
    pub limit: Option<Ts>,
}
