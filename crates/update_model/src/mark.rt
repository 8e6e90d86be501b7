//! Places that an update changes.
use bson_value::List;
use doc_path::Part;

/// How a place was changed.
#[derive(Clone, Copy, Debug, PartialEq, Eq)]
pub enum Made {
    /// A new field.
    Fresh,
    /// Another value in the place of the one that was there, a new element, or a field less.
    Changed,
    /// An array without its last element.
    Cut,
}

/// A place that an update changes: the parts on the way to its parent, and one more.
#[derive(Drop)]
pub struct Mark {
    pub way: List<Part>,
    pub last: Part,
    pub made: Made,
}
