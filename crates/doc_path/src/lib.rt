//! Places in documents, and what touches do at them.
#![tactic(auto)]

mod elements;
mod index;
mod laws;
mod parts;
mod path;
mod place;
mod touches;
mod writing;

pub use index::{INDEX_LIMIT, small_index};
pub use laws::{changes_are_played, covers_all_below, left_at_once};
pub use parts::{Change, Form, Part};
pub use path::{Path, PathFault};
pub use place::{at, resize, set, unset};
pub use touches::{Place, Touch};
pub use writing::change_document;
