//! Collections in record order: documents under their keys and record numbers, options and index
//! definitions.
#![tactic(auto)]

mod change;
mod collection;
mod documents;
mod kept;
mod keys;
mod laws;
mod number_hints;
mod prepared_change;
mod state;
mod tables;
mod walks;

pub use change::Change;
pub use collection::name_of;
pub use documents::Documents;
pub use kept::{MAX_KEPT_BYTES, MAX_KEPT_LEVELS};
pub use laws::changes_are_moves;
pub use state::{COUNT_LIMIT, State};
pub use walks::{After, Namespaces};
