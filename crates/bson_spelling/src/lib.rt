//! Whether the bytes of a document are its spelling, and the key of its `_id`, without building it.
#![tactic(auto)]

mod key;
mod walk;

pub use key::put_id_key;
pub use walk::is_spelling;
