//! The bytes of documents of BSON, and the key of an `_id`.
#![tactic(auto)]

mod key;
mod laws;
mod order;
mod writing;

pub use key::cmp_key;
pub use laws::{equal_keys, numbered_spelling, one_numbered_spelling, spelling_spells};
pub use order::cmp_keys;
pub use writing::{encode, encode_into, put_key, type_of};
