//! Whether bytes are a document of BSON, and else the first fault.
#![tactic(auto)]

mod blocks;
mod checking;
mod fault;
mod laws;
mod length;
pub mod name_set;
pub mod parts;
pub mod passing;
pub mod repeats;
mod sieve;
mod slots;
mod table;

pub use checking::check;
pub use fault::{BsonFault, BsonKind, DecodeFault};
pub use laws::{faultless_if_spelled, levels_needed, spelled_once};
pub use length::{MAX_DOCUMENT_BYTES, MAX_LEVELS, doc_len};
