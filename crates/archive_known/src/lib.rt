//! What a dump wrote is an archive, and a restore knows each of its entries. Laws alone: each function does nothing, and
//! its caller learns the law.
#![tactic(auto)]

mod laws;

pub use laws::{archive_has_content, entries_are_known};
