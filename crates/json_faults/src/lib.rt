//! Where a text ceases to be the front of a JSON text.
#![tactic(auto)]

mod laws;

pub use laws::{continues_to_its_fault, refused_at_its_end, refused_at_its_token, refused_within};
