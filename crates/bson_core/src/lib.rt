//! Documents of BSON, read from their bytes.
#![tactic(auto)]

mod reading;

pub use reading::{decode, decode_value};
