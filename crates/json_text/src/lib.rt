//! JSON in the order of its text: reading and printing values.
#![tactic(auto)]

mod fault;
mod laws;
mod printing;
mod reading;
mod tokens;

pub use fault::JsonFault;
pub use laws::{json_is_read, print_is_json, print_is_read, read_is_json};
pub use printing::print;
pub use reading::parse;
