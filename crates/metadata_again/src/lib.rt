//! The metadata of collections that are kept is read again. A law alone: its function does nothing, and its caller
//! learns the law.
#![tactic(auto)]

mod laws;

pub use laws::kept_is_read_again;
