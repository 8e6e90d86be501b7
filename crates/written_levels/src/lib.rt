//! How many levels has what is written of an update. A law alone: its function does nothing, and its caller learns the
//! law.
#![tactic(auto)]

mod laws;

pub use laws::written_is_shallow;
