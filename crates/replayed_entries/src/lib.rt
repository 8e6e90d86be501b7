//! What is recorded is replayed as what it records. A law alone: its function does nothing, and its caller learns the
//! law.
#![tactic(auto)]

mod laws;

pub use laws::good_moves;
