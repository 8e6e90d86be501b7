//! What an archive that a dump wrote holds. A law alone: its function does nothing, and its caller learns the law.
#![tactic(auto)]

mod laws;

pub use laws::takings_are;
