//! What a restore replays of an archive that a dump wrote. A law alone: its function does nothing, and its caller
//! learns the law.
#![tactic(auto)]

mod laws;

pub use laws::entries_are_taken;
