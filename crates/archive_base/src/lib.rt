//! The state that a restore makes of an archive that a dump wrote, before it replays. A law alone: its function does
//! nothing, and its caller learns the law.
#![tactic(auto)]

mod laws;

pub use laws::base_is_copy;
