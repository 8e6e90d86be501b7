//! What a restore keeps of the entries that a dump recorded. A law alone: its function does nothing, and its caller
//! learns the law.
#![tactic(auto)]

mod laws;

pub use laws::good_is_kept;
