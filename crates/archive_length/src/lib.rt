//! That no schedule's archive is longer than an archive may be. A law alone: the function does nothing, and its caller
//! learns the law.
#![tactic(auto)]

mod laws;

pub use laws::archives_are_short;
