//! What the steps of a dump are, and that their pieces may follow one another in an archive. A law alone: its function
//! does nothing, and its caller learns the law.
#![tactic(auto)]

mod laws;

pub use laws::steps_follow;
