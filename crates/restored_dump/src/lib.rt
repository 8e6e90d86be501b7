//! The archive of a dump is restored. A law alone: its function does nothing, and its caller learns the law.
#![tactic(auto)]

mod laws;

pub use laws::archive_restores;
