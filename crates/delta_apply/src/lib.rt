//! Replay of touches on a document, where it stands.
#![tactic(auto)]

mod backup;
mod left;
mod playing;
mod touched;

pub use playing::play;
