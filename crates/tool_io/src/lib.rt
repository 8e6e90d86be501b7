//! Sources and sinks of bytes that count their faults.
//!
//! Everything in the tools reads from a [`Source`] and writes to a [`Sink`]. Both tell in contracts, where they can, which bytes
//! are left to read and which were written, and both count their faults, so that a caller can say of an outside fault that it came
//! from outside: only where the count rose.
#![tactic(auto)]

mod ends;
mod memory;
mod standard;

pub use ends::{Fault, Sink, Source};
pub use memory::{MemSink, MemSource};
pub use standard::{StdSink, StdSource};
