//! The drill: a schedule that numbers draw is dumped, its archive is restored with replay, and what that gives is compared with
//! the source.
#![tactic(auto)]

mod laws;
mod line;
mod memory;
mod run;

pub use laws::drills_heal;
pub use run::drill;
