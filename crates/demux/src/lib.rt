//! An archive is taken apart as it is read.
#![tactic(auto)]

mod documents;
mod fault;
mod index;
mod items;
mod metas;
mod namespaces;
mod progress;
mod run;
mod seen;
mod steps;
mod taker;
mod window;

pub use fault::DemuxFault;
pub use run::Demux;
pub use taker::{DocTaker, Halt};
