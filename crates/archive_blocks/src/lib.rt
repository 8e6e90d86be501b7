//! The blocks of an archive: their headers are read, and blocks are written.
#![tactic(auto)]

mod crc;
mod heads;
mod writer;

pub use crc::{Crc, CrcTable};
pub use heads::{HeadFault, NsHead, read_ns_head};
pub use writer::BlockWriter;
