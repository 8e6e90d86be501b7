//! The metadata of a collection as a JSON text: its options and the definitions of its indexes.
#![tactic(auto)]

mod fault;
mod laws;
mod reading;
mod writing;

pub use fault::MetaFault;
pub use laws::written_is_read;
pub use reading::metadata_of;
pub use writing::metadata_text;
