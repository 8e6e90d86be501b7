//! What the commands do, and the lines of their statuses.
#![tactic(auto)]

mod dump;
mod listing;
mod report;
mod source;
mod status;

pub use dump::dump_source;
pub use listing::list_archive;
pub use report::tell;
pub use source::list_source;
pub use status::{Status, numbers_tell_apart};
