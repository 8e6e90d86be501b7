//! The top call.
#![tactic(auto)]

mod texts;
mod top;

pub use texts::{HELP, VERSION};
pub use top::tools;
