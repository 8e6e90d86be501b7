//! An update that leaves its document as it was has no touch. A law alone: the function does nothing, and its caller
//! learns the law.
#![tactic(auto)]

mod laws;

pub use laws::unchanged_is_untouched;
