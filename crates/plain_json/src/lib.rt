//! Documents read from plain JSON texts, with no tree between.
#![tactic(auto)]

mod names;
mod numbers;
mod reading;
mod refusal;
mod tokens;

pub use reading::plain_document;
