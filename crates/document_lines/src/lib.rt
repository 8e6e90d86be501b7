//! The line of a document in a listing, straight from the bytes that spell it.
#![tactic(auto)]

mod digits;
mod form;
mod json;
mod leaves;
mod lines;
mod name_order;
mod plain;
mod spelling;
mod strings;

pub use form::ListForm;
pub use lines::Lines;
