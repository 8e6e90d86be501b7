//! Updates of documents by operators: operators are read, and a document is updated by them.
#![tactic(auto)]

mod acts;
mod arguments;
mod draft;
mod keyed_values;
mod locating;
mod names;
mod numbers;
mod ops;
mod place_keys;
mod prefixes;
mod reader;
mod touching;
mod updating;
mod values;

pub use ops::Ops;
pub use update_model::{ArrayEnd, Number, Operator, OperatorName, OpsFault, UpdateFault, Updated};
pub use updating::{update, update_own};
