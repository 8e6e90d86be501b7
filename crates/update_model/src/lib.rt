//! Updates of documents: operators, what they make of a document, and the touches that record it.
#![tactic(auto)]

mod fault;
mod laws;
mod mark;
mod operator;
mod updated;

pub use fault::{OpsFault, UpdateFault};
pub use laws::{
    equality_is_tested, no_touches_no_change, none_is_left_at_once, update_is_recorded,
};
pub use mark::{Made, Mark};
pub use operator::{ArrayEnd, Number, Operator, OperatorName};
pub use updated::Updated;
