//! Laws of updates that are replayed: the touches of an accepted update, played on the document before it,
//! give the document after it.
#![tactic(auto)]

mod laws;

pub use laws::{first_form_is_replayed, names_record, second_form_is_replayed, touches_are_plain};
