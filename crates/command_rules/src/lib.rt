//! What the store asks of documents, options, definitions and names.
#![tactic(auto)]

mod definitions;
mod documents;
mod names;
mod options;

pub use definitions::{is_good_definition, name_of, normal_of};
pub use documents::{begins_with_id, id_first, is_good_document};
pub use names::is_bad_name;
pub use options::{are_good_options, options_of};
