//! Index definitions, and the keys that documents have in an index.
#![tactic(auto)]

mod branches;
mod cells;
mod fault;
mod key;
mod laws;
mod normal_form;
mod parallel;
mod parts;
mod plan;
mod products;
mod reading;
mod well_formed;

pub use fault::KeyFault;
pub use key::{Key, Keys};
pub use laws::{alike_documents, dotted_parts, normal_once, one_text, texts_of_keys};
pub use normal_form::normal;
pub use plan::{Plan, Planned};
pub use reading::keys;
pub use well_formed::held_is_well_formed;
