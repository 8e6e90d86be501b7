//! Documents that are read where they lie, in the bytes that spell them.
#![tactic(auto)]

mod document_bytes;
mod elem;
mod elements;
mod fields;
mod held;
mod laws;
mod leaf;
mod value_ref;
mod view;
mod walk;

pub use bson_check::BsonFault;
pub use document_bytes::DocumentBytes;
pub use elem::Elem;
pub use elements::Elements;
pub use fields::{Field, Fields};
pub use held::{Held, HeldValue};
pub use laws::{leaf_spelled_once, one_document, one_value};
pub use value_ref::ValueRef;
pub use view::View;
pub use walk::{HeldField, HeldFields, HeldItems};
