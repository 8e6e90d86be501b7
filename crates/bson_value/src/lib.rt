//! The values of BSON, documents, and what stands at each place of them.
#![tactic(auto)]

mod copy;
mod fields;
mod index;
mod laws;
mod length;
mod namespace;
mod order;
mod size;
mod sort;
mod timestamp;
pub mod type_byte;
mod value;
mod well_formed;

pub use containers::{BoxedCText, BoxedText, Bytes, CText, List, Text};
pub use fields::Fields;
pub use index::index_of;
pub use laws::alike_looks_the_same;
pub use namespace::NsName;
pub use order::same_up_to_order;
pub use value::{Doc, Ts, Value};
