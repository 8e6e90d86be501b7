//! Documents whose bytes are changed at one field, without being read.
#![tactic(auto)]

mod below;
mod element;
mod element_below;
mod item;
mod levels;
mod pieces;
mod splicing;

pub use below::{with_field_below, without_field_below};
pub use element::with_element;
pub use element_below::with_element_below;
pub use item::with_item;
pub use splicing::{with_field, without_field};
