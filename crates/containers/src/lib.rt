//! Texts, bytes and lists, which contracts see as lists.
#![tactic(auto)]

mod boxed;
mod inline;
mod list;
mod order;
mod small_bytes;
mod small_string;
mod text;

pub use boxed::{BoxedCText, BoxedText};
pub use list::List;
pub use small_bytes::SmallBytes;
pub use text::{Bytes, CText, Text};
