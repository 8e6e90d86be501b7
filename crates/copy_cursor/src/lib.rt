//! Cursors over the collections of a store, which copy the documents while commands change them.
#![tactic(auto)]

mod cursor;

pub use cursor::Cursor;
