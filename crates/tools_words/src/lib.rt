//! What the words of the command line mean.
#![tactic(auto)]

mod filter;
mod order;
mod table;
mod value;
mod words;

pub use order::{Order, RestoreOrder, SourceOrder};
pub use words::{WordsFault, read_words, rounds_are_few};
