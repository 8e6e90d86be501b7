//! When the dump of a schedule is done, and where its window ends. Laws alone: each function does nothing, and its
//! caller learns the law.
#![tactic(auto)]

mod laws;

pub use laws::{
    done_dumps_are_marked, dumps_start, plain_dumps_are_done, quiet_dumps_are_done,
    source_makes_all, unmarked_dumps_end_last,
};
