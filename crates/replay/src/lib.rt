//! Entries of the oplog, replayed on the collections of a server.
#![tactic(auto)]

mod actions;
mod counting;
mod fault;
mod field_below;
mod indexes;
mod item;
mod laws;
mod own_field;
mod playing;
mod refusals;
mod splicing;
mod touched_fields;

pub use actions::play_action;
pub use counting::item_count;
pub use fault::ReplayFault;
pub use field_below::splice_below;
pub use item::splice_item;
pub use laws::made_steps;
pub use own_field::splice_field;
pub use playing::replay;
pub use refusals::is_config;
