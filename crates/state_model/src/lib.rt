//! States, what entries of the oplog make of them, and when two states agree. Laws alone: each function
//! does nothing, and its caller learns the law.
#![tactic(auto)]

mod laws;

pub use laws::{
    agreed_for_no_moves, cut_is_replayed, made_moves, moves_change_what_they_cover,
    moves_cover_all_below, names_are_ordered, record_heals, replay_keeps_agreement,
    same_is_shown_alike, window_heals,
};
