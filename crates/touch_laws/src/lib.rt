//! Laws of touches: what playing them keeps, when documents agree, what a record of an update is, and
//! that plain changes of a document are touches that are played.
#![tactic(auto)]

mod laws;
mod plain;

pub use laws::{
    agreed_for_no_touches, agrees_with_itself, any_order_records, changes_what_it_covers,
    differences_are_covered, done_touches, more_touches_agree, playing_keeps_agreement,
    record_heals, record_law, touches_cover_all_below,
};
pub use plain::{plain_changes_are_played, resize_is_recorded, set_is_recorded, unset_is_recorded};
