//! The laws of what an update leaves.
ghost use Rattle.update_bounds.specs.Laws.{UpdatesKeepFirst, UpdatesAreSmall};

/// Where `_id` is the first field of a document, it is the first field after an accepted update, with the same value.
pub fn updates_keep_first()
    ensures { UpdatesKeepFirst }
{}

/// The document after an accepted update has at most 16,777,216 bytes and 100 levels.
pub fn updates_are_small()
    ensures { UpdatesAreSmall }
{}
