//! The law of updates that change nothing.
ghost use Rattle.unchanged_updates.specs.Laws.{UnchangedIsUntouched};

/// Where an accepted update by operators that were read leaves the document as it was, order of fields included, it has no
/// touch. The converse is `no_touches_no_change` of `update_model`.
pub fn unchanged_is_untouched()
    ensures { UnchangedIsUntouched }
{}
