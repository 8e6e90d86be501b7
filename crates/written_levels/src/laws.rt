//! The law on the levels of a delta.
ghost use Rattle.written_levels.specs.Laws.{WrittenIsShallow};

/// What is written of the touches of an update has at most two levels more than the new document.
pub fn written_is_shallow()
    ensures { WrittenIsShallow }
{}
