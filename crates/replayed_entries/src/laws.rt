//! The law of the moves of recorded entries.
ghost use Rattle.replayed_entries.specs.Laws.{GoodMovesAre, GoodIsPlayed};

/// The entry of what is recorded stands, where it is replayed, for the moves of what was recorded; none but a
/// rename is refused.
pub fn good_moves()
    ensures moves { GoodMovesAre }
    ensures played { GoodIsPlayed }
{}
