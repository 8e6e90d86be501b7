//! The laws of the grammar. Each function does nothing, and its caller learns the law.
ghost use Rattle.bson_check.specs.Spells.{SpelledOnce, LevelsNeeded};
ghost use Rattle.bson_check.specs.Faults.{FaultlessIfSpelled};

/// Bytes spell one document at most.
pub fn spelled_once()
    ensures { SpelledOnce }
{}

/// Levels are enough for a document exactly where there are as many as it has.
pub fn levels_needed()
    ensures { LevelsNeeded }
{}

/// There is no fault exactly where some document within the limits is spelled.
pub fn faultless_if_spelled()
    ensures { FaultlessIfSpelled }
{}
