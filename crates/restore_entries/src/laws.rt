//! The law of what is kept of entries. The function does nothing, and its caller learns it.
ghost use Rattle.restore_entries.specs.Laws.{CutIsTaken};

/// What is kept of an entry stands for those of its moves that the filter takes.
pub fn cut_is_taken()
    ensures { CutIsTaken }
{}
