//! The laws of rows. The function does nothing, and its caller learns them.
ghost use Rattle.coll_state.specs.Laws.{PutIsMove, RemoveIsMove, CreateIsMove, DropIsMove, DropDbIsMove, AddIndexIsMove, DropIndexIsMove, RenameMoves, DescribedAnew};

/// What a call makes of the rows is, without record numbers and incarnations, the move of its name. A
/// renamed collection is moved whole.
pub fn changes_are_moves()
    ensures put { PutIsMove }
    ensures remove { RemoveIsMove }
    ensures create { CreateIsMove }
    ensures drop_ns { DropIsMove }
    ensures drop_db { DropDbIsMove }
    ensures add_index { AddIndexIsMove }
    ensures drop_index { DropIndexIsMove }
    ensures rename { RenameMoves }
    ensures describe { DescribedAnew }
{}
