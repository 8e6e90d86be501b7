//! The laws of commands on rows without index definitions. The function does nothing, and its caller learns the laws.
ghost use Rattle.transaction_indexes.specs.Laws.{ChangesAreSame, RefusalsAreSame, IndexesDecide, UnchangedIsAccepted};

/// On rows without definitions which show a command of a transaction the document that it names as other rows do, it makes
/// the same and is refused alike, but by the indexes; and those refuse it exactly where they refuse its write.
pub fn indexes_decide()
    ensures changes { ChangesAreSame }
    ensures refusals { RefusalsAreSame }
    ensures writes { IndexesDecide }
    ensures unchanged { UnchangedIsAccepted }
{}
