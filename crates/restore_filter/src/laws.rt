//! What the functions of a filter mean. Each function does nothing, and its caller learns the law.
ghost use Rattle.restore_filter.specs.Laws.{MatchesAreFound, ShortestIsFound, OneIsShortest, RenamedIsFound, TakenIsFound, NewNameIsFound, NamesStay};

/// A pattern is found to match exactly where it matches.
pub fn matches_are_found()
    ensures { MatchesAreFound }
{}

/// The shortest texts of the stars are found, and there is one list of them at most.
pub fn shortest_is_found()
    ensures found { ShortestIsFound }
    ensures one { OneIsShortest }
{}

/// A text is renamed exactly as the shortest texts of the stars say it.
pub fn renamed_is_found()
    ensures { RenamedIsFound }
{}

/// A name is found to be taken exactly where the rules take it.
pub fn taken_is_found()
    ensures { TakenIsFound }
{}

/// The new name that is found is the one that the rules give.
pub fn new_name_is_found()
    ensures { NewNameIsFound }
{}

/// Without pairs that rename each name stays.
pub fn names_stay()
    ensures { NamesStay }
{}
