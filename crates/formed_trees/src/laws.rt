//! The law of the trees of values.
ghost use Rattle.formed_trees.specs.Laws.{TreesAreFormed};

/// The tree of a well-formed value is well-formed: its texts are UTF-8, its numbers are numbers of JSON, and the names
/// of each object are distinct.
pub fn trees_are_formed()
    ensures { TreesAreFormed }
{}
