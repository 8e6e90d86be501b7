//! The laws of changes. Each function does nothing, and its caller learns the law.
ghost use Rattle.transactions.specs.Transactions.{ChangesAreWrites, ChangesAreCounted, ChangesKeepKeys, ChangesKeepTest, GoodChanges};

/// Changes make of collections what their writes make, and are counted.
pub fn changes_are_writes()
    ensures writes { ChangesAreWrites }
    ensures count { ChangesAreCounted }
{}

/// After changes that put each document under its own `_id` each document stands under the key of its `_id`, as before;
/// and where each one that is put passes a test, each one that stands does, as before.
pub fn changes_keep_documents()
    ensures keys { ChangesKeepKeys }
    ensures test { ChangesKeepTest }
{}

/// What a transaction changes is in collections that are there, and each document that it puts has the `_id` that its
/// change names, and is short.
pub fn good_changes()
    ensures { GoodChanges }
{}
