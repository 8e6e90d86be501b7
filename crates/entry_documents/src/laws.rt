//! The laws of entries as documents.
ghost use Rattle.entry_documents.specs.Laws.{EntriesAreDocuments, ItemsAreDocuments, EntrySizes, ItemSizes, EntryLevels, ItemLevels};

/// The fields of an entry whose parts are well-formed are a well-formed document, and so is an item of a group.
pub fn entries_are_documents()
    ensures entries { EntriesAreDocuments }
    ensures items { ItemsAreDocuments }
{}

/// The bytes and the levels of an entry, and of an item of a group, by those of its parts.
pub fn entry_sizes()
    ensures entries { EntrySizes }
    ensures items { ItemSizes }
    ensures entry_levels { EntryLevels }
    ensures item_levels { ItemLevels }
{}
