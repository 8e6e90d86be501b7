//! The laws of the bytes of entries and documents.
ghost use Rattle.entry_bytes.specs.Laws.{EntriesAreRead, DocumentsAreRead};

/// The bytes of a good entry are a document of at most 16,793,600 bytes and 200 levels, which a reader of archives
/// reads as the entry's fields. So are those of a document that is kept.
pub fn entries_are_read()
    ensures entries { EntriesAreRead }
    ensures documents { DocumentsAreRead }
{}
