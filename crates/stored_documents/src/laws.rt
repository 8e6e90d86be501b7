//! The laws of documents that commands store.
ghost use Rattle.stored_documents.specs.Laws.{IdFirstKeepsId, IdFirstIsNoLarger, GoodHasId, GoodIsShort, UpdateKeepsId, UpdateIsShort};

/// A document with its `_id` first has the same `_id`, and no more bytes nor levels.
pub fn id_first_is_alike()
    ensures id { IdFirstKeepsId }
    ensures size { IdFirstIsNoLarger }
{}

/// A document that may be stored has an `_id`, and at most 16,777,216 bytes and 100 levels.
pub fn stored_documents_are_good()
    ensures id { GoodHasId }
    ensures short { GoodIsShort }
{}

/// The document after an update that is accepted has the `_id` of the one before, and at most 16,777,216 bytes and
/// 100 levels.
pub fn updates_keep_documents_good()
    ensures id { UpdateKeepsId }
    ensures short { UpdateIsShort }
{}
