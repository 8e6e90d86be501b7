//! Laws of entries. Each function does nothing, and its caller learns the law.
ghost use Rattle.entry_model.specs.Touches.{WrittenIsRead, WrittenIsDocument};
ghost use Rattle.entry_model.specs.Writable.{WritableReadsBack};

/// What is written of the touches of an update is read to the same touches, which record the update.
/// What is written of those again is read to them in that very order.
pub fn written_is_read()
    ensures { WrittenIsRead }
{}

/// What is written of the touches of an update has distinct names at every level.
pub fn written_is_document()
    ensures { WrittenIsDocument }
{}

/// The document of an entry that can be written is read as that entry.
pub fn entry_reads_back()
    ensures { WritableReadsBack }
{}
