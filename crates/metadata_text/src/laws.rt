//! The law of metadata texts. The function does nothing, and its caller learns the law.
ghost use Rattle.metadata_text.specs.RoundTrip.{WrittenIsRead};

/// A metadata text means the options and the definitions that it was written of, where the options have
/// no plain whole number, and the names of the definitions rise and aren't `_id_`.
pub fn written_is_read()
    ensures { WrittenIsRead }
{}
