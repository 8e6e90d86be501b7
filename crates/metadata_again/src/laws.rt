//! The laws of metadata that are read again.
ghost use Rattle.metadata_again.specs.Laws.{KeptIsReadAgain, StartIsReadAgain};

use metadata_text::written_is_read;

/// The metadata text that is written of a collection that is kept is read as its options and its definitions; so is
/// that of each collection at the start of a dump whose outcome is Done.
pub fn kept_is_read_again()
    ensures kept { KeptIsReadAgain }
    ensures start { StartIsReadAgain }
{
    written_is_read();
}
