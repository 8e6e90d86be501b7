//! The laws of the lines of schedules that were read.
ghost use Rattle.given_lines.specs.Laws.{ReadIsGiven, ReadIsShort, ReadIsTimed};

use plain_values::{json_is_formed, read_is_formed, read_is_plain};

/// Values, options and definitions are well-formed, and no document in a definition has an outermost name of a wrapper.
pub fn read_is_given()
    ensures { ReadIsGiven }
{
    json_is_formed();
    read_is_formed();
    read_is_plain();
}

/// The clock is set to seconds of 32 bits.
pub fn read_is_timed()
    ensures { ReadIsTimed }
{}

/// A schedule has as many lines as its text at most: what is passed over, the cap, and the lines of a transaction but
/// the last are none.
pub fn read_is_short()
    ensures { ReadIsShort }
{}
