//! The law of deltas.
ghost use Rattle.delta_laws.specs.Laws.{DeltaIsRead};

use entry_model::written_is_read;

/// The delta of an accepted update, in either form, is read again: to touches that record the update, none of which is
/// left at once when they are played. What is written of those is the same delta.
pub fn delta_is_read()
    ensures { DeltaIsRead }
{
    written_is_read();
}
