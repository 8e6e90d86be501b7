//! The law of the timestamps of entries.
ghost use Rattle.entry_times.specs.Laws.{TimestampsFit};

/// Seconds are those that the clock was set to, or 1 before. A line makes two entries at most, so an ordinal is at most
/// twice the number of lines, and one more.
pub fn timestamps_fit()
    ensures { TimestampsFit }
{}
