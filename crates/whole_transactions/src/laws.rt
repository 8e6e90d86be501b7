//! The laws of transactions that are made.
ghost use Rattle.whole_transactions.specs.Laws.{BeforeIsWhole, AtIsWhole};

use history_model::timestamps_rise;

/// The state just before a limit has all writes of a transaction or none.
pub fn before_is_whole()
    ensures { BeforeIsWhole }
{
    timestamps_rise();
}

/// So has that at the end of a copy, where that is earlier.
pub fn at_is_whole()
    ensures { AtIsWhole }
{
    timestamps_rise();
}
