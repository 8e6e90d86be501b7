//! The law on the bytes of a value and of its print.
ghost use Rattle.tree_sizes.specs.Laws.{ValuesAreShort};

/// The spelling of a value whose tree prints to at most 8,192 bytes has at most eight times as many bytes as the print.
pub fn values_are_short()
    ensures { ValuesAreShort }
{}
