//! Where the grammar of archives stands.

/// What may come next.
#[derive(Clone, Copy, Debug, PartialEq, Eq)]
pub enum Place {
    /// The magic number.
    Front,
    /// The header.
    Header,
    /// Metadata, or the terminator behind them.
    Metas,
    /// A block's header, or the end of the input.
    Blocks,
    /// Documents of the namespace with this number, in order of first sight, or the terminator behind them.
    Inside(usize),
    /// The terminator behind the end of that namespace, and the checksum that the end said.
    Ending(usize, Option<u64>),
}
