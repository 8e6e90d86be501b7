//! The laws. Each function does nothing, and its caller learns the law.
ghost use Rattle.archive_content.specs.Blocks.{BlockRuns, EndRuns};
ghost use Rattle.archive_content.specs.Laws.{WrittenIsContent};

use archive_format::{
    crc_by_parts, headers_are_read, heads_are_read, metas_are_read, written_sizes,
};

/// A block is read as its documents, and they enter the sum of their namespace.
pub fn block_is_read()
    ensures { BlockRuns }
{}

/// An end that says the right sum is read as the end of its namespace.
pub fn end_is_read()
    ensures { EndRuns }
{}

/// A prelude, and blocks and ends of any namespaces, mixed in any order, are an archive: its metadata texts, documents and
/// ends are those that were written, in their order. No block follows the end of its namespace, each namespace has its
/// end, and all is within the limits of the format.
pub fn written_is_content()
    ensures { WrittenIsContent }
{
    crc_by_parts();
    heads_are_read();
    headers_are_read();
    metas_are_read();
    written_sizes();
}
