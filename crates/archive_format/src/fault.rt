//! Why bytes are no archive.

use bson_check::BsonKind;
use bson_value::NsName;

/// What is wrong with bytes that are no archive. `at` is the place of the first byte of the item that was looked at.
#[derive(Debug, Drop)]
pub enum FormatFault {
    /// The input doesn't begin with the magic number.
    BadMagic,
    /// The input ends inside an item, or where an item must stand. `at` is its length.
    Truncated { at: u64 },
    /// The document that begins there isn't one of at most 16,793,600 bytes and 200 levels.
    BadBson { at: u64, kind: BsonKind },
    /// A header or metadata of another shape, a terminator in the header's place, or a namespace that has metadata already.
    BadPrelude { at: u64 },
    /// A block's header of another shape, or a terminator in its place.
    BadHeader { at: u64 },
    /// A header of a namespace that was ended.
    AfterEnd { ns: NsName, at: u64 },
    /// No terminator behind a header that ends its namespace.
    DocsInEnd { at: u64 },
    /// The checksum that a namespace's end says, as unsigned bits, isn't that of its documents.
    Crc { ns: NsName, said: u64, found: u64 },
    /// The input ends, and this namespace didn't: the first of those that a header named.
    NotEnded { ns: NsName },
    /// The input has more than 281,474,976,710,656 bytes.
    TooLong,
}
