//! The four bytes that mark where an archive begins, and where a part of it ends.

/// The magic number, with which an archive begins.
pub const MAGIC: [u8; 4] = [0x6d, 0xe2, 0x99, 0x81];

/// The terminator: it stands behind a prelude, behind the documents of a block, and behind the header of an end.
pub const TERMINATOR: [u8; 4] = [255, 255, 255, 255];
