//! Laws of the definitions. Each function does nothing, and its caller learns the law.
ghost use Rattle.archive_format.specs.Laws.{OneEnd, ContentOrFault, CrcByParts, HeadsAreRead, MetasAreRead, HeadersAreRead, WrittenSizes};

/// Each input has one longest clean front, and one end behind it.
pub fn one_end()
    ensures { OneEnd }
{}

/// An input has a content exactly where it has no fault, and each at most once.
pub fn content_or_fault()
    ensures { ContentOrFault }
{}

/// The checksum may be taken part by part.
pub fn crc_by_parts()
    ensures { CrcByParts }
{}

/// The header of a block that is written is read again.
pub fn heads_are_read()
    ensures { HeadsAreRead }
{}

/// Metadata that are written are read again.
pub fn metas_are_read()
    ensures { MetasAreRead }
{}

/// The header of a prelude that is written is read again.
pub fn headers_are_read()
    ensures { HeadersAreRead }
{}

/// How long each of these documents is.
pub fn written_sizes()
    ensures { WrittenSizes }
{}
