//! The law of the base of a dump's archive.
ghost use Rattle.archive_base.specs.Laws.{BaseIsCopy};

use dump_content::takings_are;

/// Of the archive of a dump whose outcome is Done, and by a filter that gives no new names: the metadata, documents and
/// ends make what the filter takes of the copy: the options and definitions of the collections at Start, and of each
/// document what was read of it last.
pub fn base_is_copy()
    ensures { BaseIsCopy }
{
    takings_are();
}
