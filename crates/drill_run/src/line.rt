//! The line of a drill.
ghost use Rattle.std.specs.Prelude.{◌≡◌, IfOk, string_bytes};
ghost use Rattle.drill_run.specs.Drills.{dump_text, counts_line};

use std::alloc::{AllocError, Global};

/// What a drill counts.
#[derive(Clone, Copy, Debug)]
pub(crate) struct Counts {
    /// The lines of the schedule, that of the cap too.
    pub lines: usize,
    /// The documents that the dump read.
    pub documents: u64,
    /// The entries in its window.
    pub entries: u64,
    /// The collections of the source.
    pub namespaces: usize,
    /// The bytes of the archive.
    pub bytes: usize,
}

fn dump_text(alloc: Global, counts: Counts) -> Result<String, AllocError>
    ensures { IfOk result (λ s. string_bytes s ≡ dump_text counts) }
{
    let lines = counts.lines;
    let documents = counts.documents;
    let entries = counts.entries;
    format!(in alloc; "lines {lines} documents {documents} entries {entries}")
}

/// The line of these counts, with a word that says whether what was restored is the source.
pub(crate) fn counts_line(alloc: Global, counts: Counts, equal: &str) -> Result<String, AllocError>
    ensures { IfOk result (λ s. string_bytes s ≡ counts_line counts equal.now) }
{
    let text = dump_text(alloc, counts)?;
    let namespaces = counts.namespaces;
    let bytes = counts.bytes;
    format!(in alloc; "{text} namespaces {namespaces} bytes {bytes} equal {equal}\n")
}
