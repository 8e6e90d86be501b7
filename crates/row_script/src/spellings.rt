//! Documents that stand as their bytes, or as the hexadecimal digits of these.
ghost use Rattle.std.specs.Prelude.{IfOk};
ghost use Rattle.row_script.specs.Spellings.{Spell, Write};

use crate::texts::{bytes, refused};
use anyhow::Result;
use bson_check::{MAX_DOCUMENT_BYTES, MAX_LEVELS};
use bson_core::decode;
use bson_value::Doc;
use std::alloc::Global;

/// The document that bytes spell.
pub fn document(alloc: Global, spelling: &[u8]) -> Result<Doc>
    ensures { IfOk result (λ doc. Spell spelling.now doc) }
{
    match decode(alloc, spelling, MAX_DOCUMENT_BYTES, MAX_LEVELS) {
        Ok(doc) => Ok(doc),
        Err(_) => refused("no document"),
    }
}

/// The document that the digits write.
#[tactic(auto, unfolding(crate::specs::Spellings::Write))]
pub fn written(alloc: Global, text: &str) -> Result<Doc>
    ensures { IfOk result (λ doc. Write text.now doc) }
{
    let spelling = bytes(alloc, text)?;
    document(alloc, &spelling)
}
