//! Collections by their names.
ghost use Rattle.std.specs.Prelude.{IfOk};
ghost use Rattle.row_script.specs.Names.{Names};

use crate::texts::refused;
use anyhow::Result;
use bson_value::NsName;
use std::alloc::Global;

/// The collection that the text names.
pub fn namespace(alloc: Global, text: &str) -> Result<NsName>
    ensures { IfOk result (λ ns. Names text.now ns) }
{
    match NsName::split(alloc, text)? {
        Some(ns) => Ok(ns),
        None => refused("no namespace"),
    }
}
