//! An updated document.
use bson_value::{Doc, List};
use doc_path::Touch;

/// A document after an update, and the touches that record the update.
#[derive(Drop)]
pub struct Updated {
    pub doc: Doc,
    pub touches: List<Touch>,
}
