//! How far an archive was read.

use crate::metas::Metas;
use crate::namespaces::Namespaces;
use archive_format::Place;
use std::alloc::Global;

/// Where the grammar stands, the namespaces of the metadata, and those that headers named.
#[derive(Drop)]
pub struct Progress {
    pub alloc: Global,
    pub place: Place,
    pub metas: Metas,
    pub seen: Namespaces,
}
