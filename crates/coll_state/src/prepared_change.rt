//! A change that was made ready.
ghost use Rattle.std.specs.Prelude.{◌≡◌};
ghost use Rattle.bson_encode.specs.Key.{key_of};
ghost use Rattle.coll_state.specs.ChangeAll.{HasKey};

use crate::kept::KeptDocument;
use bson_value::{NsName, Value};
use containers::SmallBytes;

/// A change that needs no more memory but room in its collection.
#[derive(Drop)]
pub(crate) struct PreparedChange {
    pub(crate) ns: NsName,
    pub(crate) id: Value,
    pub(crate) key: SmallBytes,
    pub(crate) document: Option<KeptDocument>,
    ghost keyed: { key ≡ key_of id },
    ghost own: { HasKey key document },
}
