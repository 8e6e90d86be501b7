//! A document in an index.
ghost use Rattle.std.specs.Prelude.{◌≡◌};
ghost use Rattle.bson_encode.specs.Key.{key_of};

use bson_value::{Bytes, Value};
use index_keys::Keys;

/// The keys of a document, under the key of its `_id`.
#[derive(Drop)]
pub(crate) struct Entry {
    pub(crate) key: Bytes,
    pub(crate) id: Value,
    pub(crate) keys: Keys,
    ghost keyed: { key ≡ key_of id },
}
