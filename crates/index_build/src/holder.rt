//! The holder of a key.
use bson_value::Bytes;
use index_keys::Key;

/// The document that has a key, by the key of its `_id`.
#[derive(Drop)]
pub(crate) struct Holder {
    pub(crate) key: Key,
    pub(crate) id: Bytes,
}
