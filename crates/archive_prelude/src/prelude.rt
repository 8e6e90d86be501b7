//! What a prelude has.

use bson_value::{List, NsName, Text};

/// The metadata of a namespace, as text.
#[derive(Debug, Drop)]
pub struct Meta {
    pub ns: NsName,
    pub text: Text,
}

/// How many collections were dumped side by side, the versions of the server and of the tool, and the metadata.
#[derive(Debug, Drop)]
pub struct Prelude {
    pub concurrent: i32,
    pub server: Text,
    pub tool: Text,
    pub metas: List<Meta>,
}
