//! Commands to the store.
use bson_value::{Doc, List, NsName, Text, Value};
use doc_path::Form;

/// A command that changes one document. These alone may stand in a transaction.
#[derive(Drop)]
pub enum DocumentCommand {
    Insert { ns: NsName, doc: Doc },
    /// The document stands in the place of the one with its `_id`.
    Replace { ns: NsName, doc: Doc },
    /// The operators of `ops` act on the document with this `_id`.
    Update { ns: NsName, id: Value, ops: Doc },
    /// The document with this `_id` is removed.
    Delete { ns: NsName, id: Value },
}

/// A command to the store.
#[derive(Drop)]
pub enum Command {
    /// The clock shows this second since 1970.
    At(u32),
    /// The form of the entries of later updates.
    Recording(Form),
    Create { ns: NsName, options: Doc },
    DropColl { ns: NsName },
    DropDatabase { db: Text },
    Rename { from: NsName, to: NsName },
    Document(DocumentCommand),
    CreateIndex { ns: NsName, def: Doc },
    DropIndex { ns: NsName, name: Text },
    /// These commands take effect at one moment, all or none.
    Txn { commands: List<DocumentCommand> },
}
