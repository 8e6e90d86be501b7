//! Entries of the oplog.
use bson_value::{Doc, List, NsName, Text, Ts, Value};
use doc_path::{Form, Touch};

/// What an entry does.
#[derive(Drop)]
#[cycle(entries)]
pub enum Action {
    /// Nothing: the first entry of an oplog, or a step of an index build that changes no state.
    Nothing,
    Put {
        doc: Doc,
    },
    Remove {
        id: Value,
    },
    Whole {
        id: Value,
        doc: Doc,
    },
    Delta {
        id: Value,
        form: Form,
        touches: List<Touch>,
    },
    Create {
        options: Doc,
    },
    DropColl,
    DropDb,
    AddIndexes {
        defs: List<Doc>,
    },
    DropIndex {
        name: Text,
    },
    Rename {
        from: NsName,
        to: NsName,
    },
    Group {
        entries: List<Entry>,
    },
    Other {
        name: Text,
    },
}

/// An entry of the oplog.
#[derive(Drop)]
#[cycle(entries)]
pub struct Entry {
    pub ts: Ts,
    pub ns: NsName,
    pub action: Action,
}
