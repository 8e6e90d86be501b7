//! Why a command is refused.

/// Why the store refuses a command, and is as before. Where several hold, the first of them is told.
#[derive(Clone, Copy, Debug, PartialEq, Eq)]
pub enum Refused {
    /// There is no such collection, or the database has none.
    NoSuchNamespace,
    /// A collection to be made is there.
    NamespaceExists,
    /// An inserted document has the `_id` of one that is there.
    DuplicateId,
    /// No document has the `_id`.
    NoSuchDocument,
    /// A unique index would have a key of two documents.
    DuplicateKey,
    /// A document would have two array fields of an index.
    ParallelArrays,
    /// The collection has an index of this name, or it is `_id_`.
    IndexExists,
    /// The collection has no index of this name.
    NoSuchIndex,
    /// The document, the options or the definition break the rules of documents to be stored.
    BadDocument,
    /// The operators can't be read, or the document refuses them.
    BadUpdate,
    /// A namespace to be made breaks the rules of names, or a rename leaves its database.
    BadName,
    /// The clock would go back.
    ClockBack,
    /// The collection has 63 indexes.
    TooManyIndexes,
    /// The entry of a transaction would have more than 16,793,600 bytes.
    TooLarge,
}
