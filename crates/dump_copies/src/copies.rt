//! Cursors with the writers of their collections.
ghost use Rattle.std.specs.Prelude.{◌≡◌, ◌<◌, ◌≤◌, ◌+◌, ◌^◌, length, slice_get, false, true, None, Some, OnOk, OnErr, IfOk, IfSome, IsErrOf, IsTrue};
ghost use Rattle.std.specs.FinMap as map;
ghost use Rattle.std.specs.Io.KnownBytes.{Appends};
ghost use Rattle.bson_value.specs.NamespaceOrder.{namespace_cmp};
ghost use Rattle.tool_io.specs.Causes.{Rose, AppendsFront};
ghost use Rattle.archive_format.specs.Written.{with_documents};
ghost use Rattle.coll_state.specs.Stock.{Rise};
ghost use Rattle.history_model.specs.Runs.{looked, all_ended};
ghost use Rattle.dump_model.specs.Archives.{document_texts, oplog};
ghost use Rattle.dump_copies.specs.Writing.{read_text};
ghost use Rattle.dump_copies.specs.Steps.{begin, ComesTo};
ghost use Rattle.dump_copies.specs.Places.{name_of, IsPlaceOf, IsWritable, FirstCopy};

use crate::writing::write_read;
use archive_blocks::BlockWriter;
use bson_value::{Bytes, List, NsName};
use copy_cursor::Cursor;
use std::alloc::{AllocError, Global};
use std::marker::Model;
use store_core::Store;
use tool_io::{Fault, Sink};

/// The most bytes of both names of a namespace whose headers fit a document.
const MOST_NAME_BYTES: usize = 16793550;

#[derive(Drop)]
pub(crate) struct CollectionCopy {
    cursor: Cursor,
    writer: BlockWriter,
}

// Whether headers of blocks can have this name, and it isn't that of the oplog.
fn is_writable(ns: &NsName) -> bool
    ensures { IsTrue result → IsWritable ns.now }
{
    !ns.db.is_empty() && ns.db.len().saturating_add(ns.coll.len()) <= MOST_NAME_BYTES
}

// A cursor before the first document of a collection, and its writer.
fn begin_one(alloc: Global, store: &Store, ns: &NsName) -> Result<CollectionCopy, AllocError>
    requires { map.contains_key store.now.rows.tables ns.now ≡ true }
    ensures first { IfOk result (FirstCopy ns.now (map.get store.now.rows.tables ns.now)) }
    ensures writable { OnOk result (IsWritable ns.now) }
{
    if !is_writable(ns) {
        return Err(AllocError);
    }
    let Some(cursor) = Cursor::begin(alloc, store, ns)? else {
        unreachable!();
    };
    let name = ns.copy(alloc)?;
    Ok(CollectionCopy {
        cursor,
        writer: BlockWriter::new(alloc, name),
    })
}

impl CollectionCopy {
    // The next documents, read and written. `block` is where they are gathered.
    fn step<K: Sink>(
        &mut self,
        store: &Store,
        n: u32,
        block: &mut List<Bytes>,
        sink: &mut K,
    ) -> Result<usize, Fault>
        requires { self.old.cursor.cursor.ended ≡ false }
        ensures name { self.new.cursor.ns ≡ self.old.cursor.ns }
        ensures count { IfOk result (λ count. count ≡ length (looked n self.old.cursor.cursor (map.get store.now.rows.tables self.old.cursor.ns)).0) }
        ensures cursor { OnOk result (self.new.cursor.cursor ≡ (looked n self.old.cursor.cursor (map.get store.now.rows.tables self.old.cursor.ns)).1) }
        ensures writer { OnOk result (self.new.writer ≡ with_documents self.old.writer (document_texts (looked n self.old.cursor.cursor (map.get store.now.rows.tables self.old.cursor.ns)).0)) }
        ensures ok { OnOk result (Appends (K.end sink.old).bytes (K.end sink.new).bytes (read_text self.old.writer (document_texts (looked n self.old.cursor.cursor (map.get store.now.rows.tables self.old.cursor.ns)).0) (looked n self.old.cursor.cursor (map.get store.now.rows.tables self.old.cursor.ns)).1.ended)) }
        ensures err { OnErr result (AppendsFront (K.end sink.old).bytes (K.end sink.new).bytes (read_text self.old.writer (document_texts (looked n self.old.cursor.cursor (map.get store.now.rows.tables self.old.cursor.ns)).0) (looked n self.old.cursor.cursor (map.get store.now.rows.tables self.old.cursor.ns)).1.ended)) }
        ensures later { (K.end sink.old).faults ≤ (K.end sink.new).faults }
        ensures failed { IsErrOf result Fault.Failed → Rose (K.end sink.old).faults (K.end sink.new).faults }
    {
        block.truncate(0);
        let ended = match self.cursor.step(store, n, block) {
            Ok(ended) => ended,
            Err(_) => return Err(Fault::NoMemory),
        };
        match write_read(&mut self.writer, block, ended, sink) {
            Ok(()) => Ok(block.len()),
            Err(fault) => Err(fault),
        }
    }
}

// Where the copy of this name is.
fn place_of(items: &[CollectionCopy], ns: &NsName) -> Option<usize>
    ensures bound { IfSome result (λ at. at < length items.now) }
    ensures place { Rise namespace_cmp name_of items.now → IsPlaceOf items.now ns.now result }
{
    match items.binary_search_by(|copy| copy.cursor.ns().cmp(ns)) {
        Ok(at) => Some(at),
        Err(_) => None,
    }
}

/// A cursor on each collection of a state as it stood when a dump began, with the writer of its blocks, by name.
#[derive(Drop)]
pub struct Copies {
    items: Vec<CollectionCopy>,
    open: usize,
}

impl Model for Copies {
    ghost use Rattle.dump_copies.specs.Steps.{Copying, copies_code};

    ghost Value = { Copying };

    ghost coded = { copies_code };

    ghost use Rattle.dump_copies.specs.Places.{copies_in, AreCopies};

    ghost view = { λ c. copies_in c.items.items };

    ghost invariant = { λ c. AreCopies c.items.items c.open };
}

impl Copies {
    /// A cursor on each collection that is there, before its first document. Where a name is too long for the header of a
    /// block, or is that of the oplog, the answer is want of memory; names that commands make are neither.
    pub fn begin(alloc: Global, store: &Store) -> Result<Copies, AllocError>
        ensures begun { IfOk result (λ copies. copies ≡ begin store.now.rows) }
        ensures others { IfOk result (λ copies. map.get copies.cursors oplog ≡ None) }
    {
        let mut items = Vec::new(alloc);
        let mut left = store.state().namespaces();
        'collections: while let Some(ns) = left.next() {
            let copy = begin_one(alloc, store, ns)?;
            items.push(copy)?;
        }
        let open = items.len();
        Ok(Copies { items, open })
    }

    /// The name of the cursor at a place, in the order of names.
    pub fn name(&self, alloc: Global, at: usize) -> Result<Option<NsName>, AllocError>
        ensures name { IfOk result (λ name. name ≡ slice_get (map.keys self.now.cursors) at) }
        ensures within { IfOk result (λ name. IfSome name (λ n. at + 1 < 2 ^ 64)) }
    {
        if at < self.items.len() {
            let name = self.items[at].cursor.ns().copy(alloc)?;
            Ok(Some(name))
        } else {
            Ok(None)
        }
    }

    /// Whether each cursor has ended.
    pub fn have_ended(&self) -> bool
        ensures { result ≡ all_ended self.now.cursors }
    {
        self.open == 0
    }

    /// The next n documents of a collection, read and written as one block, and where the cursor ended, at once the end of
    /// their namespace. Tells how many documents they are, or None where no cursor of this name reads on. `block` is where
    /// they are gathered; what it holds is dropped. Behind an error some front of the block was written, and the copies are of
    /// no use.
    pub fn step<K: Sink>(
        &mut self,
        store: &Store,
        ns: &NsName,
        n: u32,
        block: &mut List<Bytes>,
        sink: &mut K,
    ) -> Result<Option<usize>, Fault>
        ensures step { ComesTo result self.old self.new ns.now n (map.get store.now.rows.tables ns.now) (K.end sink.old) (K.end sink.new) }
        ensures names { map.keys self.new.cursors ≡ map.keys self.old.cursors }
        ensures later { (K.end sink.old).faults ≤ (K.end sink.new).faults }
        ensures failed { IsErrOf result Fault.Failed → Rose (K.end sink.old).faults (K.end sink.new).faults }
    {
        let Some(at) = place_of(self.items.as_slice(), ns) else {
            return Ok(None);
        };
        if self.items[at].cursor.has_ended() {
            return Ok(None);
        }
        let copy = &mut self.items[at];
        let count = copy.step(store, n, block, sink);
        if self.items[at].cursor.has_ended() {
            self.open -= 1;
        }
        match count {
            Ok(count) => Ok(Some(count)),
            Err(fault) => Err(fault),
        }
    }
}
