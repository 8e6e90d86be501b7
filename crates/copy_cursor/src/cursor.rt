//! A cursor.
ghost use Rattle.std.specs.Prelude.{◌≡◌, ◌++◌, length, take, true, option_map, OnOk, OnErr, IfOk};
ghost use Rattle.std.specs.FinMap as map;
ghost use Rattle.bson_value.specs.Spelling.{document_text};
ghost use Rattle.bson_view.specs.Held.{held_document};
ghost use Rattle.coll_state.specs.Kept.{look, look_of, is_short};
ghost use Rattle.coll_state.specs.Rows.{last_no};
ghost use Rattle.coll_state.specs.Changes.{rows_after};
ghost use Rattle.coll_state.specs.Walks.{looks_left};
ghost use Rattle.dump_model.specs.Archives.{document_texts};
ghost use Rattle.copy_cursor.specs.Steps.{begun_on, stepped, is_begun_on};
ghost use Rattle.copy_cursor.specs.Looks.{AllShort, texts_shown, last_shown};

use bson_value::{Bytes, List, NsName};
use bson_view::Held;
use coll_state::After;
use std::alloc::{AllocError, Global};
use std::marker::Model;
use store_core::Store;

// A copy of the bytes that a short document is kept as.
fn spelling(alloc: Global, document: Held<'_>) -> Result<Bytes, AllocError>
    requires look { look_of document ≡ look (held_document document) }
    requires short { is_short (held_document document) ≡ true }
    ensures { IfOk result (λ bytes. bytes ≡ document_text (held_document document.entry)) }
{
    match document {
        Held::Spelled(view) => Bytes::of(alloc, view.bytes()),
        Held::Built(_) => unreachable!(),
    }
}

// Adds the documents of a walk, and tells the number of the last one.
fn add_all(
    alloc: Global,
    documents: After<'_>,
    position: u128,
    out: &mut List<Bytes>,
) -> Result<u128, AllocError>
    requires { AllShort (looks_left documents) }
    ensures last { IfOk result (λ last. last ≡ last_shown position (looks_left documents.entry)) }
    ensures texts { OnOk result (out.new ≡ out.old ++ texts_shown (looks_left documents.entry)) }
    ensures front { OnErr result (take (length out.old) out.new ≡ out.old) }
{
    let mut left = documents;
    let mut last = position;
    'documents: while let Some(item) = left.next() {
        let bytes = spelling(alloc, item.1)?;
        out.push(bytes)?;
        last = item.0;
    }
    Ok(last)
}

// Adds the first n documents behind a record number, and tells the number of the last one.
fn add_behind(
    alloc: Global,
    store: &Store,
    ns: &NsName,
    position: u128,
    n: usize,
    out: &mut List<Bytes>,
) -> Result<u128, AllocError>
    ensures last { IfOk result (λ last. last ≡ last_no position (rows_after position n (map.get store.now.rows.tables ns.now))) }
    ensures documents { OnOk result (out.new ≡ out.old ++ document_texts (rows_after position n (map.get store.now.rows.tables ns.now))) }
    ensures err { OnErr result (out.new ≡ out.old) }
{
    store.is_short();
    let before = out.len();
    let documents = store.state().after(ns, position, n);
    match add_all(alloc, documents, position, out) {
        Ok(last) => Ok(last),
        Err(fault) => {
            out.truncate(before);
            Err(fault)
        }
    }
}

/// Reads the documents of one collection in record order, as they stand at each step. It ends where no more are left,
/// and where the collection was dropped, made anew or renamed. In contracts it is the collection's name, with the cursor
/// as the model of copies has it.
#[derive(Drop)]
pub struct Cursor {
    alloc: Global,
    ns: NsName,
    incarnation: u128,
    position: u128,
    ended: bool,
}

impl Model for Cursor {
    ghost use Rattle.copy_cursor.specs.Steps.{NamedCursor};

    ghost Value = { NamedCursor };

    ghost view = { λ c. record { ns = c.ns; cursor = record { incarnation = c.incarnation; position = c.position; ended = c.ended } } };
}

impl Cursor {
    /// A cursor before the first document of a collection, if that is there.
    pub fn begin(alloc: Global, store: &Store, ns: &NsName) -> Result<Option<Cursor>, AllocError>
        ensures { IfOk result (λ cursor. cursor ≡ option_map (begun_on ns.now) (map.get store.now.rows.tables ns.now)) }
    {
        let Some(incarnation) = store.state().incarnation(ns) else {
            return Ok(None);
        };
        Ok(Some(Cursor {
            alloc,
            ns: ns.copy(alloc)?,
            incarnation,
            position: 0,
            ended: false,
        }))
    }

    /// The collection.
    pub fn ns(&self) -> &NsName
        ensures { result.now ≡ self.now.ns }
    {
        &self.ns
    }

    /// Whether it reads nothing more.
    pub fn has_ended(&self) -> bool
        ensures { result ≡ self.now.cursor.ended }
    {
        self.ended
    }

    // Whether its collection is still the one on which it was begun.
    fn is_there(&self, store: &Store) -> bool
        ensures { result ≡ is_begun_on self.now.cursor (map.get store.now.rows.tables self.now.ns) }
    {
        match store.state().incarnation(&self.ns) {
            Some(incarnation) => incarnation == self.incarnation,
            None => false,
        }
    }

    /// Adds the next n documents, as the bytes that they are kept as, and tells whether the cursor has ended: fewer than n
    /// were left, or the collection isn't the one on which it was begun. Then it reads nothing more.
    pub fn step(&mut self, store: &Store, n: u32, out: &mut List<Bytes>) -> Result<bool, AllocError>
        ensures cursor { OnOk result (self.new ≡ record self.old { cursor = (stepped n self.old.cursor (map.get store.now.rows.tables self.old.ns)).1 }) }
        ensures documents { OnOk result (out.new ≡ out.old ++ document_texts (stepped n self.old.cursor (map.get store.now.rows.tables self.old.ns)).0) }
        ensures ended { IfOk result (λ ended. ended ≡ self.new.cursor.ended) }
        ensures err { OnErr result ((self.new ≡ self.old) × (out.new ≡ out.old)) }
    {
        if self.ended {
            return Ok(true);
        }
        if !self.is_there(store) {
            self.ended = true;
            return Ok(true);
        }
        let before = out.len();
        self.position = add_behind(self.alloc, store, &self.ns, self.position, n as usize, out)?;
        self.ended = out.len() - before < n as usize;
        Ok(self.ended)
    }
}
