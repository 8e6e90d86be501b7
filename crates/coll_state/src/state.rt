//! The collections of a server.
ghost use Rattle.std.specs.Prelude.{length, ◌≡◌, ◌+◌, ◌<◌, ◌^◌, OnOk, OnErr, IfOk, IfSome, is_some, option_map, true, false, Some, None, ◌≢◌, map as each};
ghost use Rattle.std.specs.Option.{option_copied};
ghost use Rattle.std.specs.FinMap as map;
ghost use Rattle.bson_encode.specs.Key.{key_of};
ghost use Rattle.state_model.specs.States.{no_options};
ghost use Rattle.coll_state.specs.Rows.{id_of, key_in, AreSound};
ghost use Rattle.coll_state.specs.Changes.{no_rows, put, remove, create, describe, drop_ns, drop_db, rename, add_index, drop_index, document_at, number_at, has_index, rows_after};
ghost use Rattle.coll_state.specs.Definitions.{definition_name};
ghost use Rattle.coll_state.specs.Documents.{documents_by_key};
ghost use Rattle.coll_state.specs.Walks.{names_left, looks, looks_left};
ghost use Rattle.bson_value.specs.Spelling.{document_text};
ghost use Rattle.bson_view.specs.Held.{held_document};
ghost use Rattle.bson_view.specs.Kept.{kept_bytes, kept_document};
ghost use Rattle.coll_state.specs.ChangeAll.{AreThere, HaveIds, change_all};
ghost use Rattle.coll_state.specs.Kept.{is_short, shown, shown_in};

use crate::change::{self, Change};
use crate::collection::Collection;
use crate::documents::Documents;
use crate::kept::KeptDocument;
use crate::keys::{key_in, key_in_bytes};
use crate::tables::{self, Tables};
use crate::walks::{After, Namespaces};
use bson_value::{Doc, List, NsName, Value};
use bson_view::{DocumentBytes, Held};
use containers::{List as JList, SmallBytes};
use json_tree::{Fields, Tree};
use sorted_list::Walk;
use std::alloc::{AllocError, Global};
use std::collections::BTreeMap;
use std::marker::Model;

/// The calls that a state counts need a count below this.
pub const COUNT_LIMIT: u128 = 170141183460469231731687303715884105728;

/// Collections by their names: options, index definitions, and documents in record order.
#[derive(Drop)]
pub struct State {
    tables: Tables,
    count: u128,
}

impl Model for State {
    ghost use Rattle.coll_state.specs.Rows.{Rows, AreSound};
    ghost use Rattle.coll_state.specs.Codes.{rows_code};
    ghost use Rattle.coll_state.specs.Tables.{tables_in};

    ghost Value = { Rows };

    ghost coded = { rows_code };

    ghost view = { λ s. record { tables = tables_in s.tables; count = s.count } };

    ghost invariant = { λ s. AreSound (record { tables = tables_in s.tables; count = s.count }) };
}

impl State {
    /// No collections.
    pub fn new(alloc: Global) -> State
        ensures { result ≡ no_rows }
    {
        State {
            tables: BTreeMap::new(alloc),
            count: 0,
        }
    }

    /// Does nothing. Its caller learns that record numbers rise, and that no incarnation stands twice.
    pub fn is_sound(&self)
        ensures { AreSound self.now }
    {
        let _ = &self.tables;
    }

    /// How many calls of `put`, `create`, `describe` and `rename`, and how many documents put by `change`, there were.
    /// Below `COUNT_LIMIT` each of them is allowed.
    pub fn count(&self) -> u128
        ensures { result ≡ self.now.count }
    {
        self.count
    }

    /// Whether the collection is there.
    pub fn has(&self, ns: &NsName) -> bool
        ensures { result ≡ map.contains_key self.now.tables ns.now }
    {
        tables::get(&self.tables, ns).is_some()
    }

    /// Which of the collections that had this name it is.
    pub fn incarnation(&self, ns: &NsName) -> Option<u128>
        ensures { result ≡ option_map (λ t. t.incarnation) (map.get self.now.tables ns.now) }
    {
        match tables::get(&self.tables, ns) {
            Some(collection) => Some(collection.incarnation()),
            None => None,
        }
    }

    /// The options.
    pub fn options(&self, ns: &NsName) -> Option<&Tree>
        ensures { option_copied result ≡ option_map (λ t. t.options) (map.get self.now.tables ns.now) }
    {
        match tables::get(&self.tables, ns) {
            Some(collection) => Some(collection.options()),
            None => None,
        }
    }

    /// The index definitions, by name.
    pub fn indexes(&self, ns: &NsName) -> Option<&JList<Tree>>
        ensures definitions { option_copied result ≡ option_map (λ t. map.values t.indexes) (map.get self.now.tables ns.now) }
        ensures names { option_map (λ defs. each definition_name defs.now) result ≡ option_map (λ t. map.keys t.indexes) (map.get self.now.tables ns.now) }
    {
        match tables::get(&self.tables, ns) {
            Some(collection) => Some(collection.indexes()),
            None => None,
        }
    }

    /// The document of an `_id`. It is spelled exactly where its spelling has at most 16,777,216 bytes,
    /// and it has at most 100 levels.
    pub fn get(&self, ns: &NsName, id: &Value) -> Option<Held<'_>>
        ensures { option_map shown_in result ≡ option_map shown (document_at ns.now (key_of id.now) self.now.tables) }
    {
        let collection = tables::get(&self.tables, ns)?;
        match collection.record(id) {
            Some(record) => Some(record.document.look()),
            None => None,
        }
    }

    /// The document of an `_id`, as `get` shows it, and its record number.
    #[tactic(auto, using(crate::proofs::Records::keyed))]
    pub fn find(&self, ns: &NsName, id: &Value) -> Option<(u128, Held<'_>)>
        ensures number { option_map (λ f. f.0) result ≡ number_at ns.now (key_of id.now) self.now.tables }
        ensures document { option_map (λ f. shown_in f.1) result ≡ option_map shown (document_at ns.now (key_of id.now) self.now.tables) }
        ensures id { IfSome result (λ f. key_in (id_of (held_document f.1)) ≡ key_of id.now) }
    {
        let collection = tables::get(&self.tables, ns)?;
        match collection.record(id) {
            Some(record) => Some((record.no, record.document.look())),
            None => None,
        }
    }

    /// A copy of the document of an `_id`.
    #[tactic(auto, using(crate::proofs::Records::keyed))]
    pub fn copy_of(&self, alloc: Global, ns: &NsName, id: &Value) -> Result<Option<Doc>, AllocError>
        ensures doc { IfOk result (λ doc. doc ≡ document_at ns.now (key_of id.now) self.now.tables) }
        ensures id { IfOk result (λ doc. IfSome doc (λ d. key_in (id_of d) ≡ key_of id.now)) }
    {
        let Some(collection) = tables::get(&self.tables, ns) else {
            return Ok(None);
        };
        match collection.record(id) {
            Some(record) => Ok(Some(record.document.to_doc(alloc)?)),
            None => Ok(None),
        }
    }

    /// The names of the collections, in order.
    pub fn namespaces(&self) -> Namespaces<'_>
        ensures { names_left result ≡ map.keys self.now.tables }
    {
        Namespaces::of(&self.tables)
    }

    /// The first `n` documents behind a record number, in record order, with their numbers.
    pub fn after(&self, ns: &NsName, number: u128, n: usize) -> After<'_>
        ensures { looks_left result ≡ looks (rows_after number n (map.get self.now.tables ns.now)) }
    {
        match tables::get(&self.tables, ns) {
            Some(collection) => After::of(collection.after(number), n),
            None => After::of(Walk::none(), 0),
        }
    }

    /// The documents in the order of the keys of their `_id`s, none where the collection is missing.
    pub fn documents(&self, ns: &NsName) -> Documents<'_>
        ensures { result ≡ documents_by_key (map.get self.now.tables ns.now) }
    {
        match tables::get(&self.tables, ns) {
            Some(collection) => collection.documents(),
            None => Documents::of(Walk::none(), None),
        }
    }

    fn put_kept(
        &mut self,
        alloc: Global,
        ns: &NsName,
        key: SmallBytes,
        document: KeptDocument,
    ) -> Result<(), AllocError>
        requires key { key ≡ key_in (id_of document) }
        requires count { self.old.count < 2 ^ 127 }
        ensures ok { OnOk result (self.new ≡ put ns.now document self.old) }
        ensures err { OnErr result (self.new ≡ self.old) }
    {
        tables::put(&mut self.tables, alloc, ns, self.count, key, document)?;
        self.count += 1;
        Ok(())
    }

    /// The document, in the place of the one of its `_id`, whose number it keeps, or behind all others.
    /// A missing collection is made, without options.
    pub fn put(&mut self, alloc: Global, ns: &NsName, doc: Doc) -> Result<(), AllocError>
        requires id { is_some (id_of doc) ≡ true }
        requires count { self.old.count < 2 ^ 127 }
        ensures ok { OnOk result (self.new ≡ put ns.now doc self.old) }
        ensures err { OnErr result (self.new ≡ self.old) }
    {
        let key = key_in(alloc, &doc)?;
        let document = KeptDocument::of(alloc, doc)?;
        self.put_kept(alloc, ns, key, document)
    }

    fn put_first_kept(
        &mut self,
        alloc: Global,
        ns: &NsName,
        key: SmallBytes,
        document: KeptDocument,
    ) -> Result<(), AllocError>
        requires key { key ≡ key_in (id_of document) }
        requires missing { map.contains_key self.old.tables ns.now ≡ false }
        requires count { self.old.count + 1 < 2 ^ 127 }
        ensures ok { OnOk result (self.new ≡ put ns.now document (create ns.now no_options self.old)) }
        ensures err { OnErr result (self.new ≡ self.old) }
    {
        tables::put(&mut self.tables, alloc, ns, self.count, key, document)?;
        self.count += 2;
        Ok(())
    }

    /// Makes a collection that is missing, without options, and puts its first document in: all of it or,
    /// without memory, nothing. It counts as `create` and `put`.
    pub fn put_first(&mut self, alloc: Global, ns: &NsName, doc: Doc) -> Result<(), AllocError>
        requires id { is_some (id_of doc) ≡ true }
        requires missing { map.contains_key self.old.tables ns.now ≡ false }
        requires count { self.old.count + 1 < 2 ^ 127 }
        ensures ok { OnOk result (self.new ≡ put ns.now doc (create ns.now no_options self.old)) }
        ensures err { OnErr result (self.new ≡ self.old) }
    {
        let key = key_in(alloc, &doc)?;
        let document = KeptDocument::of(alloc, doc)?;
        self.put_first_kept(alloc, ns, key, document)
    }

    /// The same of the document that these bytes spell, in the place of the one of its `_id` or behind all others. They are
    /// kept as they lie where they are its spelling and it is short. No document is built for that, but for one that is kept
    /// otherwise, and the value of an `_id` that holds others.
    pub fn put_bytes(
        &mut self,
        alloc: Global,
        ns: &NsName,
        bytes: DocumentBytes,
    ) -> Result<(), AllocError>
        requires id { is_some (id_of (kept_document bytes)) ≡ true }
        requires count { self.old.count < 2 ^ 127 }
        ensures ok { OnOk result (self.new ≡ put ns.now (kept_document bytes) self.old) }
        ensures err { OnErr result (self.new ≡ self.old) }
    {
        let key = key_in_bytes(alloc, &bytes)?;
        let document = KeptDocument::of_bytes(alloc, bytes)?;
        self.put_kept(alloc, ns, key, document)
    }

    /// The same of bytes that are the spelling of a short document, which isn't looked for again: what is told of a spelled
    /// document that `get` answers, and of what `encode` makes.
    pub fn put_spelling(
        &mut self,
        alloc: Global,
        ns: &NsName,
        bytes: DocumentBytes,
    ) -> Result<(), AllocError>
        requires id { is_some (id_of (kept_document bytes)) ≡ true }
        requires spelling { kept_bytes bytes ≡ document_text (kept_document bytes) }
        requires short { is_short (kept_document bytes) ≡ true }
        requires count { self.old.count < 2 ^ 127 }
        ensures ok { OnOk result (self.new ≡ put ns.now (kept_document bytes) self.old) }
        ensures err { OnErr result (self.new ≡ self.old) }
    {
        let key = key_in_bytes(alloc, &bytes)?;
        let spelled = KeptDocument::of_spelling(bytes);
        self.put_kept(alloc, ns, key, spelled)
    }

    fn replace_kept(&mut self, ns: &NsName, number: u128, document: KeptDocument)
        requires number { number_at ns.now (key_in (id_of document)) self.old.tables ≡ Some number }
        requires count { self.old.count < 2 ^ 127 }
        ensures { self.new ≡ put ns.now document self.old }
    {
        tables::replace_document(&mut self.tables, ns, number, document);
        self.count += 1;
    }

    /// The same in the place of a document of the same `_id`, which stands under this number, as `find` tells it. It
    /// takes no memory.
    pub fn replace_spelling(&mut self, ns: &NsName, number: u128, bytes: DocumentBytes)
        requires number { number_at ns.now (key_in (id_of (kept_document bytes))) self.old.tables ≡ Some number }
        requires spelling { kept_bytes bytes ≡ document_text (kept_document bytes) }
        requires short { is_short (kept_document bytes) ≡ true }
        requires count { self.old.count < 2 ^ 127 }
        ensures { self.new ≡ put ns.now (kept_document bytes) self.old }
    {
        let spelled = KeptDocument::of_spelling(bytes);
        self.replace_kept(ns, number, spelled);
    }

    /// The changes one after the other, all of them or, without memory, none.
    pub fn change(&mut self, alloc: Global, changes: List<Change>) -> Result<(), AllocError>
        requires there { AreThere changes self.old.tables }
        requires ids { HaveIds changes }
        requires count { self.old.count + length changes < 2 ^ 127 }
        ensures ok { OnOk result (self.new ≡ change_all changes self.old) }
        ensures err { OnErr result (self.new ≡ self.old) }
    {
        let prepared = change::prepare(alloc, changes)?;
        change::reserve(&mut self.tables, prepared.as_slice())?;
        self.count = change::apply(&mut self.tables, self.count, prepared);
        Ok(())
    }

    /// Takes the document of an `_id` out, and says whether it was there.
    pub fn remove(&mut self, ns: &NsName, id: &Value) -> bool
        ensures state { self.new ≡ remove ns.now (key_of id.now) self.old }
        ensures there { result ≡ is_some (document_at ns.now (key_of id.now) self.old.tables) }
    {
        tables::remove(&mut self.tables, ns, id)
    }

    /// Drops the collection, and says whether it was there.
    pub fn drop_ns(&mut self, ns: &NsName) -> bool
        ensures state { self.new ≡ drop_ns ns.now self.old }
        ensures there { result ≡ map.contains_key self.old.tables ns.now }
    {
        tables::take(&mut self.tables, ns).is_some()
    }

    /// Drops the collections of a database, and says how many there were.
    pub fn drop_db(&mut self, db: &str) -> usize
        ensures state { self.new ≡ drop_db db.now self.old }
        ensures count { result + map.len self.new.tables ≡ map.len self.old.tables }
    {
        tables::drop_db(&mut self.tables, db)
    }

    /// The collection anew, without documents and definitions, whether it was there or not.
    pub fn create(&mut self, alloc: Global, ns: &NsName, options: Tree) -> Result<(), AllocError>
        requires { self.old.count < 2 ^ 127 }
        ensures ok { OnOk result (self.new ≡ create ns.now options self.old) }
        ensures err { OnErr result (self.new ≡ self.old) }
    {
        let fresh = Collection::new(alloc, options, self.count);
        tables::set(&mut self.tables, alloc, ns, fresh)?;
        self.count += 1;
        Ok(())
    }

    /// The options and the definitions of the collection, in the place of those that it has: of two
    /// definitions of one name the later. Its documents stay. A missing collection is made.
    pub fn describe(
        &mut self,
        alloc: Global,
        ns: &NsName,
        options: Tree,
        definitions: JList<Tree>,
    ) -> Result<(), AllocError>
        requires { self.old.count < 2 ^ 127 }
        ensures ok { OnOk result (self.new ≡ describe ns.now options definitions self.old) }
        ensures err { OnErr result (self.new ≡ self.old) }
    {
        let incarnation = self.count;
        tables::describe(
            &mut self.tables,
            alloc,
            ns,
            incarnation,
            options,
            definitions,
        )?;
        self.count += 1;
        Ok(())
    }

    /// The collection under another name, as a new incarnation. Its documents keep their numbers.
    pub fn rename(&mut self, alloc: Global, from: &NsName, to: &NsName) -> Result<(), AllocError>
        requires there { map.contains_key self.old.tables from.now ≡ true }
        requires free { map.contains_key self.old.tables to.now ≡ false }
        requires count { self.old.count < 2 ^ 127 }
        ensures ok { OnOk result (self.new ≡ rename from.now to.now self.old) }
        ensures err { OnErr result (self.new ≡ self.old) }
    {
        tables::rename(&mut self.tables, alloc, from, to, self.count)?;
        self.count += 1;
        Ok(())
    }

    /// The definition, in the place of the one of its name.
    pub fn add_index(&mut self, ns: &NsName, def: Tree) -> Result<(), AllocError>
        ensures ok { OnOk result (self.new ≡ add_index ns.now def self.old) }
        ensures err { OnErr result (self.new ≡ self.old) }
    {
        tables::add_index(&mut self.tables, ns, def)
    }

    /// Takes the definition of this name out, and says whether it was there.
    pub fn drop_index(&mut self, ns: &NsName, name: &str) -> bool
        ensures state { self.new ≡ drop_index ns.now name.now self.old }
        ensures there { result ≡ has_index name.now (map.get self.old.tables ns.now) }
    {
        tables::drop_index(&mut self.tables, ns, name)
    }
}
