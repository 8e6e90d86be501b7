//! Changes of the collections, each with the entry that records it: both are made, or without memory neither.
ghost use Rattle.std.specs.Prelude.{◌≡◌, ◌<◌, List, ◌∷◌, OnOk, OnErr, is_some, true, false};
ghost use Rattle.bson_value.specs.declared.namespace.NsName.{NsName as Name};
ghost use Rattle.std.specs.FinMap as map;
ghost use Rattle.state_model.specs.States.{no_options};
ghost use Rattle.coll_state.specs.Changes.{put, remove, create, drop_ns, drop_db, rename, add_index, drop_index};
ghost use Rattle.coll_state.specs.Kept.{is_short};
ghost use Rattle.coll_state.specs.Rows.{Rows, id_of};
ghost use Rattle.bson_encode.specs.Key.{key_of};
ghost use Rattle.history_model.specs.Indexes.{IndexesHold};
ghost use Rattle.kept_indexes.specs.Kept.{AreKept};
ghost use Rattle.store_core.specs.Databases.{AreAmong};
ghost use Rattle.store_log.specs.Logged.{logged};
ghost use Rattle.store_core.specs.Applying.{with_rename};
ghost use Rattle.store_core.specs.Spellings.{IsSpellingOf};

use crate::own_bytes::put_spelled;
use crate::store::Store;
use bson_value::{Bytes, Doc, NsName, Value};
use bson_view::DocumentBytes;
use coll_state::State;
use json_tree::Tree;
use kept_indexes::KeptIndexes;
use std::alloc::AllocError;

// Lets go of the indexes of a collection of the database.
fn forget_in(indexes: &mut KeptIndexes, ns: &NsName, db: &str)
    ensures kept { (r : Rows) → AreKept indexes.old r → AreKept indexes.new r }
    ensures among { (rest : List Name) → AreAmong db.now indexes.old (ns.now ∷ rest) → AreAmong db.now indexes.new rest }
{
    if ns.db.as_str() == db {
        indexes.forget(ns);
    }
}

// Lets go of the indexes of all collections of a database.
fn forget_database(indexes: &mut KeptIndexes, state: &State, db: &str)
    requires { AreKept indexes.old state.now }
    ensures { AreKept indexes.new (drop_db db.now state.now) }
{
    let mut left = state.namespaces();
    'names: while let Some(ns) = left.next() {
        forget_in(indexes, ns, db);
    }
}

impl Store {
    /// Puts a document, which is kept as this spelling.
    pub(crate) fn put(
        &mut self,
        ns: &NsName,
        doc: &Doc,
        spelling: DocumentBytes,
        bytes: Bytes,
    ) -> Result<(), AllocError>
        requires id { is_some (id_of doc.now) ≡ true }
        requires spelling { IsSpellingOf spelling doc.now }
        requires short { is_short doc.now ≡ true }
        requires few { self.old.log.recorded < 4000000000 }
        requires holds { IndexesHold (put ns.now doc.now self.old.rows) }
        ensures ok { OnOk result (self.new ≡ record { rows = put ns.now doc.now self.old.rows; log = logged bytes self.old.log }) }
        ensures err { OnErr result (self.new ≡ self.old) }
    {
        self.state.is_sound();
        let _ = self.indexes.put(self.alloc, ns, doc);
        match put_spelled(self.alloc, &mut self.state, ns, doc, spelling) {
            Ok(()) => {
                self.log.add(bytes);
                Ok(())
            }
            Err(e) => {
                self.indexes.forget(ns);
                Err(e)
            }
        }
    }

    /// Makes a collection with its first document. That is two entries.
    pub(crate) fn put_first(
        &mut self,
        ns: &NsName,
        doc: Doc,
        creation: Bytes,
        bytes: Bytes,
    ) -> Result<(), AllocError>
        requires id { is_some (id_of doc) ≡ true }
        requires short { is_short doc ≡ true }
        requires missing { map.contains_key self.old.rows.tables ns.now ≡ false }
        requires few { self.old.log.recorded < 4000000000 }
        requires holds { IndexesHold (put ns.now doc (create ns.now no_options self.old.rows)) }
        ensures ok { OnOk result (self.new ≡ record { rows = put ns.now doc (create ns.now no_options self.old.rows); log = logged bytes (logged creation self.old.log) }) }
        ensures err { OnErr result (self.new ≡ self.old) }
    {
        self.indexes.forget(ns);
        self.state.put_first(self.alloc, ns, doc)?;
        self.log.add(creation);
        self.log.add(bytes);
        Ok(())
    }

    pub(crate) fn remove(&mut self, ns: &NsName, id: &Value, bytes: Bytes)
        requires few { self.old.log.recorded < 4000000000 }
        requires holds { IndexesHold (remove ns.now (key_of id.now) self.old.rows) }
        ensures { self.new ≡ record { rows = remove ns.now (key_of id.now) self.old.rows; log = logged bytes self.old.log } }
    {
        let _ = self.indexes.remove(self.alloc, ns, id);
        let _ = self.state.remove(ns, id);
        self.log.add(bytes);
    }

    pub(crate) fn make(
        &mut self,
        ns: &NsName,
        options: Tree,
        bytes: Bytes,
    ) -> Result<(), AllocError>
        requires few { self.old.log.recorded < 4000000000 }
        requires holds { IndexesHold (create ns.now options self.old.rows) }
        ensures ok { OnOk result (self.new ≡ record { rows = create ns.now options self.old.rows; log = logged bytes self.old.log }) }
        ensures err { OnErr result (self.new ≡ self.old) }
    {
        self.indexes.forget(ns);
        self.state.create(self.alloc, ns, options)?;
        self.log.add(bytes);
        Ok(())
    }

    pub(crate) fn take_collection(&mut self, ns: &NsName, bytes: Bytes)
        requires few { self.old.log.recorded < 4000000000 }
        requires holds { IndexesHold (drop_ns ns.now self.old.rows) }
        ensures { self.new ≡ record { rows = drop_ns ns.now self.old.rows; log = logged bytes self.old.log } }
    {
        self.indexes.forget(ns);
        let _ = self.state.drop_ns(ns);
        self.log.add(bytes);
    }

    pub(crate) fn take_database(&mut self, db: &str, bytes: Bytes)
        requires few { self.old.log.recorded < 4000000000 }
        requires holds { IndexesHold (drop_db db.now self.old.rows) }
        ensures { self.new ≡ record { rows = drop_db db.now self.old.rows; log = logged bytes self.old.log } }
    {
        forget_database(&mut self.indexes, &self.state, db);
        let _ = self.state.drop_db(db);
        self.log.add(bytes);
    }

    pub(crate) fn move_collection(
        &mut self,
        from: &NsName,
        to: &NsName,
        bytes: Bytes,
    ) -> Result<(), AllocError>
        requires there { map.contains_key self.old.rows.tables from.now ≡ true }
        requires free { map.contains_key self.old.rows.tables to.now ≡ false }
        requires few { self.old.log.recorded < 4000000000 }
        requires holds { IndexesHold (rename from.now to.now self.old.rows) }
        ensures ok { OnOk result (self.new ≡ record { rows = rename from.now to.now self.old.rows; log = with_rename (logged bytes self.old.log) }) }
        ensures err { OnErr result (self.new ≡ self.old) }
    {
        self.indexes.forget(from);
        self.indexes.forget(to);
        self.state.rename(self.alloc, from, to)?;
        self.log.add(bytes);
        self.log.note_rename();
        Ok(())
    }

    pub(crate) fn put_index(
        &mut self,
        ns: &NsName,
        def: Tree,
        bytes: Bytes,
    ) -> Result<(), AllocError>
        requires few { self.old.log.recorded < 4000000000 }
        requires holds { IndexesHold (add_index ns.now def self.old.rows) }
        ensures ok { OnOk result (self.new ≡ record { rows = add_index ns.now def self.old.rows; log = logged bytes self.old.log }) }
        ensures err { OnErr result (self.new ≡ self.old) }
    {
        self.indexes.forget(ns);
        self.state.add_index(ns, def)?;
        self.log.add(bytes);
        Ok(())
    }

    pub(crate) fn take_index(&mut self, ns: &NsName, name: &str, bytes: Bytes)
        requires few { self.old.log.recorded < 4000000000 }
        requires holds { IndexesHold (drop_index ns.now name.now self.old.rows) }
        ensures { self.new ≡ record { rows = drop_index ns.now name.now self.old.rows; log = logged bytes self.old.log } }
    {
        self.indexes.forget(ns);
        let _ = self.state.drop_index(ns, name);
        self.log.add(bytes);
    }
}
