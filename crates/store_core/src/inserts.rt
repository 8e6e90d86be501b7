//! Inserts.
ghost use Rattle.std.specs.Prelude.{◌≡◌, ◌<◌, [], IfOk, OnOk, OnErr, Ok, true, false};
ghost use Rattle.std.specs.FinMap as map;
ghost use Rattle.copy_model.specs.Writes as writes;
ghost use Rattle.history_model.specs.Documents.{id_first, options_of};
ghost use Rattle.history_model.specs.Entries.{entry_bytes};
ghost use Rattle.history_model.specs.Entries as entries;
ghost use Rattle.history_model.specs.Refusals.{is_there};
ghost use Rattle.history_model.specs.Stages as stages;
ghost use Rattle.history_model.specs.Commands.{effects};
ghost use Rattle.store_core.specs.Applying.{Applies, Decided, stage_in, next_entry, stored_by};
ghost use Rattle.store_core.specs.Documents.{insert_effects, IsKept};

use crate::collections::unless;
use crate::entries::{spelled_of, spelled_put};
use crate::fault::StoreFault;
use crate::own_bytes::spelling_of;
use crate::store::Store;
use bson_value::{Bytes, Doc, NsName};
use command_refusals::insert_refusal;
use command_rules::{begins_with_id, id_first, options_of};
use entry_model::Action;
use schedule_model::{Command, DocumentCommand};
use std::alloc::AllocError;
use store_log::next_ts;
use stored_documents::{id_first_is_alike, stored_documents_are_good};

impl Store {
    // Whether a document may be inserted. It is given as the command has it, and as it is kept.
    fn may_insert(&self, ns: &NsName, doc: &Doc, first: &Doc) -> Result<(), StoreFault>
        requires { first.now ≡ id_first doc.now }
        ensures decided { Decided (Command.Document (DocumentCommand.Insert ns.now doc.now)) self.now (λ _. insert_effects (is_there ns.now self.now.rows) ns.now first.now) result }
        ensures kept { IfOk result (λ _. IsKept first.now) }
    {
        id_first_is_alike();
        stored_documents_are_good();
        let tested = self
            .indexes
            .refusal(self.alloc, &self.state, ns, doc, first)?;
        unless(insert_refusal(&self.state, ns, doc, tested))
    }

    // Puts a document into a collection that is there.
    fn insert_into(&mut self, ns: &NsName, doc: &Doc, first: &Doc) -> Result<u32, StoreFault>
        requires few { self.old.log.recorded < 4000000000 }
        requires accepted { effects (Command.Document (DocumentCommand.Insert ns.now doc.now)) (stage_in self.old) ≡ Ok (insert_effects true ns.now first.now) }
        requires kept { IsKept first.now }
        ensures { Applies (Command.Document (DocumentCommand.Insert ns.now doc.now)) self.old result self.new }
    {
        let spelling = spelling_of(self.alloc, first)?;
        let bytes = spelled_put(self.alloc, self.next_ts(), ns, first, &spelling)?;
        self.put(ns, first, spelling, bytes)?;
        Ok(1)
    }

    // The bytes of the entry of a creation without options.
    fn creation_bytes(&self, ns: &NsName) -> Result<Bytes, AllocError>
        ensures { IfOk result (λ bytes. bytes ≡ entry_bytes (next_entry (entries.One (entries.Create ns.now [])) self.now.log)) }
    {
        let options = Doc::new(self.alloc);
        spelled_of(self.alloc, self.next_ts(), ns, Action::Create { options })
    }

    // Makes a collection with its first document.
    fn insert_first(&mut self, ns: &NsName, doc: &Doc, first: &Doc) -> Result<u32, StoreFault>
        requires few { self.old.log.recorded < 4000000000 }
        requires missing { map.contains_key self.old.rows.tables ns.now ≡ false }
        requires accepted { effects (Command.Document (DocumentCommand.Insert ns.now doc.now)) (stage_in self.old) ≡ Ok (insert_effects false ns.now first.now) }
        requires kept { IsKept first.now }
        ensures { Applies (Command.Document (DocumentCommand.Insert ns.now doc.now)) self.old result self.new }
    {
        let creation = self.creation_bytes(ns)?;
        self.log.is_kept();
        let later = next_ts(self.log.clock(), self.next_ts());
        let spelling = spelling_of(self.alloc, first)?;
        let bytes = spelled_put(self.alloc, later, ns, first, &spelling)?;
        let copy = first.copy(self.alloc)?;
        self.put_first(ns, copy, creation, bytes)?;
        Ok(2)
    }

    // Inserts a document that is given as the command has it, and as it is kept.
    fn insert_kept(&mut self, ns: &NsName, doc: &Doc, first: &Doc) -> Result<u32, StoreFault>
        requires few { self.old.log.recorded < 4000000000 }
        requires first { first.now ≡ id_first doc.now }
        ensures { Applies (Command.Document (DocumentCommand.Insert ns.now doc.now)) self.old result self.new }
    {
        self.may_insert(ns, doc, first)?;
        if self.state.has(ns) {
            self.insert_into(ns, doc, first)
        } else {
            self.insert_first(ns, doc, first)
        }
    }

    /// Whether a document may be inserted.
    pub(crate) fn insertion(&self, ns: &NsName, doc: &Doc) -> Result<(), StoreFault>
        ensures decided { Decided (Command.Document (DocumentCommand.Insert ns.now doc.now)) self.now (λ _. insert_effects (is_there ns.now self.now.rows) ns.now (id_first doc.now)) result }
        ensures kept { IfOk result (λ _. IsKept (id_first doc.now)) }
    {
        if begins_with_id(doc) {
            return self.may_insert(ns, doc, doc);
        }
        let first = id_first(self.alloc, doc)?;
        self.may_insert(ns, doc, &first)
    }

    pub(crate) fn insert(&mut self, ns: &NsName, doc: &Doc) -> Result<u32, StoreFault>
        requires { self.old.log.recorded < 4000000000 }
        ensures { Applies (Command.Document (DocumentCommand.Insert ns.now doc.now)) self.old result self.new }
    {
        if begins_with_id(doc) {
            return self.insert_kept(ns, doc, doc);
        }
        let first = id_first(self.alloc, doc)?;
        self.insert_kept(ns, doc, &first)
    }

    /// Makes a collection that is missing, without options: the first of the two entries of an insert into it. It is one entry.
    pub fn make_collection(&mut self, ns: &NsName) -> Result<(), AllocError>
        requires missing { map.contains_key self.old.rows.tables ns.now ≡ false }
        requires few { self.old.log.recorded < 4000000000 }
        ensures ok { OnOk result (self.new ≡ stored_by (stages.Single (writes.Create ns.now (options_of [])), entries.One (entries.Create ns.now [])) self.old) }
        ensures err { OnErr result (self.new ≡ self.old) }
    {
        let bytes = self.creation_bytes(ns)?;
        let tree = options_of(self.alloc, &Doc::new(self.alloc))?;
        self.make(ns, tree, bytes)
    }
}
