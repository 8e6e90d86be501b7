//! Commands on documents that are there.
ghost use Rattle.std.specs.Prelude.{◌≡◌, ◌<◌, IfOk, IfSome, Ok, Some, None, if◌then◌else◌};
ghost use Rattle.bson_encode.specs.Key.{key_of};
ghost use Rattle.copy_model.specs.Writes as writes;
ghost use Rattle.coll_state.specs.Rows.{id_of};
ghost use Rattle.history_model.specs.Documents.{id_first};
ghost use Rattle.history_model.specs.Entries as entries;
ghost use Rattle.history_model.specs.Commands.{only, effects};
ghost use Rattle.store_core.specs.Applying.{Applies, Decided, stage_in};
ghost use Rattle.store_core.specs.Documents.{replace_effects, IsKept, IsAccepted, Replaces};

use crate::collections::unless;
use crate::entries::{spelled_of, spelled_whole};
use crate::fault::StoreFault;
use crate::own_bytes::spelling_of;
use crate::store::Store;
use bson_value::{Doc, NsName, Value};
use command_refusals::{delete_refusal, replace_refusal};
use command_rules::{begins_with_id, id_first};
use entry_model::Action;
use schedule_model::{Command, DocumentCommand};
use std::alloc::{AllocError, Global};
use stored_documents::{id_first_is_alike, same_document, stored_documents_are_good};

// The `_id` of a document that has one.
fn id_of(alloc: Global, doc: &Doc) -> Result<Value, AllocError>
    requires { IsKept doc.now }
    ensures { IfOk result (λ id. id_of doc.now ≡ Some id) }
{
    match doc.get("_id") {
        Some(id) => id.copy(alloc),
        None => unreachable!(),
    }
}

impl Store {
    // The document whose place another takes that isn't refused. The other is given as the command has it, and as it is kept.
    fn replaced(&self, ns: &NsName, doc: &Doc, first: &Doc) -> Result<Doc, StoreFault>
        requires { first.now ≡ id_first doc.now }
        ensures decided { IsAccepted (DocumentCommand.Replace ns.now doc.now) self.now (λ old. Replaces ns.now doc.now self.now.rows old first.now) result }
        ensures kept { IfOk result (λ _. IsKept first.now) }
    {
        id_first_is_alike();
        stored_documents_are_good();
        let tested = self
            .indexes
            .refusal(self.alloc, &self.state, ns, doc, first)?;
        unless(replace_refusal(&self.state, ns, doc, tested))?;
        let id = id_of(self.alloc, first)?;
        match self.state.copy_of(self.alloc, ns, &id)? {
            Some(old) => Ok(old),
            None => unreachable!(),
        }
    }

    // Whether a replacement that may be made changes the document.
    fn changes(&self, ns: &NsName, doc: &Doc, first: &Doc) -> Result<bool, StoreFault>
        requires { first.now ≡ id_first doc.now }
        ensures decided { Decided (Command.Document (DocumentCommand.Replace ns.now doc.now)) self.now (λ b. replace_effects ns.now (if b then Some first.now else None)) result }
        ensures kept { IfOk result (λ _. IsKept first.now) }
    {
        let old = self.replaced(ns, doc, first)?;
        Ok(!same_document(&old, first))
    }

    /// Whether a replacement that may be made changes the document.
    pub(crate) fn replacement(&self, ns: &NsName, doc: &Doc) -> Result<bool, StoreFault>
        ensures decided { Decided (Command.Document (DocumentCommand.Replace ns.now doc.now)) self.now (λ b. replace_effects ns.now (if b then Some (id_first doc.now) else None)) result }
        ensures kept { IfOk result (λ _. IsKept (id_first doc.now)) }
    {
        if begins_with_id(doc) {
            return self.changes(ns, doc, doc);
        }
        let first = id_first(self.alloc, doc)?;
        self.changes(ns, doc, &first)
    }

    // Puts the document of a replacement.
    fn put_whole(&mut self, ns: &NsName, doc: &Doc, first: &Doc) -> Result<u32, StoreFault>
        requires few { self.old.log.recorded < 4000000000 }
        requires accepted { effects (Command.Document (DocumentCommand.Replace ns.now doc.now)) (stage_in self.old) ≡ Ok (replace_effects ns.now (Some first.now)) }
        requires kept { IsKept first.now }
        ensures { Applies (Command.Document (DocumentCommand.Replace ns.now doc.now)) self.old result self.new }
    {
        let id = id_of(self.alloc, first)?;
        let spelling = spelling_of(self.alloc, first)?;
        let bytes = spelled_whole(self.alloc, self.next_ts(), ns, &id, first, &spelling)?;
        self.put(ns, first, spelling, bytes)?;
        Ok(1)
    }

    // Replaces a document by one that is given as the command has it, and as it is kept.
    fn replace_by(&mut self, ns: &NsName, doc: &Doc, first: &Doc) -> Result<u32, StoreFault>
        requires few { self.old.log.recorded < 4000000000 }
        requires first { first.now ≡ id_first doc.now }
        ensures { Applies (Command.Document (DocumentCommand.Replace ns.now doc.now)) self.old result self.new }
    {
        if self.changes(ns, doc, first)? {
            self.put_whole(ns, doc, first)
        } else {
            Ok(0)
        }
    }

    pub(crate) fn replace(&mut self, ns: &NsName, doc: &Doc) -> Result<u32, StoreFault>
        requires { self.old.log.recorded < 4000000000 }
        ensures { Applies (Command.Document (DocumentCommand.Replace ns.now doc.now)) self.old result self.new }
    {
        if begins_with_id(doc) {
            return self.replace_by(ns, doc, doc);
        }
        let first = id_first(self.alloc, doc)?;
        self.replace_by(ns, doc, &first)
    }

    /// Whether a document may be removed.
    pub(crate) fn removal(&self, ns: &NsName, id: &Value) -> Result<(), StoreFault>
        ensures { Decided (Command.Document (DocumentCommand.Delete ns.now id.now)) self.now (λ _. only (writes.Remove ns.now (key_of id.now)) (entries.Remove ns.now id.now)) result }
    {
        unless(delete_refusal(&self.state, ns, id))
    }

    pub(crate) fn delete(&mut self, ns: &NsName, id: &Value) -> Result<u32, StoreFault>
        requires { self.old.log.recorded < 4000000000 }
        ensures { Applies (Command.Document (DocumentCommand.Delete ns.now id.now)) self.old result self.new }
    {
        self.removal(ns, id)?;
        let action = Action::Remove {
            id: id.copy(self.alloc)?,
        };
        let bytes = spelled_of(self.alloc, self.next_ts(), ns, action)?;
        self.remove(ns, id, bytes);
        Ok(1)
    }
}
