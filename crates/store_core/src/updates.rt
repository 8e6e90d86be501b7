//! Updates of documents.
ghost use Rattle.std.specs.Prelude.{◌≡◌, ◌<◌, IfOk, IfSome, Ok, Some, None};
ghost use Rattle.bson_encode.specs.Key.{key_of};
ghost use Rattle.history_model.specs.Refusals.{row_at, update_of};
ghost use Rattle.history_model.specs.Commands.{effects};
ghost use Rattle.store_core.specs.Applying.{Applies, Decided, Refuses, stage_in};
ghost use Rattle.store_core.specs.Documents.{update_effects, IsKeptUnder, IsAccepted};

use crate::collections::unless;
use crate::fault::StoreFault;
use crate::own_bytes::spelling_of;
use crate::store::Store;
use bson_value::{Doc, NsName, Value};
use command_refusals::{update_refusal, updated_own};
use schedule_model::{Command, DocumentCommand};
use stored_documents::updates_keep_documents_good;
use unchanged_updates::unchanged_is_untouched;
use update_action::update_entry;
use update_model::{equality_is_tested, no_touches_no_change};
use update_ops::Updated;

impl Store {
    // Why an update of a document that isn't there isn't made.
    fn missing(&self, ns: &NsName, id: &Value, ops: &Doc) -> StoreFault
        requires { row_at ns.now (key_of id.now) self.now.rows ≡ None }
        ensures { Refuses (Command.Document (DocumentCommand.Update ns.now id.now ops.now)) self.now result }
    {
        match update_refusal(&self.state, ns, id, ops, None, None) {
            Some(row) => StoreFault::Refused(row),
            None => unreachable!(),
        }
    }

    // What an update that isn't refused makes of the document that stands.
    fn updated(&self, ns: &NsName, id: &Value, ops: &Doc) -> Result<Updated, StoreFault>
        ensures decided { IsAccepted (DocumentCommand.Update ns.now id.now ops.now) self.now (λ u. update_of (row_at ns.now (key_of id.now) self.now.rows) ops.now ≡ Some u) result }
        ensures kept { IfOk result (λ u. IsKeptUnder id.now u.doc) }
    {
        updates_keep_documents_good();
        let Some(old) = self.state.copy_of(self.alloc, ns, id)? else {
            return Err(self.missing(ns, id, ops));
        };
        let after = updated_own(self.alloc, old, ops)?;
        let tested = self
            .indexes
            .updated_refusal(self.alloc, &self.state, ns, id, after.as_ref())?;
        unless(update_refusal(&self.state, ns, id, ops, after.as_ref(), tested))?;
        match after {
            Some(after) => Ok(after),
            None => unreachable!(),
        }
    }

    /// What an update that may be made gives; none where the document is as before, which is where it has no touch.
    pub(crate) fn update_of(
        &self,
        ns: &NsName,
        id: &Value,
        ops: &Doc,
    ) -> Result<Option<Updated>, StoreFault>
        ensures decided { Decided (Command.Document (DocumentCommand.Update ns.now id.now ops.now)) self.now (update_effects self.now.log.form ns.now id.now) result }
        ensures kept { IfOk result (λ o. IfSome o (λ u. IsKeptUnder id.now u.doc)) }
    {
        equality_is_tested();
        no_touches_no_change();
        unchanged_is_untouched();
        let after = self.updated(ns, id, ops)?;
        if after.touches.is_empty() {
            Ok(None)
        } else {
            Ok(Some(after))
        }
    }

    // Puts the document of an update.
    fn put_updated(
        &mut self,
        ns: &NsName,
        id: &Value,
        ops: &Doc,
        updated: Updated,
    ) -> Result<u32, StoreFault>
        requires few { self.old.log.recorded < 4000000000 }
        requires accepted { effects (Command.Document (DocumentCommand.Update ns.now id.now ops.now)) (stage_in self.old) ≡ Ok (update_effects self.old.log.form ns.now id.now (Some updated)) }
        requires kept { IsKeptUnder id.now updated.doc }
        ensures { Applies (Command.Document (DocumentCommand.Update ns.now id.now ops.now)) self.old result self.new }
    {
        let form = self.log.form();
        let Updated { doc, touches } = updated;
        let spelling = spelling_of(self.alloc, &doc)?;
        let ts = self.next_ts();
        let text = spelling.as_slice();
        let bytes = update_entry(self.alloc, ts, ns, id, &doc, text, touches.as_slice(), form)?;
        self.put(ns, &doc, spelling, bytes)?;
        Ok(1)
    }

    pub(crate) fn update(&mut self, ns: &NsName, id: &Value, ops: &Doc) -> Result<u32, StoreFault>
        requires { self.old.log.recorded < 4000000000 }
        ensures { Applies (Command.Document (DocumentCommand.Update ns.now id.now ops.now)) self.old result self.new }
    {
        match self.update_of(ns, id, ops)? {
            Some(updated) => self.put_updated(ns, id, ops, updated),
            None => Ok(0),
        }
    }
}
