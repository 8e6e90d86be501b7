//! Documents of the oplog.
ghost use Rattle.std.specs.Prelude.{◌≡◌, OnErr, IfOk, IfNone, IfSome, IsTrue, false, true};
ghost use Rattle.archive_format.specs.Archive.{doc, fault_in};
ghost use Rattle.archive_format.specs.Shapes.{is_oplog as names_oplog};
ghost use Rattle.bson_value.specs.declared.namespace.NsName.{NsName as Namespace};
ghost use Rattle.bson_view.specs.Views.{document};
ghost use Rattle.entry_model.specs.Written.{Fields};
ghost use Rattle.entry_reader.specs.Entries.{AreFieldsOf};
ghost use Rattle.restore_entries.specs.Oplog.{reading_of};
ghost use Rattle.restore_plan.specs.Base.{document_taken, oplog_reading};
ghost use Rattle.restore_plan.specs.Taken.{contents_of, IsTakenAs};

use crate::restore::Restore;
use bson_view::View;
use entry_reader::EntryView;
use restore_entries::{EntryReading, read_entry, read_field, replay_field};
use std::alloc::AllocError;

/// The document that a taking's bytes spell.
#[tactic(auto, unfolding(archive_format::specs::Archive::fault_in, archive_format::specs::Archive::fields_of, bson_check::specs::Faults::first_fault))]
fn view_of(bytes: &[u8]) -> View<'_>
    requires { fault_in bytes.now ≡ None }
    ensures { document result ≡ document_taken bytes.now }
{
    View::of(bytes)
}

impl Restore {
    // A delta of one field of an entry that is ripe is replayed where it lies. `false` where nothing was done.
    fn take_field(&mut self, entry: &EntryView<'_>) -> Result<bool, AllocError>
        ensures taken { IfOk result (λ done. IsTrue done → (fs : Fields) → AreFieldsOf entry.now fs → IsTakenAs (contents_of self.old) (reading_of self.old.plan.filter self.old.plan.limit fs) (contents_of self.new)) }
        ensures left { IfOk result (λ done. done ≡ false → self.new ≡ self.old) }
        ensures err { OnErr result (self.new ≡ self.old) }
        ensures plan { self.new.plan ≡ self.old.plan }
        ensures fault { self.new.fault ≡ self.old.fault }
        ensures starved { self.new.starved ≡ self.old.starved }
    {
        if !self.entries.is_empty() {
            return Ok(false);
        }
        let Some((ns, delta)) = read_field(self.alloc, &self.plan.filter, self.plan.limit, entry)?
        else {
            return Ok(false);
        };
        if !self.ended.contains(&ns) {
            return Ok(false);
        }
        replay_field(self.alloc, &mut self.state, &ns, &delta)
    }

    /// What a document of the oplog is to the restore. `None` where it was an entry that is kept, and was taken already.
    pub(crate) fn read_or_take(&mut self, bytes: &[u8]) -> Result<Option<EntryReading>, AllocError>
        requires { fault_in bytes.now ≡ None }
        ensures taken { IfOk result (λ o. IfNone o (IsTakenAs (contents_of self.old) (oplog_reading self.old.plan bytes.now) (contents_of self.new))) }
        ensures reading { IfOk result (λ o. IfSome o (λ r. r ≡ oplog_reading self.old.plan bytes.now)) }
        ensures left { IfOk result (λ o. IfSome o (λ r. self.new ≡ self.old)) }
        ensures err { OnErr result (self.new ≡ self.old) }
        ensures plan { self.new.plan ≡ self.old.plan }
        ensures fault { self.new.fault ≡ self.old.fault }
        ensures starved { self.new.starved ≡ self.old.starved }
    {
        if !self.plan.replaying {
            return Ok(Some(EntryReading::Passed));
        }
        let view = view_of(bytes);
        let entry = EntryView::of(&view);
        if self.take_field(&entry)? {
            return Ok(None);
        }
        let reading = read_entry(
            self.alloc,
            &self.plan.filter,
            self.plan.limit,
            &entry,
            &view,
        )?;
        Ok(Some(reading))
    }
}
