//! Commands to the store.
ghost use Rattle.std.specs.Prelude.{◌≡◌, ◌≤◌, ◌<◌, ◌+◌, [], IfOk, OnErr};
ghost use Rattle.history_model.specs.Stages.{Stage};
ghost use Rattle.store_core.specs.Stores.{StandsAt};
ghost use Rattle.store_core.specs.Applying.{AppliedAt, Applies, Decided};

use crate::fault::StoreFault;
use crate::store::Store;
use bson_value::NsName;
use capped_oplog::keeps_the_longest_suffix;
use doc_path::Form;
use history_model::oplog_is_kept;
use schedule_model::{Command, DocumentCommand, Refused};

impl Store {
    pub(crate) fn clock_from(&self, secs: u32) -> Result<(), StoreFault>
        ensures { Decided (Command.At secs) self.now (λ _. []) result }
    {
        if secs < self.log.clock() {
            Err(StoreFault::Refused(Refused::ClockBack))
        } else {
            Ok(())
        }
    }

    fn set_clock(&mut self, secs: u32) -> Result<u32, StoreFault>
        ensures { Applies (Command.At secs) self.old result self.new }
    {
        self.clock_from(secs)?;
        self.log.set_clock(secs);
        Ok(0)
    }

    fn set_form(&mut self, form: Form) -> Result<u32, StoreFault>
        ensures { Applies (Command.Recording form) self.old result self.new }
    {
        self.log.set_form(form);
        Ok(0)
    }

    // Keeps the built indexes of a collection from now on, where there are any.
    fn keep_indexes(&mut self, ns: &NsName)
        ensures { self.new ≡ self.old }
    {
        let _ = self.indexes.keep(self.alloc, &self.state, ns);
    }

    fn apply_to_document(&mut self, cmd: &DocumentCommand) -> Result<u32, StoreFault>
        requires { self.old.log.recorded < 4000000000 }
        ensures { Applies (Command.Document cmd.now) self.old result self.new }
    {
        match cmd {
            DocumentCommand::Insert { ns, doc } => {
                self.keep_indexes(ns);
                self.insert(ns, doc)
            }
            DocumentCommand::Replace { ns, doc } => {
                self.keep_indexes(ns);
                self.replace(ns, doc)
            }
            DocumentCommand::Update { ns, id, ops } => {
                self.keep_indexes(ns);
                self.update(ns, id, ops)
            }
            DocumentCommand::Delete { ns, id } => self.delete(ns, id),
        }
    }

    fn applied(&mut self, cmd: &Command) -> Result<u32, StoreFault>
        requires { self.old.log.recorded < 4000000000 }
        ensures { Applies cmd.now self.old result self.new }
    {
        match cmd {
            Command::At(secs) => self.set_clock(*secs),
            Command::Recording(form) => self.set_form(*form),
            Command::Create { ns, options } => self.create(ns, options),
            Command::DropColl { ns } => self.drop_collection(ns),
            Command::DropDatabase { db } => self.drop_database(db),
            Command::Rename { from, to } => self.rename(from, to),
            Command::Document(cmd) => self.apply_to_document(cmd),
            Command::CreateIndex { ns, def } => self.create_index(ns, def),
            Command::DropIndex { ns, name } => self.drop_index(ns, name),
            Command::Txn { commands } => self.apply_together(commands),
        }
    }

    /// Applies a command, and gives the number of entries that it records: 2 where an insert makes its collection, 0 of a
    /// clock, a form, and what changes nothing, else 1. On an error, a refusal or want of memory, the store is as before.
    ///
    /// The time is that of the document and of log n for n documents, and for each index of the collection of a search for each
    /// key of the document. The first insert, replacement or update in a collection with indexes builds them over all its
    /// documents, and so does the first one behind a change of its definitions, its rename, or a transaction that names it and is
    /// too large.
    pub fn apply(&mut self, cmd: &Command) -> Result<u32, StoreFault>
        requires { self.old.log.recorded < 4000000000 }
        ensures stage { (st : Stage) → StandsAt self.old st → AppliedAt cmd.now st result self.new }
        ensures recorded { IfOk result (λ n. self.new.log.recorded ≡ self.old.log.recorded + n) }
        ensures most { IfOk result (λ n. n ≤ 2) }
        ensures err { OnErr result (self.new ≡ self.old) }
    {
        keeps_the_longest_suffix();
        oplog_is_kept();
        self.log.is_kept();
        self.applied(cmd)
    }
}
