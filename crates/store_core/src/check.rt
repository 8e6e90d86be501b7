//! What a command to the store would record.
ghost use Rattle.std.specs.Prelude.{◌≡◌, ◌≤◌, IfOk};
ghost use Rattle.history_model.specs.Stages.{Stage};
ghost use Rattle.store_core.specs.Stores.{StandsAt};
ghost use Rattle.store_core.specs.Applying.{CheckedAt, Checks};

use crate::fault::StoreFault;
use crate::store::Store;
use bson_value::{Doc, List, NsName, Text, Value};
use kept_indexes::KeptIndexes;
use schedule_model::{Command, DocumentCommand};

impl Store {
    fn check_insert(&self, ns: &NsName, doc: &Doc) -> Result<u32, StoreFault>
        ensures { Checks (Command.Document (DocumentCommand.Insert ns.now doc.now)) self.now result }
    {
        self.insertion(ns, doc)?;
        if self.state.has(ns) { Ok(1) } else { Ok(2) }
    }

    fn check_replace(&self, ns: &NsName, doc: &Doc) -> Result<u32, StoreFault>
        ensures { Checks (Command.Document (DocumentCommand.Replace ns.now doc.now)) self.now result }
    {
        if self.replacement(ns, doc)? {
            Ok(1)
        } else {
            Ok(0)
        }
    }

    fn check_update(&self, ns: &NsName, id: &Value, ops: &Doc) -> Result<u32, StoreFault>
        ensures { Checks (Command.Document (DocumentCommand.Update ns.now id.now ops.now)) self.now result }
    {
        match self.update_of(ns, id, ops)? {
            Some(_) => Ok(1),
            None => Ok(0),
        }
    }

    fn check_delete(&self, ns: &NsName, id: &Value) -> Result<u32, StoreFault>
        ensures { Checks (Command.Document (DocumentCommand.Delete ns.now id.now)) self.now result }
    {
        self.removal(ns, id)?;
        Ok(1)
    }

    fn check_document(&self, cmd: &DocumentCommand) -> Result<u32, StoreFault>
        ensures { Checks (Command.Document cmd.now) self.now result }
    {
        match cmd {
            DocumentCommand::Insert { ns, doc } => self.check_insert(ns, doc),
            DocumentCommand::Replace { ns, doc } => self.check_replace(ns, doc),
            DocumentCommand::Update { ns, id, ops } => self.check_update(ns, id, ops),
            DocumentCommand::Delete { ns, id } => self.check_delete(ns, id),
        }
    }

    fn check_together(&self, commands: &List<DocumentCommand>) -> Result<u32, StoreFault>
        ensures { Checks (Command.Txn commands.now) self.now result }
    {
        let mut indexes = KeptIndexes::new(self.alloc);
        match self.together(&mut indexes, commands)? {
            Some(_) => Ok(1),
            None => Ok(0),
        }
    }

    fn check_create(&self, ns: &NsName, options: &Doc) -> Result<u32, StoreFault>
        ensures { Checks (Command.Create ns.now options.now) self.now result }
    {
        self.creation(ns, options)?;
        Ok(1)
    }

    fn check_drop(&self, ns: &NsName) -> Result<u32, StoreFault>
        ensures { Checks (Command.DropColl ns.now) self.now result }
    {
        self.drop_of(ns)?;
        Ok(1)
    }

    fn check_drop_of_database(&self, db: &Text) -> Result<u32, StoreFault>
        ensures { Checks (Command.DropDatabase db.now) self.now result }
    {
        self.drop_of_database(db)?;
        Ok(1)
    }

    fn check_rename(&self, from: &NsName, to: &NsName) -> Result<u32, StoreFault>
        ensures { Checks (Command.Rename from.now to.now) self.now result }
    {
        self.renaming(from, to)?;
        Ok(1)
    }

    fn check_index(&self, ns: &NsName, def: &Doc) -> Result<u32, StoreFault>
        ensures { Checks (Command.CreateIndex ns.now def.now) self.now result }
    {
        self.index_to_add(ns, def)?;
        Ok(1)
    }

    fn check_drop_of_index(&self, ns: &NsName, name: &Text) -> Result<u32, StoreFault>
        ensures { Checks (Command.DropIndex ns.now name.now) self.now result }
    {
        self.drop_of_index(ns, name)?;
        Ok(1)
    }

    fn check_clock(&self, secs: u32) -> Result<u32, StoreFault>
        ensures { Checks (Command.At secs) self.now result }
    {
        self.clock_from(secs)?;
        Ok(0)
    }

    fn checked(&self, cmd: &Command) -> Result<u32, StoreFault>
        ensures { Checks cmd.now self.now result }
    {
        match cmd {
            Command::At(secs) => self.check_clock(*secs),
            Command::Recording(_) => Ok(0),
            Command::Create { ns, options } => self.check_create(ns, options),
            Command::DropColl { ns } => self.check_drop(ns),
            Command::DropDatabase { db } => self.check_drop_of_database(db),
            Command::Rename { from, to } => self.check_rename(from, to),
            Command::Document(cmd) => self.check_document(cmd),
            Command::CreateIndex { ns, def } => self.check_index(ns, def),
            Command::DropIndex { ns, name } => self.check_drop_of_index(ns, name),
            Command::Txn { commands } => self.check_together(commands),
        }
    }

    /// The number of entries that a command would record, or why it would be refused. The store stays as it is. The time is
    /// that of `apply`, but that no indexes are kept: where those of the collection aren't kept yet, each call tests a document
    /// over all documents, and of a transaction builds those of all collections that it names.
    pub fn check(&self, cmd: &Command) -> Result<u32, StoreFault>
        ensures stage { (st : Stage) → StandsAt self.now st → CheckedAt cmd.now st result }
        ensures most { IfOk result (λ n. n ≤ 2) }
    {
        self.checked(cmd)
    }
}
