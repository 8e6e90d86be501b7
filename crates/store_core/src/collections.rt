//! Commands on collections.
ghost use Rattle.std.specs.Prelude.{◌≡◌, ◌<◌, ◌∷◌, [], not, IfOk, Some, None, if◌then◌else◌};
ghost use Rattle.std.specs.FinMap as map;
ghost use Rattle.schedule_model.specs.declared.refused.Refused.TheVariants.{NoSuchNamespace};
ghost use Rattle.copy_model.specs.Writes as writes;
ghost use Rattle.history_model.specs.Entries as entries;
ghost use Rattle.history_model.specs.Stages as stages;
ghost use Rattle.history_model.specs.Commands.{only};
ghost use Rattle.store_core.specs.Applying.{Applies, Decided, refusal_or};

use crate::entries::{spelled_of, spelled_of_database};
use crate::fault::StoreFault;
use crate::store::Store;
use bson_value::{Doc, NsName, Text};
use command_refusals::{create_refusal, has_database, rename_refusal};
use command_rules::options_of;
use entry_model::Action;
use json_tree::Tree;
use schedule_model::{Command, Refused};
use std::alloc::AllocError;

// The refusal, if there is one.
pub(crate) fn unless(refused: Option<Refused>) -> Result<(), StoreFault>
    ensures { result ≡ refusal_or refused }
{
    match refused {
        Some(refused) => Err(StoreFault::Refused(refused)),
        None => Ok(()),
    }
}

impl Store {
    // The collection is there, or its lack refuses a command.
    pub(crate) fn needs(&self, ns: &NsName) -> Result<(), StoreFault>
        ensures { result ≡ refusal_or (if map.contains_key self.now.rows.tables ns.now then None else Some NoSuchNamespace) }
    {
        if self.state.has(ns) {
            Ok(())
        } else {
            Err(StoreFault::Refused(Refused::NoSuchNamespace))
        }
    }

    /// The options as a collection keeps them that may be made.
    pub(crate) fn creation(&self, ns: &NsName, options: &Doc) -> Result<Tree, StoreFault>
        ensures { Decided (Command.Create ns.now options.now) self.now (λ tree. only (writes.Create ns.now tree) (entries.Create ns.now options.now)) result }
    {
        let tree = options_of(self.alloc, options)?;
        unless(create_refusal(self.alloc, &self.state, ns, options, &tree)?)?;
        Ok(tree)
    }

    pub(crate) fn create(&mut self, ns: &NsName, options: &Doc) -> Result<u32, StoreFault>
        requires { self.old.log.recorded < 4000000000 }
        ensures { Applies (Command.Create ns.now options.now) self.old result self.new }
    {
        let tree = self.creation(ns, options)?;
        let options = options.copy(self.alloc)?;
        let bytes = spelled_of(self.alloc, self.next_ts(), ns, Action::Create { options })?;
        self.make(ns, tree, bytes)?;
        Ok(1)
    }

    /// Whether a collection may be dropped.
    pub(crate) fn drop_of(&self, ns: &NsName) -> Result<(), StoreFault>
        ensures { Decided (Command.DropColl ns.now) self.now (λ _. only (writes.DropColl ns.now) (entries.DropColl ns.now)) result }
    {
        self.needs(ns)
    }

    pub(crate) fn drop_collection(&mut self, ns: &NsName) -> Result<u32, StoreFault>
        requires { self.old.log.recorded < 4000000000 }
        ensures { Applies (Command.DropColl ns.now) self.old result self.new }
    {
        self.drop_of(ns)?;
        let bytes = spelled_of(self.alloc, self.next_ts(), ns, Action::DropColl)?;
        self.take_collection(ns, bytes);
        Ok(1)
    }

    /// Whether a database may be dropped.
    pub(crate) fn drop_of_database(&self, db: &Text) -> Result<(), StoreFault>
        ensures { Decided (Command.DropDatabase db.now) self.now (λ _. only (writes.DropDb db.now) (entries.DropDb db.now)) result }
    {
        if has_database(&self.state, db.as_str()) {
            Ok(())
        } else {
            Err(StoreFault::Refused(Refused::NoSuchNamespace))
        }
    }

    pub(crate) fn drop_database(&mut self, db: &Text) -> Result<u32, StoreFault>
        requires { self.old.log.recorded < 4000000000 }
        ensures { Applies (Command.DropDatabase db.now) self.old result self.new }
    {
        self.drop_of_database(db)?;
        let bytes = spelled_of_database(self.alloc, self.next_ts(), db.as_str(), Action::DropDb)?;
        self.take_database(db.as_str(), bytes);
        Ok(1)
    }

    /// Whether a collection may be renamed.
    pub(crate) fn renaming(&self, from: &NsName, to: &NsName) -> Result<(), StoreFault>
        ensures { Decided (Command.Rename from.now to.now) self.now (λ _. (stages.Rename from.now to.now, entries.Rename from.now to.now) ∷ []) result }
    {
        unless(rename_refusal(&self.state, from, to))
    }

    // The action of a rename.
    fn rename_action(&self, from: &NsName, to: &NsName) -> Result<Action, AllocError>
        ensures { IfOk result (λ a. a ≡ Action.Rename from.now to.now) }
    {
        Ok(Action::Rename {
            from: from.copy(self.alloc)?,
            to: to.copy(self.alloc)?,
        })
    }

    pub(crate) fn rename(&mut self, from: &NsName, to: &NsName) -> Result<u32, StoreFault>
        requires { self.old.log.recorded < 4000000000 }
        ensures { Applies (Command.Rename from.now to.now) self.old result self.new }
    {
        self.renaming(from, to)?;
        let action = self.rename_action(from, to)?;
        let bytes = spelled_of(self.alloc, self.next_ts(), from, action)?;
        self.move_collection(from, to, bytes)?;
        Ok(1)
    }
}
