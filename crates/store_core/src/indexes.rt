//! Commands on indexes.
ghost use Rattle.std.specs.Prelude.{◌≡◌, ◌<◌, ◌∷◌, [], IfOk};
ghost use Rattle.copy_model.specs.Writes as writes;
ghost use Rattle.extjson.specs.Values.{value_of};
ghost use Rattle.history_model.specs.Entries.{fields_read};
ghost use Rattle.history_model.specs.Entries as entries;
ghost use Rattle.history_model.specs.Commands.{only};
ghost use Rattle.store_core.specs.Applying.{Applies, Decided};

use crate::collections::unless;
use crate::entries::spelled_of;
use crate::fault::StoreFault;
use crate::store::Store;
use bson_value::{Doc, List, NsName, Text, Value};
use command_refusals::{drop_index_refusal, index_refusal};
use command_rules::normal_of;
use entry_model::Action;
use extjson::{ExtFault, value_of};
use json_tree::Tree;
use schedule_model::Command;
use std::alloc::{AllocError, Global};

// The fields of a definition in normal form, as its entry has them.
fn fields_of(alloc: Global, def: &Tree) -> Result<Doc, AllocError>
    ensures { IfOk result (λ d. d ≡ fields_read (value_of def.now)) }
{
    match value_of(alloc, def) {
        Ok(Value::Object(doc)) => Ok(doc),
        Ok(_) => Ok(Doc::new(alloc)),
        Err(ExtFault::NoMemory) => Err(AllocError),
        Err(_) => Ok(Doc::new(alloc)),
    }
}

impl Store {
    /// The normal form of a definition that may be added.
    pub(crate) fn index_to_add(&self, ns: &NsName, def: &Doc) -> Result<Tree, StoreFault>
        ensures { Decided (Command.CreateIndex ns.now def.now) self.now (λ form. only (writes.AddIndex ns.now form) (entries.AddIndex ns.now form)) result }
    {
        let form = normal_of(self.alloc, def)?;
        unless(index_refusal(self.alloc, &self.state, ns, def, form.as_ref())?)?;
        match form {
            Some(form) => Ok(form),
            None => unreachable!(),
        }
    }

    // The action of an index.
    fn index_action(&self, form: &Tree) -> Result<Action, AllocError>
        ensures { IfOk result (λ a. a ≡ Action.AddIndexes (fields_read (value_of form.now) ∷ [])) }
    {
        let mut defs = List::new(self.alloc);
        defs.push(fields_of(self.alloc, form)?)?;
        Ok(Action::AddIndexes { defs })
    }

    pub(crate) fn create_index(&mut self, ns: &NsName, def: &Doc) -> Result<u32, StoreFault>
        requires { self.old.log.recorded < 4000000000 }
        ensures { Applies (Command.CreateIndex ns.now def.now) self.old result self.new }
    {
        let form = self.index_to_add(ns, def)?;
        let action = self.index_action(&form)?;
        let bytes = spelled_of(self.alloc, self.next_ts(), ns, action)?;
        self.put_index(ns, form, bytes)?;
        Ok(1)
    }

    /// Whether an index may be dropped.
    pub(crate) fn drop_of_index(&self, ns: &NsName, name: &Text) -> Result<(), StoreFault>
        ensures { Decided (Command.DropIndex ns.now name.now) self.now (λ _. only (writes.DropIndex ns.now name.now) (entries.DropIndex ns.now name.now)) result }
    {
        unless(drop_index_refusal(&self.state, ns, name.as_str()))
    }

    pub(crate) fn drop_index(&mut self, ns: &NsName, name: &Text) -> Result<u32, StoreFault>
        requires { self.old.log.recorded < 4000000000 }
        ensures { Applies (Command.DropIndex ns.now name.now) self.old result self.new }
    {
        self.drop_of_index(ns, name)?;
        let action = Action::DropIndex {
            name: name.copy(self.alloc)?,
        };
        let bytes = spelled_of(self.alloc, self.next_ts(), ns, action)?;
        self.take_index(ns, name.as_str(), bytes);
        Ok(1)
    }
}
