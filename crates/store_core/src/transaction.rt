//! Transactions.
ghost use Rattle.std.specs.Prelude.{◌≡◌, ◌<◌, ◌^◌, List as Items, IfOk, OnOk, OnErr, length};
ghost use Rattle.schedule_model.specs.declared.command.DocumentCommand.{DocumentCommand as Named};
ghost use Rattle.coll_state.specs.ChangeAll.{AreThere, HaveIds, change_all};
ghost use Rattle.history_model.specs.Indexes.{IndexesHold};
ghost use Rattle.kept_indexes.specs.Kept.{AreKept};
ghost use Rattle.store_log.specs.Logged.{logged};
ghost use Rattle.transaction_indexes.specs.Following.{OthersStay};
ghost use Rattle.transactions.specs.Transactions.{AreGood};
ghost use Rattle.store_core.specs.Applying.{Applies};
ghost use Rattle.store_core.specs.Together.{AreKeptAfter, MakesTogether, Trial, Tries, rows_behind, rows_changed};

use crate::entries::spelled_of_database;
use crate::fault::StoreFault;
use crate::store::Store;
use bson_value::{Bytes, List};
use coll_state::Change;
use entry_documents::entry_sizes;
use entry_model::Action;
use kept_indexes::KeptIndexes;
use schedule_model::{Command, DocumentCommand, Refused};
use std::alloc::AllocError;
use std::mem;
use transaction_indexes::forget_all;
use transactions::{Transaction, changes_are_writes, changes_together};

/// An entry of a transaction has at most so many bytes.
const MOST_BYTES: usize = 16_793_600;

/// The changes of a transaction, and the bytes of the entry that records them.
#[derive(Drop)]
pub(crate) struct Group {
    pub(crate) changes: List<Change>,
    pub(crate) bytes: Bytes,
}

impl Store {
    // The changes of a transaction none of whose commands is refused, which the indexes follow.
    fn transaction(
        &self,
        indexes: &mut KeptIndexes,
        commands: &List<DocumentCommand>,
    ) -> Result<Transaction, StoreFault>
        requires { AreKept indexes.old self.now.rows }
        ensures tries { Tries commands.now self.now result }
        ensures kept { AreKeptAfter rows_behind result indexes.new self.now.rows }
        ensures others { OthersStay commands.now indexes.old indexes.new }
    {
        let ts = self.next_ts();
        let form = self.log.form();
        let commands = commands.as_slice();
        match changes_together(self.alloc, &self.state, indexes, ts, form, commands)? {
            Ok(transaction) => Ok(transaction),
            Err(row) => Err(StoreFault::Refused(row)),
        }
    }

    // The changes of a transaction with their entry, if there are any and it isn't too large.
    fn group(&self, transaction: Transaction) -> Result<Option<Group>, StoreFault>
        ensures makes { (ds : Items Named) → Trial ds self.now transaction → MakesTogether ds self.now result }
        ensures behind { IfOk result (λ group. rows_changed group self.now.rows ≡ rows_behind transaction self.now.rows) }
    {
        entry_sizes();
        let Transaction { changes, entries } = transaction;
        if changes.len() == 0 {
            return Ok(None);
        }
        let action = Action::Group { entries };
        let bytes = spelled_of_database(self.alloc, self.next_ts(), "admin", action)?;
        if bytes.len() > MOST_BYTES {
            return Err(StoreFault::Refused(Refused::TooLarge));
        }
        Ok(Some(Group { changes, bytes }))
    }

    /// What a transaction makes that isn't refused; none where nothing changes. The indexes follow it.
    pub(crate) fn together(
        &self,
        indexes: &mut KeptIndexes,
        commands: &List<DocumentCommand>,
    ) -> Result<Option<Group>, StoreFault>
        requires { AreKept indexes.old self.now.rows }
        ensures makes { MakesTogether commands.now self.now result }
        ensures kept { AreKeptAfter rows_changed result indexes.new self.now.rows }
    {
        let transaction = self.transaction(indexes, commands)?;
        let group = self.group(transaction);
        if group.is_err() {
            forget_all(indexes, commands.as_slice());
        }
        group
    }

    // Makes all changes, with their entry. `indexes` are those behind the changes.
    fn change(&mut self, group: Group, indexes: KeptIndexes) -> Result<(), AllocError>
        requires there { AreThere group.changes self.old.rows.tables }
        requires ids { HaveIds group.changes }
        requires good { AreGood group.changes self.old.rows.tables }
        requires count { length group.changes < 2 ^ 64 }
        requires holds { IndexesHold (change_all group.changes self.old.rows) }
        requires kept { AreKept indexes (change_all group.changes self.old.rows) }
        requires few { self.old.log.recorded < 4000000000 }
        ensures ok { OnOk result (self.new ≡ record { rows = change_all group.changes self.old.rows; log = logged group.bytes self.old.log }) }
        ensures err { OnErr result (self.new ≡ self.old) }
    {
        changes_are_writes();
        let Group { changes, bytes } = group;
        self.state.change(self.alloc, changes)?;
        self.indexes = indexes;
        self.log.add(bytes);
        Ok(())
    }

    pub(crate) fn apply_together(
        &mut self,
        commands: &List<DocumentCommand>,
    ) -> Result<u32, StoreFault>
        requires { self.old.log.recorded < 4000000000 }
        ensures { Applies (Command.Txn commands.now) self.old result self.new }
    {
        changes_are_writes();
        self.indexes_hold();
        let mut indexes = mem::replace(&mut self.indexes, KeptIndexes::new(self.alloc));
        let group = match self.together(&mut indexes, commands) {
            Ok(group) => group,
            Err(fault) => {
                self.indexes = indexes;
                return Err(fault);
            }
        };
        match group {
            Some(group) => {
                self.change(group, indexes)?;
                Ok(1)
            }
            None => {
                self.indexes = indexes;
                Ok(0)
            }
        }
    }
}
