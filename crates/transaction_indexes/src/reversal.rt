//! Changes that indexes followed, taken back.
ghost use Rattle.std.specs.Prelude.{◌≡◌, OnOk};
ghost use Rattle.bson_value.specs.declared.namespace.NsName.{NsName as Name};
ghost use Rattle.coll_state.specs.ChangeAll.{AreThere, change_all};
ghost use Rattle.coll_state.specs.Rows.{Rows};
ghost use Rattle.history_model.specs.Indexes.{IndexesHold};
ghost use Rattle.kept_indexes.specs.Kept.{kept_at, AreKept};
ghost use Rattle.transaction_indexes.specs.Following.{StayKept};
ghost use Rattle.transaction_indexes.specs.Reversal.{Documents, HaveKeysOf, NoneOf, as_in, without};

use coll_state::{Change, State};
use kept_indexes::KeptIndexes;
use std::alloc::{AllocError, Global};

// Takes the documents out that the changes name.
fn take_out(alloc: Global, indexes: &mut KeptIndexes, changes: &[Change]) -> Result<(), AllocError>
    ensures out { OnOk result ((f : Documents) (r : Rows) → HaveKeysOf f indexes.old r → HaveKeysOf (without changes.now f) indexes.new r) }
    ensures stay { OnOk result (StayKept indexes.old indexes.new) }
    ensures others { (n : Name) → NoneOf changes.now n → kept_at indexes.new n ≡ kept_at indexes.old n }
{
    for change in changes {
        indexes.remove(alloc, &change.ns, &change.id)?;
    }
    Ok(())
}

// Puts those in again that stand.
fn put_back(
    alloc: Global,
    state: &State,
    indexes: &mut KeptIndexes,
    changes: &[Change],
) -> Result<(), AllocError>
    ensures back { OnOk result ((f : Documents) → HaveKeysOf (without changes.now f) indexes.old state.now → HaveKeysOf (as_in state.now changes.now f) indexes.new state.now) }
    ensures stay { OnOk result (StayKept indexes.old indexes.new) }
    ensures others { (n : Name) → NoneOf changes.now n → kept_at indexes.new n ≡ kept_at indexes.old n }
{
    for change in changes {
        if let Some(doc) = state.copy_of(alloc, &change.ns, &change.id)? {
            indexes.put(alloc, &change.ns, &doc)?;
        }
    }
    Ok(())
}

/// Takes changes back which the indexes followed and the collections didn't: the indexes are those of the collections again.
/// It takes the time of following the changes. On an error, which is want of memory, those of the changed collections are to
/// be let go of. The others stay as they are.
pub fn take_back(
    alloc: Global,
    state: &State,
    indexes: &mut KeptIndexes,
    changes: &[Change],
) -> Result<(), AllocError>
    requires hold { IndexesHold state.now }
    requires there { AreThere changes.now state.now.tables }
    requires kept { AreKept indexes.old (change_all changes.now state.now) }
    ensures kept { OnOk result (AreKept indexes.new state.now) }
    ensures stay { OnOk result (StayKept indexes.old indexes.new) }
    ensures others { (n : Name) → NoneOf changes.now n → kept_at indexes.new n ≡ kept_at indexes.old n }
{
    state.is_sound();
    take_out(alloc, indexes, changes)?;
    put_back(alloc, state, indexes, changes)
}
