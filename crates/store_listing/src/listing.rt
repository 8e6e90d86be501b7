//! The listing of a store.
ghost use Rattle.std.specs.Prelude.{◌≡◌, ◌≤◌, IfOk, OnOk, OnErr, IsErrOf};
ghost use Rattle.std.specs.Io.KnownBytes.{Appends};
ghost use Rattle.tool_io.specs.Causes.{Rose, AppendsFront};
ghost use Rattle.coll_state.specs.Rows.{state_of};
ghost use Rattle.index_build.specs.Numbers.{counts};
ghost use Rattle.state_listing.specs.Listing.{listing};

use document_lines::ListForm;
use held_indexes::held_are_faultless;
use index_build::{CountFault, Counts, count_all};
use state_listing::list;
use std::alloc::{AllocError, Global};
use store_core::Store;
use tool_io::{Fault, Sink};

// The indexes of a store hold, so that their keys can be counted.
fn count_store(alloc: Global, store: &Store) -> Result<Counts, AllocError>
    ensures { IfOk result (λ c. c ≡ counts (state_of store.now.rows)) }
{
    store.indexes_hold();
    held_are_faultless();
    match count_all(alloc, store.state()) {
        Ok(counts) => Ok(counts),
        Err(CountFault::NoMemory) => Err(AllocError),
        Err(CountFault::Parallel { .. }) => unreachable!(),
        Err(CountFault::Duplicate { .. }) => unreachable!(),
    }
}

/// Lists what a store holds, once the keys of its indexes are counted.
pub fn list_store<K: Sink>(
    alloc: Global,
    store: &Store,
    form: ListForm,
    output: &mut K,
) -> Result<(), Fault>
    ensures ok { OnOk result (Appends (K.end output.old).bytes (K.end output.new).bytes (listing form (state_of store.now.rows))) }
    ensures err { OnErr result (AppendsFront (K.end output.old).bytes (K.end output.new).bytes (listing form (state_of store.now.rows))) }
    ensures later { (K.end output.old).faults ≤ (K.end output.new).faults }
    ensures failed { IsErrOf result Fault.Failed → Rose (K.end output.old).faults (K.end output.new).faults }
{
    let counts = count_store(alloc, store)?;
    list(alloc, store.state(), &counts, form, output)
}
