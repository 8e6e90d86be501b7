//! The prelude of a dump: the metadata of the collections as they stand when it begins.
ghost use Rattle.std.specs.Prelude.{◌≡◌, ◌≤◌, All, true, OnOk, OnErr, IfOk, IsErrOf, IsTrue};
ghost use Rattle.std.specs.Prelude.{map as each};
ghost use Rattle.std.specs.FinMap as map;
ghost use Rattle.std.specs.Io.KnownBytes.{Appends};
ghost use Rattle.tool_io.specs.Causes.{Rose, AppendsFront};
ghost use Rattle.archive_format.specs.Written.{prelude_text, MetaFits};
ghost use Rattle.archive_prelude.specs.Parts.{metadata_of, header_of_prelude, PreludeFits};
ghost use Rattle.coll_state.specs.Rows.{state_of};
ghost use Rattle.dump_model.specs.Archives.{header, metas_of};
ghost use Rattle.dump_run.specs.Preludes.{meta_at};

use archive_prelude::{Meta, Prelude, write};
use bson_value::{List, NsName, Text};
use coll_state::State;
use metadata_text::metadata_text;
use std::alloc::{AllocError, Global};
use tool_io::{Fault, Sink};

/// The most bytes of both names and of the text of metadata that fit a document.
const MOST_META_BYTES: usize = 16793523;

fn fits(ns: &NsName, text: &Text) -> bool
    ensures { IsTrue result → MetaFits (record { ns = ns.now; text = text.now }) }
{
    ns.db
        .len()
        .saturating_add(ns.coll.len())
        .saturating_add(text.len())
        <= MOST_META_BYTES
}

// The metadata of a collection that is there.
fn meta_of(alloc: Global, state: &State, ns: &NsName) -> Result<Meta, AllocError>
    requires { map.contains_key state.now.tables ns.now ≡ true }
    ensures meta { IfOk result (λ m. metadata_of m ≡ meta_at ns.now (map.get state.now.tables ns.now)) }
    ensures fits { IfOk result (λ m. MetaFits (metadata_of m)) }
{
    let Some(options) = state.options(ns) else {
        unreachable!();
    };
    let Some(defs) = state.indexes(ns) else {
        unreachable!();
    };
    let text = metadata_text(alloc, ns, options, defs)?;
    if !fits(ns, &text) {
        return Err(AllocError);
    }
    let ns = ns.copy(alloc)?;
    Ok(Meta { ns, text })
}

// The metadata of all collections, by their names.
fn metas_of(alloc: Global, state: &State) -> Result<List<Meta>, AllocError>
    ensures metas { IfOk result (λ ms. each metadata_of ms ≡ metas_of (state_of state.now)) }
    ensures fit { IfOk result (All (λ m. MetaFits (metadata_of m))) }
{
    let mut metas = List::new(alloc);
    let mut left = state.namespaces();
    'collections: while let Some(ns) = left.next() {
        let meta = meta_of(alloc, state, ns)?;
        metas.push(meta)?;
    }
    Ok(metas)
}

fn prelude_of(alloc: Global, state: &State) -> Result<Prelude, AllocError>
    ensures prelude { IfOk result (λ p. PreludeFits p × (header_of_prelude p ≡ header) × (each metadata_of p.metas ≡ metas_of (state_of state.now))) }
{
    Ok(Prelude {
        concurrent: 1,
        server: Text::of(alloc, "0.0.0")?,
        tool: Text::of(alloc, "0.0.0")?,
        metas: metas_of(alloc, state)?,
    })
}

/// Writes the prelude of a state. Where the metadata of a collection are too long for a document, the answer is want of
/// memory.
pub(crate) fn write_prelude<K: Sink>(
    alloc: Global,
    state: &State,
    sink: &mut K,
) -> Result<(), Fault>
    ensures ok { OnOk result (Appends (K.end sink.old).bytes (K.end sink.new).bytes (prelude_text header (metas_of (state_of state.now)))) }
    ensures err { OnErr result (AppendsFront (K.end sink.old).bytes (K.end sink.new).bytes (prelude_text header (metas_of (state_of state.now)))) }
    ensures later { (K.end sink.old).faults ≤ (K.end sink.new).faults }
    ensures failed { IsErrOf result Fault.Failed → Rose (K.end sink.old).faults (K.end sink.new).faults }
{
    match prelude_of(alloc, state) {
        Ok(prelude) => write(alloc, &prelude, sink),
        Err(_) => Err(Fault::NoMemory),
    }
}
