//! The lines of a collection.
ghost use Rattle.std.specs.Prelude.{◌≡◌, ◌≤◌, ◌++◌, ◌∷◌, ℕ, List, OnOk, OnErr, IfOk, IsErrOf, string_bytes};
ghost use Rattle.json_text.specs.Print.{text_of};
ghost use Rattle.std.specs.Io.KnownBytes.{Appends};
ghost use Rattle.bson_value.specs.Namespace.{dot};
ghost use Rattle.tool_io.specs.Causes.{Rose, AppendsFront};
ghost use Rattle.state_listing.specs.Listing.{name_text, head_text, index_line};

use containers::Text as JText;
use json_text::print;
use json_tree::Tree;
use std::alloc::{AllocError, Global};
use tool_io::{Fault, Sink};

/// The name of a collection, `db.collection`, as a JSON string.
pub fn quoted_name(alloc: Global, db: &str, coll: &str) -> Result<JText, AllocError>
    ensures { IfOk result (λ t. t ≡ name_text db.now coll.now) }
{
    let mut name = JText::of(alloc, db)?;
    name.push_str(".")?;
    name.push_str(coll)?;
    print(alloc, &Tree::Str(name))
}

// The lines of a name and of options that are printed.
fn head_of(alloc: Global, name: &str, count: usize, options: &str) -> Result<String, AllocError>
    ensures { (db : List ℕ) → (coll : List ℕ) → (o : Tree) → name.now ≡ name_text db coll → options.now ≡ text_of o → IfOk result (λ s. string_bytes s ≡ head_text db coll count o) }
{
    format!(in alloc; "collection {name} {count}\noptions {options}\n")
}

fn head(
    alloc: Global,
    db: &str,
    coll: &str,
    count: usize,
    options: &Tree,
) -> Result<String, AllocError>
    ensures { IfOk result (λ s. string_bytes s ≡ head_text db.now coll.now count options.now) }
{
    let name = quoted_name(alloc, db, coll)?;
    let options = print(alloc, options)?;
    head_of(alloc, name.as_str(), count, options.as_str())
}

/// Writes the lines of a collection that stand before its documents. It is one write.
pub(crate) fn write_head<K: Sink>(
    alloc: Global,
    db: &str,
    coll: &str,
    count: usize,
    options: &Tree,
    sink: &mut K,
) -> Result<(), Fault>
    ensures ok { OnOk result (Appends (K.end sink.old).bytes (K.end sink.new).bytes (head_text db.now coll.now count options.now)) }
    ensures err { OnErr result (AppendsFront (K.end sink.old).bytes (K.end sink.new).bytes (head_text db.now coll.now count options.now)) }
    ensures later { (K.end sink.old).faults ≤ (K.end sink.new).faults }
    ensures cause { IsErrOf result Fault.Failed → Rose (K.end sink.old).faults (K.end sink.new).faults }
{
    match head(alloc, db, coll, count, options) {
        Ok(text) => sink.write(text.as_bytes()),
        Err(_) => Err(Fault::NoMemory),
    }
}

fn index(alloc: Global, count: Option<u64>, def: &Tree) -> Result<String, AllocError>
    ensures { IfOk result (λ s. string_bytes s ≡ index_line count def.now) }
{
    let def = print(alloc, def)?;
    let def = def.as_str();
    match count {
        Some(count) => format!(in alloc; "index {count} {def}\n"),
        None => format!(in alloc; "index unbuilt {def}\n"),
    }
}

/// Writes the line of an index: the number of its keys, or that it isn't built, and its definition. It is one write.
pub(crate) fn write_index<K: Sink>(
    alloc: Global,
    count: Option<u64>,
    def: &Tree,
    sink: &mut K,
) -> Result<(), Fault>
    ensures ok { OnOk result (Appends (K.end sink.old).bytes (K.end sink.new).bytes (index_line count def.now)) }
    ensures err { OnErr result (AppendsFront (K.end sink.old).bytes (K.end sink.new).bytes (index_line count def.now)) }
    ensures later { (K.end sink.old).faults ≤ (K.end sink.new).faults }
    ensures cause { IsErrOf result Fault.Failed → Rose (K.end sink.old).faults (K.end sink.new).faults }
{
    match index(alloc, count, def) {
        Ok(text) => sink.write(text.as_bytes()),
        Err(_) => Err(Fault::NoMemory),
    }
}
