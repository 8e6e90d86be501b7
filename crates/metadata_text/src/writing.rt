//! The metadata text of a collection.
ghost use Rattle.std.specs.Prelude.{◌≡◌, ◌++◌, true, IfOk, OnOk, map, string_bytes};
ghost use Rattle.std.specs.Str.{is_utf8};
ghost use Rattle.json_text.specs.Print.{text_of, behind_commas};
ghost use Rattle.json_tree.specs.WellFormed.{IsWellFormed, AreWellFormedItems};
ghost use Rattle.metadata_text.specs.Metadata.{metadata_tree, metadata_of};
ghost use Rattle.metadata_text.specs.RoundTrip.{AreNormal, AreShallow};

use bson_value::NsName;
use containers::{List as JList, Text};
use json_text::print;
use json_tree::Tree;
use std::alloc::{AllocError, Global};

fn put(alloc: Global, out: &mut String, tree: &Tree) -> Result<(), AllocError>
    ensures text { OnOk result (string_bytes out.new ≡ string_bytes out.old ++ text_of tree.now) }
    ensures well_formed { OnOk result (IsWellFormed tree.now) }
{
    let text = print(alloc, tree)?;
    out.push_str(text.as_str())
}

fn put_definitions(alloc: Global, out: &mut String, defs: &[Tree]) -> Result<(), AllocError>
    ensures text { OnOk result (string_bytes out.new ≡ string_bytes out.old ++ behind_commas (map text_of defs.now)) }
    ensures well_formed { OnOk result (AreWellFormedItems defs.now) }
{
    for def in defs {
        out.push_str(",")?;
        put(alloc, out, def)?;
    }
    Ok(())
}

fn written(
    alloc: Global,
    ns: &NsName,
    options: &Tree,
    defs: &JList<Tree>,
) -> Result<Text, AllocError>
    ensures text { IfOk result (λ text. text ≡ text_of (metadata_tree ns.now.coll options.now defs.now)) }
    ensures well_formed { OnOk result ((is_utf8 ns.now.coll ≡ true) × IsWellFormed options.now × AreWellFormedItems defs.now) }
{
    let mut out = String::new(alloc);
    out.push_str("{\"options\":")?;
    put(alloc, &mut out, options)?;
    out.push_str(
        ",\"indexes\":[{\"v\":{\"$numberInt\":\"2\"},\"key\":{\"_id\":{\"$numberInt\":\"1\"}},\"name\":\"_id_\"}",
    )?;
    put_definitions(alloc, &mut out, defs.as_slice())?;
    out.push_str("],\"collectionName\":")?;
    let name = Tree::Str(ns.coll.copy(alloc)?);
    put(alloc, &mut out, &name)?;
    out.push_str(",\"type\":\"collection\"}")?;
    let text = Text::from_string(out)?;
    Ok(text)
}

/// The metadata text of a collection: its options, the definition of the index on `_id`, these
/// definitions behind it, its name, and that it is a collection. `metadata_of` reads it back where these
/// are normal, as it gives them, and have few levels.
pub fn metadata_text(
    alloc: Global,
    ns: &NsName,
    options: &Tree,
    defs: &JList<Tree>,
) -> Result<Text, AllocError>
    ensures text { IfOk result (λ text. text ≡ text_of (metadata_tree ns.now.coll options.now defs.now)) }
    ensures read { AreShallow options.now defs.now → AreNormal options.now defs.now → IfOk result (λ text. metadata_of text ≡ Ok (options.now, defs.now)) }
{
    written(alloc, ns, options, defs)
}
