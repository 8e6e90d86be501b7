//! Fields of a plan that meet arrays in a document.
ghost use Rattle.std.specs.Prelude.{◌≡◌, ◌++◌, IfOk, OnOk, option_map, filter};
ghost use Rattle.index_keys.specs.Faults.{dotted, behind_dots};
ghost use Rattle.bson_value.specs.declared.value.Value.{Object};
ghost use Rattle.bson_view.specs.Held.{held_document};
ghost use Rattle.index_keys.specs.Branches.{meets_array};
ghost use Rattle.index_keys.specs.Keys.{first_two};

use crate::branches::meets;
use bson_value::CText;
use bson_view::Held;
use containers::Text;
use doc_path::Path;
use std::alloc::{AllocError, Global};

fn meets_in(path: &Path, doc: Held<'_>) -> bool
    ensures { result ≡ meets_array path.now (Object (held_document doc.entry)) }
{
    match path.names().as_slice().split_first() {
        None => false,
        Some((name, rest)) => match doc.field(name.as_str()) {
            None => false,
            Some(value) => meets(value, rest),
        },
    }
}

/// The first two paths that meet an array.
pub fn first_two<'p>(paths: &'p [Path], doc: Held<'_>) -> Option<(&'p Path, &'p Path)>
    ensures { option_map (λ two. (two.0.now, two.1.now)) result ≡ first_two (filter (λ p. meets_array p (Object (held_document doc.entry))) paths.now) }
{
    let mut first: Option<&Path> = None;
    for path in paths {
        if meets_in(path, doc) {
            match first {
                Some(first) => return Some((first, path)),
                None => first = Some(path),
            }
        }
    }
    None
}

// Puts in each name behind a dot.
#[tactic(auto, using(crate::proofs::Dots::next_name))]
fn put_names(text: &mut Text, names: &[CText]) -> Result<(), AllocError>
    ensures { OnOk result (text.new ≡ text.old ++ behind_dots names.now) }
{
    for name in names {
        text.push_str(".")?;
        text.push_str(name.as_str())?;
    }
    Ok(())
}

/// The text of the path: its names with dots between them.
pub fn dotted(alloc: Global, path: &Path) -> Result<Text, AllocError>
    ensures { IfOk result (λ t. t ≡ dotted path.now) }
{
    match path.names().as_slice().split_first() {
        None => Ok(Text::new(alloc)),
        Some((first, rest)) => {
            let mut text = Text::of(alloc, first.as_str())?;
            put_names(&mut text, rest)?;
            Ok(text)
        }
    }
}
