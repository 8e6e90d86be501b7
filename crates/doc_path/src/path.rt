//! Paths: names with dots between them.
ghost use Rattle.std.specs.Prelude.{◌≡◌, [], None, IfOk, OnOk, IfErr};
ghost use Rattle.doc_path.specs.declared.path.PathFault.TheVariants.{NoMemory};
ghost use Rattle.doc_path.specs.Paths.{parts_of, part_fault, first_fault, path_fault, IsFault};

use bson_value::{CText, List};
use std::alloc::{AllocError, Global};
use std::marker::Model;
use thiserror::Error;

/// Why a text is no path.
#[derive(Clone, Copy, Debug, PartialEq, Eq, Error)]
pub enum PathFault {
    #[error("no memory")]
    NoMemory,
    #[error("the path is empty")]
    Empty,
    #[error("a part of the path is empty")]
    EmptyPart,
    #[error("a part of the path begins with a dollar sign")]
    Dollar,
    #[error("a part of the path has a zero character")]
    Zero,
}

impl From<AllocError> for PathFault {
    ghost from_gives = { λ _ e. e ≡ NoMemory };

    fn from(_e: AllocError) -> PathFault {
        PathFault::NoMemory
    }
}

/// The path of a value in documents: a list of names that isn't empty. At an array a name may be that
/// of an index.
#[derive(Debug, Drop)]
pub struct Path {
    names: List<CText>,
}

impl Model for Path {
    ghost use Rattle.std.specs.Prelude.{List, ℕ, ◌≡◌, [], None};
    ghost use Rattle.std.specs.Coded.{coded_list, coded_ℕ};
    ghost use Rattle.doc_path.specs.Paths.{first_fault};

    ghost Value = { List (List ℕ) };

    ghost coded = { coded_list (coded_list coded_ℕ) };

    ghost view = { λ p. p.names };

    ghost invariant = { λ p. (p.names ≡ [] → ⊥) × (first_fault p.names ≡ None) };
}

/// A part of a path, as a name.
fn read_part(alloc: Global, part: &str) -> Result<CText, PathFault>
    ensures ok { IfOk result (λ name. name ≡ part.now) }
    ensures faultless { OnOk result (part_fault part.now ≡ None) }
    ensures fault { IfErr result (λ e. IsFault e (part_fault part.now)) }
{
    let Some(first) = part.as_bytes().first() else {
        return Err(PathFault::EmptyPart);
    };
    if *first == 36 {
        return Err(PathFault::Dollar);
    }
    if part.as_bytes().contains(&0) {
        return Err(PathFault::Zero);
    }
    Ok(CText::of_text(alloc, part)?)
}

impl Path {
    /// Reads the names between the dots of a text. The fault is that of the first bad part.
    pub fn read(alloc: Global, text: &str) -> Result<Path, PathFault>
        ensures ok { IfOk result (λ path. path ≡ parts_of text.now) }
        ensures faultless { OnOk result (path_fault text.now ≡ None) }
        ensures fault { IfErr result (λ e. IsFault e (path_fault text.now)) }
    {
        if text.is_empty() {
            return Err(PathFault::Empty);
        }
        let mut names = List::new(alloc);
        for part in text.split('.') {
            names.push(read_part(alloc, part)?)?;
        }
        Ok(Path { names })
    }

    /// The names, the outermost first. It takes no memory.
    pub fn names(&self) -> &List<CText>
        ensures names { result.now ≡ self.now }
        ensures some { self.now ≡ [] → ⊥ }
        ensures faultless { first_fault self.now ≡ None }
    {
        &self.names
    }
}
