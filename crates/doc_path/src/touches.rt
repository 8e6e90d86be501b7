//! Places and touches.
ghost use Rattle.std.specs.Prelude.{◌≡◌, ◌↔◌, [], ◌∷◌, ◌++◌, IsTrue, OnOk, OnErr, IfOk, IfSome, IfNone};
ghost use Rattle.bson_value.specs.Place.{Place as Names};
ghost use Rattle.doc_path.specs.Places.{keys, IsAbove};

use crate::parts::Part;
use bson_value::{List, Value};
use std::alloc::{AllocError, Global};
use std::marker::Model;

/// A place in a document: a list of parts that isn't empty.
#[derive(Drop)]
pub struct Place {
    parts: List<Part>,
}

impl Model for Place {
    ghost use Rattle.std.specs.Prelude.{List, [], ◌≡◌};
    ghost use Rattle.std.specs.Coded.{coded_list};
    ghost use Rattle.doc_path.specs.declared.parts.Part.{Part as OnePart};
    ghost use Rattle.doc_path.specs.contracts.parts.Part as part;

    ghost Value = { List OnePart };

    ghost coded = { coded_list part.the_row.coded };

    ghost view = { λ p. p.parts };

    ghost invariant = { λ p. p.parts ≡ [] → ⊥ };
}

impl Place {
    /// A place at the top of a document.
    pub fn new(alloc: Global, first: Part) -> Result<Place, AllocError>
        ensures { IfOk result (λ p. p ≡ first ∷ []) }
    {
        let mut parts = List::with_capacity(alloc, 1)?;
        parts.push(first)?;
        Ok(Place { parts })
    }

    /// One part more.
    pub fn push(&mut self, part: Part) -> Result<(), AllocError>
        ensures ok { OnOk result (self.new ≡ self.old ++ part ∷ []) }
        ensures err { OnErr result (self.new ≡ self.old) }
    {
        self.parts.push(part)
    }

    /// Its parts from the top down, at least one.
    pub fn parts(&self) -> &List<Part>
        ensures parts { result.now ≡ self.now }
        ensures some { self.now ≡ [] → ⊥ }
    {
        &self.parts
    }

    /// An equal place.
    pub fn copy(&self, alloc: Global) -> Result<Place, AllocError>
        ensures { IfOk result (λ place. place ≡ self.now) }
    {
        Ok(Place {
            parts: copy_parts(alloc, self.parts.as_slice())?,
        })
    }

    /// Whether both are one place, part by part as `Part::same`. It takes no memory.
    pub fn same(&self, other: &Place) -> bool
        ensures { IsTrue result ↔ (keys self.now ≡ keys other.now) }
    {
        match behind(other.parts.as_slice(), self.parts.as_slice()) {
            Some(rest) => rest.is_empty(),
            None => false,
        }
    }

    /// Whether the other place goes on from this one, by a part at least. It takes no memory.
    pub fn is_above(&self, other: &Place) -> bool
        ensures { IsTrue result ↔ IsAbove (keys self.now) (keys other.now) }
    {
        match behind(other.parts.as_slice(), self.parts.as_slice()) {
            Some(rest) => !rest.is_empty(),
            None => false,
        }
    }
}

fn copy_parts(alloc: Global, parts: &[Part]) -> Result<List<Part>, AllocError>
    ensures { IfOk result (λ copies. copies ≡ parts.now) }
{
    let mut copies = List::with_capacity(alloc, parts.len())?;
    for part in parts {
        copies.push(part.copy(alloc)?)?;
    }
    Ok(copies)
}

/// The parts of a place behind those of the other, where it begins with them.
fn behind<'p>(place: &'p [Part], front: &[Part]) -> Option<&'p [Part]>
    ensures some { IfSome result (λ rest. keys place.now ≡ keys front.now ++ keys rest.now) }
    ensures none { IfNone result ((rest : Names) → keys place.now ≡ keys front.now ++ rest → ⊥) }
{
    match front.split_first() {
        None => Some(place),
        Some((first, others)) => {
            let (part, rest) = place.split_first()?;
            if first.same(part) {
                behind(rest, others)
            } else {
                None
            }
        }
    }
}

/// What replay does to a document.
#[derive(Drop)]
pub enum Touch {
    Set {
        place: Place,
        value: Value,
        fresh: bool,
    },
    Unset {
        place: Place,
    },
    Resize {
        place: Place,
        len: u32,
    },
}
