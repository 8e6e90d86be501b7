//! The documents that have keys of a unique index.
ghost use Rattle.std.specs.Prelude.{ℕ, List, ◌≡◌, ◌∷◌, ◌++◌, [], Some, OnOk, length, if◌then◌else◌};
ghost use Rattle.std.specs.Ordering.{nat_cmp};
ghost use Rattle.std.specs.Cmp.Lexicographic.{slice_cmp};
ghost use Rattle.std.specs.BTreeMap.{get};
ghost use Rattle.index_build.specs.Owners.{Texts, has, place_where, lesser, AreOwners};
ghost use Rattle.index_build.specs.Faults.{meet};

use index_keys::{Key, Keys};
use std::alloc::{AllocError, Global};
use std::collections::BTreeMap;

/// The place of the document that has a key.
pub(crate) type Owners = BTreeMap<Key, usize>;

fn lesser(a: Option<usize>, b: Option<usize>) -> Option<usize>
    ensures { result ≡ lesser a b }
{
    match (a, b) {
        (None, b) => b,
        (Some(a), None) => Some(a),
        (Some(a), Some(b)) => Some(a.min(b)),
    }
}

fn owner(owners: &Owners, key: &Key) -> Option<usize>
    ensures { result ≡ get (slice_cmp nat_cmp) owners.now key.now }
{
    owners.get(key).copied()
}

/// The first owner of one of the keys.
pub(crate) fn first_owner(owners: &Owners, keys: &[Key]) -> Option<usize>
    ensures { (lists : List Texts) → AreOwners owners.now lists → result ≡ place_where (meet keys.now) lists }
{
    let mut first = None;
    for key in keys {
        first = lesser(first, owner(owners, key));
    }
    first
}

/// The keys get an owner.
pub(crate) fn own(owners: &mut Owners, keys: Keys, place: usize) -> Result<(), AllocError>
    ensures { OnOk result ((t : List ℕ) → get (slice_cmp nat_cmp) owners.new t ≡ (if has t keys then Some place else get (slice_cmp nat_cmp) owners.old t)) }
{
    for key in keys.into_vec() {
        let _ = owners.insert(key, place)?;
    }
    Ok(())
}

/// Who has the keys of the documents so far, and the first document that has one of an earlier one.
#[derive(Drop)]
pub(crate) struct Repeats {
    pub(crate) owners: Owners,
    pub(crate) first: Option<(usize, usize)>,
}

impl Repeats {
    ghost use Rattle.index_build.specs.Repeated.{Follows};

    pub(crate) fn new(alloc: Global) -> Repeats
        ensures { Follows result [] }
    {
        Repeats {
            owners: BTreeMap::new(alloc),
            first: None,
        }
    }

    /// The keys of the next document, which stands at this place.
    pub(crate) fn add(&mut self, keys: Keys, place: usize) -> Result<(), AllocError>
        ensures { (lists : List Texts) → Follows self.old lists → place ≡ length lists → OnOk result (Follows self.new (lists ++ keys ∷ [])) }
    {
        if self.first.is_some() {
            return Ok(());
        }
        match first_owner(&self.owners, keys.as_slice()) {
            Some(owner) => {
                self.first = Some((owner, place));
                Ok(())
            }
            None => own(&mut self.owners, keys, place),
        }
    }
}
