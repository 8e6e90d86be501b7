//! Where namespaces stand in a list.
ghost use Rattle.std.specs.Prelude.{◌≡◌, ◌&&◌, ℕ, List, Some, None, OnOk, OnErr, if◌then◌else◌, bytes_eq};
ghost use Rattle.std.specs.BTreeMap.{get_by_text};
ghost use Rattle.std.specs.Map.{update};
ghost use Rattle.demux.specs.Names.{place_in};

use std::alloc::{AllocError, Global};
use std::collections::BTreeMap;

/// The place of each namespace of a list, by its database and then by its collection: texts that are lent apart find it, and a
/// look-up takes no memory.
#[derive(Drop)]
pub struct Index {
    pub databases: BTreeMap<String, BTreeMap<String, usize>>,
}

fn set(
    names: &mut BTreeMap<String, usize>,
    alloc: Global,
    name: &str,
    place: usize,
) -> Result<(), AllocError>
    ensures ok { OnOk result ((q : List ℕ) → get_by_text names.new q ≡ update bytes_eq (get_by_text names.old) name.now (Some place) q) }
    ensures err { OnErr result ((q : List ℕ) → get_by_text names.new q ≡ get_by_text names.old q) }
{
    let key = String::from_str(alloc, name)?;
    let _ = names.insert(key, place)?;
    Ok(())
}

impl Index {
    pub fn new(alloc: Global) -> Index
        ensures { (d c : List ℕ) → place_in result.databases d c ≡ None }
    {
        Index {
            databases: BTreeMap::new(alloc),
        }
    }

    pub fn place(&self, db: &str, coll: &str) -> Option<usize>
        ensures { result ≡ place_in self.now.databases db.now coll.now }
    {
        match self.databases.get(db) {
            Some(names) => names.get(coll).copied(),
            None => None,
        }
    }

    /// This namespace stands at this place. Where there is no memory, nothing changes.
    pub fn insert(
        &mut self,
        alloc: Global,
        db: &str,
        coll: &str,
        place: usize,
    ) -> Result<(), AllocError>
        ensures ok { OnOk result ((d c : List ℕ) → place_in self.new.databases d c ≡ (if bytes_eq db.now d && bytes_eq coll.now c then Some place else place_in self.old.databases d c)) }
        ensures err { OnErr result ((d c : List ℕ) → place_in self.new.databases d c ≡ place_in self.old.databases d c) }
    {
        match self.databases.get_mut(db) {
            Some(names) => set(names, alloc, coll, place),
            None => {
                let mut names = BTreeMap::new(alloc);
                set(&mut names, alloc, coll, place)?;
                let key = String::from_str(alloc, db)?;
                let _ = self.databases.insert(key, names)?;
                Ok(())
            }
        }
    }

    pub fn clear(&mut self)
        ensures { (d c : List ℕ) → place_in self.new.databases d c ≡ None }
    {
        self.databases.clear();
    }
}
