//! Where parts stand in a list.
ghost use Rattle.std.specs.Prelude.{◌≡◌, ℕ, List, Some, None, OnOk, if◌then◌else◌};
ghost use Rattle.doc_path.specs.declared.parts.Part.{Part as OnePart};
ghost use Rattle.doc_path.specs.declared.parts.Part.TheVariants.{Name, Index as Number};
ghost use Rattle.entry_model.specs.Edits.{same_part};
ghost use Rattle.entry_writer.specs.Groups.{place_in};

use doc_path::Part;
use std::alloc::{AllocError, Global};
use std::collections::BTreeMap;

/// The place of each part of a list.
#[derive(Drop)]
pub(crate) struct Index {
    names: BTreeMap<String, usize>,
    indexes: BTreeMap<u32, usize>,
}

impl Index {
    pub(crate) fn new(alloc: Global) -> Index
        ensures { (q : OnePart) → place_in result q ≡ None }
    {
        Index {
            names: BTreeMap::new(alloc),
            indexes: BTreeMap::new(alloc),
        }
    }

    pub(crate) fn place(&self, part: &Part) -> Option<usize>
        ensures { result ≡ place_in self.now part.now }
    {
        match part {
            Part::Name(name) => self.names.get(name.as_str()).copied(),
            Part::Index(at) => self.indexes.get(at).copied(),
        }
    }

    fn insert_name(&mut self, alloc: Global, name: &str, place: usize) -> Result<(), AllocError>
        ensures { OnOk result ((q : OnePart) → place_in self.new q ≡ (if same_part (Name name.now) q then Some place else place_in self.old q)) }
    {
        let key = String::from_str(alloc, name)?;
        let _ = self.names.insert(key, place)?;
        Ok(())
    }

    fn insert_index(&mut self, at: u32, place: usize) -> Result<(), AllocError>
        ensures { OnOk result ((q : OnePart) → place_in self.new q ≡ (if same_part (Number at) q then Some place else place_in self.old q)) }
    {
        let _ = self.indexes.insert(at, place)?;
        Ok(())
    }

    /// The part stands at this place.
    pub(crate) fn insert(
        &mut self,
        alloc: Global,
        part: &Part,
        place: usize,
    ) -> Result<(), AllocError>
        ensures { OnOk result ((q : OnePart) → place_in self.new q ≡ (if same_part part.now q then Some place else place_in self.old q)) }
    {
        match part {
            Part::Name(name) => self.insert_name(alloc, name.as_str(), place),
            Part::Index(at) => self.insert_index(*at, place),
        }
    }
}
