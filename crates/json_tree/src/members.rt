//! A list of names and what they name, with distinct names.
ghost use Rattle.std.specs.Prelude.{◌≡◌, [], ◌∷◌, ◌++◌, ◌<◌, List, ℕ, length, slice_get, slice_set, remove, OnOk, OnErr, option_map, IfSome, IfNone};
ghost use Rattle.std.specs.Option.{option_copied};
ghost use Rattle.std.specs.Borrow.{Lends, sem};
ghost use Rattle.json_tree.specs.contracts.members.Members.{the_row as members_row};
ghost use Rattle.containers.specs.Entries.{IsAbsent, AreDistinct, names_of, place_of, lookup, put, without, with_value};

use containers::Text as JText;
use std::alloc::{AllocError, Global};
use std::marker::Model;
use std::mem;

/// A list of names and what they name. No name stands twice.
#[derive(Drop)]
pub struct Members<T> {
    entries: Vec<(JText, T)>,
}

impl<T> Model for Members<T> {
    ghost use Rattle.std.specs.Prelude.{List, ℕ};
    ghost use Rattle.std.specs.Coded.{coded_list, coded×, coded_ℕ};
    ghost use Rattle.containers.specs.Entries.{AreDistinct, names_of};

    ghost Value = { List (List ℕ × T) };

    ghost coded = { coded_list (coded× (coded_list coded_ℕ) T.code) };

    ghost view = { λ m. m.entries.items };

    ghost invariant = { λ m. AreDistinct (names_of m.entries.items) };
}

impl<T> Members<T> {
    /// The empty list. It takes no memory.
    pub fn new(alloc: Global) -> Members<T>
        ensures { result ≡ [] }
    {
        Members {
            entries: Vec::new(alloc),
        }
    }

    /// These entries, in their own memory.
    pub fn of_distinct(entries: Vec<(JText, T)>) -> Members<T>
        requires { AreDistinct (names_of entries.items) }
        ensures { result ≡ entries.items }
    {
        Members { entries }
    }

    /// The number of entries.
    pub fn len(&self) -> usize
        ensures count { result ≡ length self.now }
        ensures distinct { AreDistinct (names_of self.now) }
    {
        self.entries.len()
    }

    /// The names and what they name, in order.
    pub fn entries(&self) -> &[(JText, T)]
        ensures entries { result.now ≡ self.now }
        ensures distinct { AreDistinct (names_of self.now) }
    {
        self.entries.as_slice()
    }

    /// The name at a place that counts from 0.
    pub fn name(&self, at: usize) -> &str
        requires { at < length self.now }
        ensures { option_map (λ e. e.0) (slice_get self.now at) ≡ Some result.now }
    {
        self.entries[at].0.as_str()
    }

    /// The value at a place that counts from 0.
    pub fn value(&self, at: usize) -> &T
        requires { at < length self.now }
        ensures { option_map (λ e. e.1) (slice_get self.now at) ≡ Some result.now }
    {
        &self.entries[at].1
    }

    fn find(&self, name: &str) -> Option<usize>
        ensures place { result ≡ place_of name.now self.now }
        ensures within { IfSome result (λ at. at < length self.now) }
    {
        self.entries
            .iter()
            .position(|entry| entry.0.as_str() == name)
    }

    /// The place of this name.
    #[tactic(auto, using(containers::proofs::Entries::none_is_absent))]
    pub fn place(&self, name: &str) -> Option<usize>
        ensures place { result ≡ place_of name.now self.now }
        ensures within { IfSome result (λ at. at < length self.now) }
        ensures absent { IfNone result (IsAbsent name.now (names_of self.now)) }
    {
        self.find(name)
    }

    /// What this name names. It is looked for from the front.
    pub fn get(&self, name: &str) -> Option<&T>
        ensures { option_copied result ≡ lookup name.now self.now }
    {
        match self.place(name) {
            Some(at) => Some(self.value(at)),
            None => None,
        }
    }

    /// What this name names. It is looked for at this place first, and then from the front.
    pub fn get_near(&self, at: usize, name: &str) -> Option<&T>
        ensures { option_copied result ≡ lookup name.now self.now }
    {
        if at < self.len() && self.name(at) == name {
            return Some(self.value(at));
        }
        self.get(name)
    }

    /// The value at this place, lent for writing.
    pub fn value_mut(&mut self, at: usize) -> &mut T
        requires { at < length self.old }
        ensures* writes_back { sem 𝓛 (Lends (members_row T.row) T.row self.entry result (with_value self.old at)) }
        ensures value { option_map (λ e. e.1) (slice_get self.old at) ≡ Some result.now }
    {
        let entry = &mut self.entries[at];
        &mut entry.1
    }

    /// Puts the value in the place of the one at `at`, and hands that one back.
    pub fn replace(&mut self, at: usize, value: T) -> T
        requires { at < length self.old }
        ensures old { option_map (λ e. e.1) (slice_get self.old at) ≡ Some result }
        ensures new { self.new ≡ with_value self.old at value }
        ensures count { length self.new ≡ length self.old }
    {
        let entry = &mut self.entries[at];
        mem::replace(&mut entry.1, value)
    }
}

impl<T: Drop> Members<T> {
    /// The entry in its place, or last.
    pub fn set(&mut self, name: JText, value: T) -> Result<(), AllocError>
        ensures ok { OnOk result (self.new ≡ put name value self.old) }
        ensures err { OnErr result (self.new ≡ self.old) }
    {
        match self.place(name.as_str()) {
            Some(at) => {
                let _ = self.replace(at, value);
                Ok(())
            }
            None => {
                self.entries.push((name, value))?;
                Ok(())
            }
        }
    }

    /// A new entry at the end.
    pub fn add(&mut self, name: JText, value: T) -> Result<(), AllocError>
        requires { IsAbsent name (names_of self.old) }
        ensures ok { OnOk result (self.new ≡ self.old ++ (name, value) ∷ []) }
        ensures err { OnErr result (self.new ≡ self.old) }
    {
        self.entries.push((name, value))?;
        Ok(())
    }

    /// Takes the entry of this name out.
    pub fn remove(&mut self, name: &str) -> Option<T>
        ensures value { result ≡ lookup name.now self.old }
        ensures rest { self.new ≡ without name.now self.old }
    {
        match self.place(name) {
            Some(at) => {
                let (_, value) = self.entries.remove(at);
                Some(value)
            }
            None => None,
        }
    }
}
