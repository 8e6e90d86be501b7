//! The numbers of pairs that were counted, by the names of collections and indexes.
ghost use Rattle.std.specs.Prelude.{◌≡◌};
ghost use Rattle.std.specs.Option.{option_copied};
ghost use Rattle.std.specs.Fn.{ComputesKey};
ghost use Rattle.std.specs.declared.cmp.Ordering.{Ordering as Order};
ghost use Rattle.std.specs.FinMap as map;
ghost use Rattle.state_model.specs.Keys.{key_cmp};
ghost use Rattle.sorted_list.specs.Order.{IsOrdered, found};
ghost use Rattle.coll_state.specs.Stock.{Rise};
ghost use Rattle.index_build.specs.Numbers.{joined, number_at};
ghost use Rattle.index_build.specs.Sorted.{numbers_told, index_name, AreByName};

use bson_value::NsName;
use containers::Text;
use std::cmp::Ordering;
use std::marker::Model;

/// The number of each index of a collection, by name; none where the index isn't built.
pub type Numbers = Vec<(Text, Option<u64>)>;

/// How many pairs of a key and an `_id` each index of a state has.
#[derive(Drop)]
pub struct Counts {
    collections: Vec<(NsName, Numbers)>,
}

impl Model for Counts {
    ghost use Rattle.index_build.specs.Numbers.{Numbers as Counted};
    ghost use Rattle.index_build.specs.Sorted.{numbers_code, numbers_told, AreByName};

    ghost Value = { Counted };

    ghost coded = { numbers_code };

    ghost view = { λ c. numbers_told c.collections.items };

    ghost invariant = { λ c. AreByName (numbers_told c.collections.items) };
}

fn find<T, F: FnMut(&T) -> Ordering>(items: &[T], order: F) -> Option<&T>
    requires { F.IsAlwaysCallable order }
    ensures { (ord : T → Order) → ComputesKey F.FnMut ord order → IsOrdered ord items.now → option_copied result ≡ found ord items.now }
{
    match items.binary_search_by(order) {
        Ok(at) => Some(&items[at]),
        Err(_) => None,
    }
}

// The number of the index of this name.
fn number_in(numbers: &[(Text, Option<u64>)], index: &str) -> Option<u64>
    ensures { Rise key_cmp index_name numbers.now → result ≡ joined (map.find key_cmp index.now numbers.now) }
{
    match find(numbers, |entry| entry.0.as_str().cmp(index)) {
        Some(entry) => entry.1,
        None => None,
    }
}

impl Counts {
    pub(crate) fn of(collections: Vec<(NsName, Numbers)>) -> Counts
        requires { AreByName (numbers_told collections.items) }
        ensures { result ≡ numbers_told collections.items }
    {
        Counts { collections }
    }

    /// The number of pairs of the index. None where it isn't built, or isn't there. It takes no memory.
    pub fn get(&self, ns: &NsName, index: &str) -> Option<u64>
        ensures { result ≡ number_at self.now ns.now index.now }
    {
        match find(self.collections.as_slice(), |entry| entry.0.cmp(ns)) {
            Some(collection) => number_in(collection.1.as_slice(), index),
            None => None,
        }
    }
}
