//! A list of values that finds equal ones by their keys.
ghost use Rattle.std.specs.Prelude.{◌≡◌, ◌++◌, ◌∷◌, [], true, IfOk, OnOk};
ghost use Rattle.std.specs.List.{list_any};
ghost use Rattle.bson_encode.specs.Key.{key_of};
ghost use Rattle.update_model.specs.Equality.{same};
ghost use Rattle.update_model.specs.Acts.{new_ones};

use crate::values::{equals, is_among};
use bson_encode::put_key;
use bson_value::{Bytes, List, Value};
use std::alloc::{AllocError, Global};
use std::collections::BTreeMap;
use std::marker::Model;

// The key of a value: equal values have equal keys.
fn key_of(alloc: Global, value: &Value) -> Result<Bytes, AllocError>
    ensures { IfOk result (λ key. key ≡ key_of value.now) }
{
    let mut key = Vec::new(alloc);
    put_key(&mut key, value)?;
    Ok(Bytes::from_vec(key))
}

/// Values, and for the key of each the place of the last one that has it.
#[derive(Drop)]
pub struct KeyedValues {
    values: List<Value>,
    places: BTreeMap<Bytes, usize>,
}

impl Model for KeyedValues {
    ghost use Rattle.std.specs.Prelude.{List};
    ghost use Rattle.std.specs.Coded.{coded_list};
    ghost use Rattle.bson_value.specs.contracts.value.Value as the_value;
    ghost use Rattle.update_ops.specs.KeyedValues.{Values, HavePlaces};

    ghost Value = { Values };

    ghost coded = { coded_list the_value.the_row.coded };

    ghost view = { λ k. k.values };

    ghost invariant = { λ k. HavePlaces k.values k.places };
}

impl KeyedValues {
    fn new(alloc: Global) -> KeyedValues
        ensures { result ≡ [] }
    {
        KeyedValues {
            values: List::new(alloc),
            places: BTreeMap::new(alloc),
        }
    }

    // Puts the value behind all others.
    fn push(&mut self, alloc: Global, value: Value) -> Result<(), AllocError>
        ensures { OnOk result (self.new ≡ self.old ++ value ∷ []) }
    {
        let key = key_of(alloc, &value)?;
        let _ = self.places.insert(key, self.values.len())?;
        self.values.push(value)?;
        Ok(())
    }

    /// Copies of these.
    pub fn of(alloc: Global, items: &[Value]) -> Result<KeyedValues, AllocError>
        ensures { IfOk result (λ all. all ≡ items.now) }
    {
        let mut all = KeyedValues::new(alloc);
        for item in items {
            all.push(alloc, item.copy(alloc)?)?;
        }
        Ok(all)
    }

    // Whether an equal value stands at this place.
    fn is_at(&self, place: usize, value: &Value) -> bool
        ensures { result ≡ true → list_any (same value.now) self.now ≡ true }
    {
        match self.values.get(place) {
            Some(other) => equals(value, other),
            None => false,
        }
    }

    // Whether the value is equal to one of these. They are looked through only where one that isn't equal has its
    // key, which by `equal_keys` of `bson_encode` none of fewer than 2^31 bytes has.
    fn has(&self, alloc: Global, value: &Value) -> Result<bool, AllocError>
        ensures { IfOk result (λ there. there ≡ list_any (same value.now) self.now) }
    {
        let key = key_of(alloc, value)?;
        match self.places.get(&key) {
            Some(place) => Ok(self.is_at(*place, value) || is_among(value, self.values.as_slice())),
            None => Ok(false),
        }
    }

    /// Puts a copy of each value that is equal to none before it behind all others.
    pub fn add_new(&mut self, alloc: Global, values: &[Value]) -> Result<(), AllocError>
        ensures { OnOk result (self.new ≡ self.old ++ new_ones self.old values.now) }
    {
        for value in values {
            if !self.has(alloc, value)? {
                self.push(alloc, value.copy(alloc)?)?;
            }
        }
        Ok(())
    }

    /// The values in their order.
    pub fn into_list(self) -> List<Value>
        ensures { result ≡ self }
    {
        self.values
    }
}
