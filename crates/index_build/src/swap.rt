//! What an index is to have in the place of what an `_id` had.
use crate::entry::Entry;
use crate::holder::Holder;
use bson_value::Bytes;
use std::marker::Model;

/// The keys of a document, made ready to take the place of what its `_id` had in an index, which is unique or not.
#[derive(Drop)]
pub struct Swap {
    key: Bytes,
    unique: bool,
    entry: Option<Entry>,
    holders: Vec<Holder>,
}

impl Model for Swap {
    ghost use Rattle.index_build.specs.Entries.{Exchange, exchange_code, keys_of};

    ghost Value = { Exchange };

    ghost coded = { exchange_code };

    ghost view = { λ s. record { key = s.key; unique = s.unique; keys = keys_of s.entry } };

    ghost use Rattle.index_build.specs.Holders.{IsReady};

    ghost invariant = { λ s. IsReady s.key s.unique s.entry s.holders.items };
}

impl Swap {
    ghost use Rattle.std.specs.Prelude.{◌≡◌, length};
    ghost use Rattle.index_build.specs.Entries.{keys_of, key_count};
    ghost use Rattle.index_build.specs.Holders.{IsReady};

    pub(crate) fn of(key: Bytes, unique: bool, entry: Option<Entry>, holders: Vec<Holder>) -> Swap
        requires { IsReady key unique entry holders.items }
        ensures key { result.key ≡ key }
        ensures unique { result.unique ≡ unique }
        ensures keys { result.keys ≡ keys_of entry }
    {
        Swap {
            key,
            unique,
            entry,
            holders,
        }
    }

    /// How many keys the document has.
    pub(crate) fn key_count(&self) -> usize
        ensures { result ≡ key_count self.now.keys }
    {
        match &self.entry {
            Some(entry) => entry.keys.len(),
            None => 0,
        }
    }

    pub(crate) fn into_parts(self) -> (Bytes, Option<Entry>, Vec<Holder>)
        ensures key { result.0 ≡ self.key }
        ensures keys { keys_of result.1 ≡ self.keys }
        ensures ready { IsReady result.0 self.unique result.1 result.2.items }
    {
        (self.key, self.entry, self.holders)
    }
}
