//! The entries of an index in the order of the keys of their `_id`s.
ghost use Rattle.std.specs.Prelude.{◌≡◌, ◌≤◌, ◌+◌, option_map};
ghost use Rattle.std.specs.Option.{option_copied};
ghost use Rattle.std.specs.FinMap as map;
ghost use Rattle.state_model.specs.Keys.{key_cmp};
ghost use Rattle.coll_state.specs.Stock.{Rise};
ghost use Rattle.index_build.specs.Entries.{entry_key, owned_in};

use crate::entry::Entry;
use bson_value::Bytes;
use sorted_list::SortedList;

/// The keys of the documents that are in, under the keys of their `_id`s.
pub(crate) type Entries = SortedList<Entry>;

/// The entry of a key.
pub(crate) fn find<'a>(entries: &'a Entries, key: &Bytes) -> Option<&'a Entry>
    requires { Rise key_cmp entry_key entries.now.items }
    ensures keys { option_map (λ e. e.keys) (option_copied result) ≡ map.get (owned_in entries.now.items) key.now }
    ensures key { option_map (λ e. e.key) (option_copied result) ≡ option_map (λ _. key.now) (option_copied result) }
{
    entries.find(|entry| entry.key.cmp(key))
}

/// Takes the entry of a key out, and says whether it was there.
pub(crate) fn remove(entries: &mut Entries, key: &Bytes) -> bool
    requires rise { Rise key_cmp entry_key entries.old.items }
    ensures rise { Rise key_cmp entry_key entries.new.items }
    ensures owned { owned_in entries.new.items ≡ map.remove (owned_in entries.old.items) key.now }
    ensures there { result ≡ map.contains_key (owned_in entries.old.items) key.now }
    ensures room { entries.new.room ≡ entries.old.room }
{
    entries.remove(|entry| entry.key.cmp(key)).is_some()
}

/// The entry in the place of the one of its key.
pub(crate) fn put(entries: &mut Entries, entry: Entry)
    requires rise { Rise key_cmp entry_key entries.old.items }
    requires room { 1 ≤ entries.old.room }
    ensures rise { Rise key_cmp entry_key entries.new.items }
    ensures owned { owned_in entries.new.items ≡ map.insert (owned_in entries.old.items) entry.key entry.keys }
{
    let _ = remove(entries, &entry.key);
    entries.put(entry, |a, b| a.key.cmp(&b.key));
}
