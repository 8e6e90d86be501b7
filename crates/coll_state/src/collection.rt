//! A collection: its options, its index definitions, and its documents in record order.
ghost use Rattle.std.specs.Prelude.{◌≡◌, ◌+◌, ◌<◌, ◌≤◌, ◌^◌, [], ◌∷◌, IfSome, OnOk, OnErr, option_map, is_some, Some, None, MatchResult, ℕ, take, length, map as each};
ghost use Rattle.std.specs.Option.{option_copied};
ghost use Rattle.std.specs.FinMap as map;
ghost use Rattle.bson_encode.specs.Key.{key_of};
ghost use Rattle.state_model.specs.Keys.{key_cmp};
ghost use Rattle.coll_state.specs.Rows.{row_of, key_in, id_of, scan, collection_of, IsSound};
ghost use Rattle.coll_state.specs.Changes.{fresh_table, put_table, drop_table, with_incarnation, described, put_index, take_index};
ghost use Rattle.coll_state.specs.Definitions.{definition_name};
ghost use Rattle.sorted_list.specs.Order.{IsFound, IsGap};
ghost use Rattle.coll_state.specs.Stock.{row_in, rows_in, Rise, beside};
ghost use Rattle.std.specs.List.Sorted.{IsSearchInRange};

use crate::documents::Documents;
use crate::kept::KeptDocument;
use crate::keys::short_key;
use crate::number_hints::{NumberHints, sum_of};
use bson_encode::cmp_key;
use bson_value::Value;
use byte_order::order;
use containers::{List as JList, SmallBytes};
use json_tree::Tree;
use sorted_list::{SortedList, Walk};
use std::alloc::{AllocError, Global};
use std::cmp::Ordering;
use std::marker::Model;

/// The record number of a key.
#[derive(Drop)]
pub(crate) struct NumberedKey {
    key: SmallBytes,
    pub(crate) no: u128,
}

/// A document under its record number.
#[derive(Drop)]
pub(crate) struct Record {
    pub(crate) no: u128,
    pub(crate) document: KeptDocument,
}

/// The rank of a record among all that were added.
pub(crate) fn rank_of(no: u128) -> usize {
    usize::try_from(no.saturating_sub(1)).unwrap_or(0)
}

/// A collection. Contracts also see how many documents more it has room for.
#[derive(Drop)]
pub(crate) struct Collection {
    options: Tree,
    indexes: JList<Tree>,
    incarnation: u128,
    next: u128,
    numbers: SortedList<NumberedKey>,
    records: SortedList<Record>,
    hints: NumberHints,
}

impl Model for Collection {
    ghost use Rattle.std.specs.Prelude.{min};
    ghost use Rattle.coll_state.specs.Stock.{Stock, stock_code, table_in, AreParts};

    ghost Value = { Stock };

    ghost coded = { stock_code };

    ghost view = { λ c. record {
      table = table_in c.options c.indexes c.incarnation c.next c.records.items;
      room = min c.numbers.room c.records.end_room;
    } };

    ghost invariant = { λ c. AreParts c.indexes c.next c.numbers.items c.records.items };
}

/// The name of an index definition: the text of its field `name`, or an empty text where there is none.
#[tactic(auto, unfolding(crate::specs::Definitions::definition_name))]
pub fn name_of(def: &Tree) -> &str
    ensures { result.now ≡ definition_name def.now }
{
    match def {
        Tree::Object(fields) => match fields.get("name") {
            Some(Tree::Str(name)) => name.as_str(),
            _ => "",
        },
        _ => "",
    }
}

// Where the definition of a name is, or would stand.
fn place_of(defs: &[Tree], name: &str) -> Result<usize, usize>
    ensures bound { IsSearchInRange result (length defs.now) }
    ensures place { Rise key_cmp definition_name defs.now → MatchResult result (IsFound (beside key_cmp definition_name name.now) defs.now) (IsGap (beside key_cmp definition_name name.now) defs.now) }
{
    defs.binary_search_by(|def| name_of(def).cmp(name))
}

// How a key stands beside that of an `_id`.
fn order_beside(key: &SmallBytes, id: &Value) -> Ordering
    ensures { result ≡ key_cmp key.now (key_of id.now) }
{
    match key.as_slice().split_first() {
        Some((tag, rest)) => cmp_key(id, *tag, rest).reverse(),
        None => Ordering::Less,
    }
}

// How two keys stand beside each other.
fn order_of(a: &SmallBytes, b: &SmallBytes) -> Ordering
    ensures { result ≡ key_cmp a.now b.now }
{
    order(a.as_slice(), b.as_slice())
}

fn number_in(taken: Option<NumberedKey>) -> Option<u128>
    ensures { result ≡ option_map (λ n. n.no) taken }
{
    match taken {
        Some(numbered) => Some(numbered.no),
        None => None,
    }
}

impl Collection {
    /// An empty one. It takes no memory.
    pub(crate) fn new(alloc: Global, options: Tree, incarnation: u128) -> Collection
        ensures { result.table ≡ fresh_table incarnation options }
    {
        Collection {
            options,
            indexes: JList::new(alloc),
            incarnation,
            next: 1,
            numbers: SortedList::new(alloc),
            records: SortedList::new(alloc),
            hints: NumberHints::new(alloc),
        }
    }

    /// Does nothing. Its caller learns that the collection is sound.
    pub(crate) fn is_sound(&self)
        ensures { IsSound self.now.table }
    {
        let _ = &self.options;
    }

    // The number under any `_id`, which isn't written.
    fn compared_number(&self, id: &Value) -> Option<u128>
        ensures { result ≡ option_map (λ r. r.no) (row_of self.now.table.rows (key_of id.now)) }
    {
        match self
            .numbers
            .find(|numbered| order_beside(&numbered.key, id))
        {
            Some(numbered) => Some(numbered.no),
            None => None,
        }
    }

    // The number that is noted for a key, where it is the one.
    fn hinted_number(&self, key: &SmallBytes) -> Option<u128>
        ensures { IfSome result (λ no. option_map (λ r. r.no) (row_of self.now.table.rows key.now) ≡ Some no) }
    {
        let no = self.hints.hint(sum_of(key.as_slice()))?;
        let record = self
            .records
            .find_near(rank_of(no), |record| record.no.cmp(&no))?;
        if record.document.is_under(key.as_slice()) {
            Some(record.no)
        } else {
            None
        }
    }

    // The number of a key, by a search.
    fn sought_number(&self, key: &SmallBytes) -> Option<u128>
        ensures { result ≡ option_map (λ r. r.no) (row_of self.now.table.rows key.now) }
    {
        match self.numbers.find(|numbered| order_of(&numbered.key, key)) {
            Some(numbered) => Some(numbered.no),
            None => None,
        }
    }

    fn number_of_key(&self, key: &SmallBytes) -> Option<u128>
        ensures { result ≡ option_map (λ r. r.no) (row_of self.now.table.rows key.now) }
    {
        match self.hinted_number(key) {
            Some(no) => Some(no),
            None => self.sought_number(key),
        }
    }

    fn number(&self, id: &Value) -> Option<u128>
        ensures { result ≡ option_map (λ r. r.no) (row_of self.now.table.rows (key_of id.now)) }
    {
        match short_key(id) {
            Some(key) => self.number_of_key(&key),
            None => self.compared_number(id),
        }
    }

    /// The record of an `_id`.
    pub(crate) fn record(&self, id: &Value) -> Option<&Record>
        ensures { option_map (λ r. row_in r.now) result ≡ row_of self.now.table.rows (key_of id.now) }
    {
        let no = self.number(id)?;
        self.records
            .find_near(rank_of(no), |record| record.no.cmp(&no))
    }

    /// The options.
    pub(crate) fn options(&self) -> &Tree
        ensures { result.now ≡ self.now.table.options }
    {
        &self.options
    }

    /// The index definitions by name.
    pub(crate) fn indexes(&self) -> &JList<Tree>
        ensures definitions { result.now ≡ map.values self.now.table.indexes }
        ensures names { map.keys self.now.table.indexes ≡ each definition_name result.now }
    {
        &self.indexes
    }

    /// The incarnation.
    pub(crate) fn incarnation(&self) -> u128
        ensures { result ≡ self.now.table.incarnation }
    {
        self.incarnation
    }

    /// The records behind a number.
    pub(crate) fn after(&self, no: u128) -> Walk<'_, Record>
        ensures { (n : ℕ) → rows_in (take n result) ≡ scan no n self.now.table.rows }
    {
        self.records.walk_from(|record| {
            if record.no <= no {
                Ordering::Less
            } else {
                Ordering::Greater
            }
        })
    }

    /// The documents in the order of their keys.
    pub(crate) fn documents(&self) -> Documents<'_>
        ensures { result ≡ map.values (collection_of self.now.table).documents }
    {
        Documents::of(self.numbers.walk(), Some(&self.records))
    }

    /// Another incarnation.
    pub(crate) fn set_incarnation(&mut self, incarnation: u128)
        ensures { self.new.table ≡ with_incarnation incarnation self.old.table }
    {
        self.incarnation = incarnation;
    }

    /// The options and the definitions of another collection.
    pub(crate) fn describe(&mut self, other: Collection)
        ensures { self.new.table ≡ described other.table.options other.table.indexes self.old.table }
    {
        let Collection {
            options,
            indexes,
            ..
        } = other;
        self.options = options;
        self.indexes = indexes;
    }

    /// Room for so many documents, counted from here.
    pub(crate) fn reserve(&mut self, more: usize) -> Result<(), AllocError>
        ensures table { self.new.table ≡ self.old.table }
        ensures room { self.old.room ≤ self.new.room }
        ensures ok { OnOk result (more ≤ self.new.room) }
    {
        self.numbers.reserve(more)?;
        self.records.reserve_end(more)
    }

    /// Room for one document more than there is room for.
    pub(crate) fn reserve_another(&mut self) -> Result<(), AllocError>
        ensures table { self.new.table ≡ self.old.table }
        ensures room { self.old.room ≤ self.new.room }
        ensures ok { OnOk result (self.old.room + 1 ≤ self.new.room) }
    {
        let room = self.numbers.room().min(self.records.end_room());
        match room.checked_add(1) {
            Some(more) => self.reserve(more),
            None => Err(AllocError),
        }
    }

    /// Gives up the room. Its memory stays, for that of the next call.
    pub(crate) fn give_up_room(&mut self)
        ensures { self.new.table ≡ self.old.table }
    {
        self.numbers.give_up_room();
        self.records.give_up_room();
    }

    /// The document in the place of the one under this number.
    pub(crate) fn replace(&mut self, no: u128, document: KeptDocument)
        requires { option_map (λ r. r.no) (row_of self.old.table.rows (key_in (id_of document))) ≡ Some no }
        ensures table { self.new.table ≡ put_table (key_in (id_of document)) document self.old.table }
        ensures room { self.old.room ≡ self.new.room }
    {
        self.records.set_near(
            rank_of(no),
            Record { no, document },
            |record| record.no.cmp(&no),
        );
    }

    // The document in the place of the one of its key, which is sought, or behind all others.
    fn put_sought(&mut self, key: SmallBytes, document: KeptDocument)
        requires key { key ≡ key_in (id_of document) }
        requires room { 1 ≤ self.old.room }
        requires number { self.old.table.next + 1 < 2 ^ 128 }
        ensures table { self.new.table ≡ put_table key document self.old.table }
        ensures room { self.old.room ≤ self.new.room + 1 }
    {
        let sum = sum_of(key.as_slice());
        let no = self.next;
        let there = self.numbers.put_new(
            NumberedKey { key, no },
            |a, b| order_of(&a.key, &b.key),
            |numbered| numbered.no,
        );
        match there {
            Some(no) => {
                self.hints.note(sum, no);
                self.replace(no, document);
            }
            None => {
                self.records.push(Record { no, document });
                self.next = no + 1;
                self.hints.note_new(sum, no);
            }
        }
    }

    /// The document in the place of the one of its key, or behind all others.
    pub(crate) fn put(&mut self, key: SmallBytes, document: KeptDocument)
        requires key { key ≡ key_in (id_of document) }
        requires room { 1 ≤ self.old.room }
        requires number { self.old.table.next + 1 < 2 ^ 128 }
        ensures table { self.new.table ≡ put_table key document self.old.table }
        ensures room { self.old.room ≤ self.new.room + 1 }
    {
        match self.hinted_number(&key) {
            Some(no) => self.replace(no, document),
            None => self.put_sought(key, document),
        }
    }

    /// The same, with room made for it.
    pub(crate) fn put_one(
        &mut self,
        key: SmallBytes,
        document: KeptDocument,
    ) -> Result<(), AllocError>
        requires key { key ≡ key_in (id_of document) }
        requires number { self.old.table.next + 1 < 2 ^ 128 }
        ensures ok { OnOk result (self.new.table ≡ put_table key document self.old.table) }
        ensures err { OnErr result (self.new.table ≡ self.old.table) }
    {
        self.reserve(1)?;
        self.put(key, document);
        Ok(())
    }

    /// Takes the document of an `_id` out, and says whether it was there.
    pub(crate) fn remove(&mut self, id: &Value) -> bool
        ensures there { result ≡ is_some (row_of self.old.table.rows (key_of id.now)) }
        ensures table { self.new.table ≡ drop_table (key_of id.now) self.old.table }
        ensures room { self.old.room ≤ self.new.room }
    {
        match number_in(
            self.numbers
                .remove(|numbered| order_beside(&numbered.key, id)),
        ) {
            Some(no) => {
                let _ = self.records.remove(|record| record.no.cmp(&no));
                self.hints.note_removal();
                true
            }
            None => false,
        }
    }

    /// The definition, in the place of the one of its name.
    pub(crate) fn add_index(&mut self, def: Tree) -> Result<(), AllocError>
        ensures ok { OnOk result (self.new.table ≡ put_index (definition_name def) def self.old.table) }
        ensures err { OnErr result (self.new.table ≡ self.old.table) }
        ensures room { self.old.room ≡ self.new.room }
    {
        match place_of(self.indexes.as_slice(), name_of(&def)) {
            Ok(at) => {
                let _ = self.indexes.replace(at, def);
                Ok(())
            }
            Err(at) => self.indexes.insert(at, def),
        }
    }

    /// Takes the definition of this name out, and says whether it was there.
    pub(crate) fn drop_index(&mut self, name: &str) -> bool
        ensures there { result ≡ map.contains_key self.old.table.indexes name.now }
        ensures table { self.new.table ≡ take_index name.now self.old.table }
        ensures room { self.old.room ≡ self.new.room }
    {
        match place_of(self.indexes.as_slice(), name) {
            Ok(at) => {
                let _ = self.indexes.remove(at);
                true
            }
            Err(_) => false,
        }
    }
}
