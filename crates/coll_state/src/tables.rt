//! Collections by their names.
ghost use Rattle.std.specs.Prelude.{◌≡◌, ◌+◌, ◌<◌, ◌^◌, OnOk, OnErr, IfOk, is_some, not, option_map, Some, None, true, false};
ghost use Rattle.state_model.specs.Keys.{same_key};
ghost use Rattle.std.specs.Option.{option_copied};
ghost use Rattle.std.specs.FinMap as map;
ghost use Rattle.bson_encode.specs.Key.{key_of};
ghost use Rattle.coll_state.specs.Rows.{row_of, key_in, id_of, Table};
ghost use Rattle.coll_state.specs.Changes.{put_table, drop_table, fresh_table, described, under_names, or_fresh, put_index, take_index, document_at, number_at, has_index, on_there, renamed_in};
ghost use Rattle.coll_state.specs.Definitions.{definition_name};
ghost use Rattle.coll_state.specs.Tables.{tables_in, stock_at};

use crate::collection::Collection;
use crate::kept::KeptDocument;
use bson_value::{NsName, Value};
use containers::{List as JList, SmallBytes};
use json_tree::{Fields, Tree};
use std::alloc::{AllocError, Global};
use std::collections::BTreeMap;

/// Collections by their names.
pub(crate) type Tables = BTreeMap<NsName, Collection>;

/// A collection of one document.
fn made_with(
    alloc: Global,
    incarnation: u128,
    key: SmallBytes,
    document: KeptDocument,
) -> Result<Collection, AllocError>
    requires { key ≡ key_in (id_of document) }
    ensures { IfOk result (λ c. c.table ≡ put_table key document (or_fresh incarnation None)) }
{
    let options = Tree::Object(Fields::new(alloc));
    let mut collection = Collection::new(alloc, options, incarnation);
    collection.put_one(key, document)?;
    Ok(collection)
}

/// The collection under this name, in the place of one that is there.
pub(crate) fn set(
    tables: &mut Tables,
    alloc: Global,
    ns: &NsName,
    collection: Collection,
) -> Result<(), AllocError>
    ensures ok { OnOk result (tables_in tables.new ≡ map.insert (tables_in tables.old) ns.now collection.table) }
    ensures err { OnErr result (tables_in tables.new ≡ tables_in tables.old) }
{
    let name = ns.copy(alloc)?;
    match tables.insert(name, collection) {
        Ok(_) => Ok(()),
        Err(_) => Err(AllocError),
    }
}

/// The document in its collection, which is made where it is missing.
pub(crate) fn put(
    tables: &mut Tables,
    alloc: Global,
    ns: &NsName,
    incarnation: u128,
    key: SmallBytes,
    document: KeptDocument,
) -> Result<(), AllocError>
    requires key { key ≡ key_in (id_of document) }
    requires number { (t : Table) → map.get (tables_in tables.old) ns.now ≡ Some t → t.next + 1 < 2 ^ 128 }
    ensures ok { OnOk result (tables_in tables.new ≡ map.insert (tables_in tables.old) ns.now (put_table key document (or_fresh incarnation (map.get (tables_in tables.old) ns.now)))) }
    ensures err { OnErr result (tables_in tables.new ≡ tables_in tables.old) }
{
    match tables.get_mut(ns) {
        Some(collection) => collection.put_one(key, document),
        None => {
            let made = made_with(alloc, incarnation, key, document)?;
            set(tables, alloc, ns, made)
        }
    }
}

/// The document in the place of the one under this number.
pub(crate) fn replace_document(
    tables: &mut Tables,
    ns: &NsName,
    number: u128,
    document: KeptDocument,
)
    requires { number_at ns.now (key_in (id_of document)) (tables_in tables.old) ≡ Some number }
    ensures { tables_in tables.new ≡ on_there (put_table (key_in (id_of document)) document) ns.now (tables_in tables.old) }
{
    match tables.get_mut(ns) {
        Some(collection) => collection.replace(number, document),
        None => {}
    }
}

// A collection without documents.
fn made_of(
    alloc: Global,
    incarnation: u128,
    options: Tree,
    definitions: JList<Tree>,
) -> Result<Collection, AllocError>
    ensures { IfOk result (λ c. c.table ≡ described options (under_names definitions) (fresh_table incarnation options)) }
{
    let mut collection = Collection::new(alloc, options, incarnation);
    for definition in definitions.into_vec() {
        collection.add_index(definition)?;
    }
    Ok(collection)
}

/// The options and the definitions of a collection, which is made where it is missing.
pub(crate) fn describe(
    tables: &mut Tables,
    alloc: Global,
    ns: &NsName,
    incarnation: u128,
    options: Tree,
    definitions: JList<Tree>,
) -> Result<(), AllocError>
    ensures ok { OnOk result (tables_in tables.new ≡ map.insert (tables_in tables.old) ns.now (described options (under_names definitions) (or_fresh incarnation (map.get (tables_in tables.old) ns.now)))) }
    ensures err { OnErr result (tables_in tables.new ≡ tables_in tables.old) }
{
    let made = made_of(alloc, incarnation, options, definitions)?;
    match tables.get_mut(ns) {
        Some(collection) => {
            collection.describe(made);
            Ok(())
        }
        None => set(tables, alloc, ns, made),
    }
}

/// Takes the document of an `_id` out, and says whether it was there.
pub(crate) fn remove(tables: &mut Tables, ns: &NsName, id: &Value) -> bool
    ensures tables { tables_in tables.new ≡ on_there (drop_table (key_of id.now)) ns.now (tables_in tables.old) }
    ensures there { result ≡ is_some (document_at ns.now (key_of id.now) (tables_in tables.old)) }
{
    match tables.get_mut(ns) {
        Some(collection) => collection.remove(id),
        None => false,
    }
}

/// The definition, in the place of the one of its name.
pub(crate) fn add_index(tables: &mut Tables, ns: &NsName, def: Tree) -> Result<(), AllocError>
    ensures ok { OnOk result (tables_in tables.new ≡ on_there (put_index (definition_name def) def) ns.now (tables_in tables.old)) }
    ensures err { OnErr result (tables_in tables.new ≡ tables_in tables.old) }
{
    match tables.get_mut(ns) {
        Some(collection) => collection.add_index(def),
        None => Ok(()),
    }
}

/// Takes the definition of this name out, and says whether it was there.
pub(crate) fn drop_index(tables: &mut Tables, ns: &NsName, name: &str) -> bool
    ensures tables { tables_in tables.new ≡ on_there (take_index name.now) ns.now (tables_in tables.old) }
    ensures there { result ≡ has_index name.now (map.get (tables_in tables.old) ns.now) }
{
    match tables.get_mut(ns) {
        Some(collection) => collection.drop_index(name),
        None => false,
    }
}

/// Takes the collection of this name out.
pub(crate) fn take(tables: &mut Tables, ns: &NsName) -> Option<Collection>
    ensures collection { option_map (λ c. c.table) result ≡ map.get (tables_in tables.old) ns.now }
    ensures tables { tables_in tables.new ≡ map.remove (tables_in tables.old) ns.now }
{
    tables.remove(ns)
}

/// The collection of this name.
pub(crate) fn get<'a>(tables: &'a Tables, ns: &NsName) -> Option<&'a Collection>
    ensures { option_map (λ c. c.now.table) result ≡ map.get (tables_in tables.now) ns.now }
{
    tables.get(ns)
}

/// Drops the collections of a database, and says how many there were.
pub(crate) fn drop_db(tables: &mut Tables, db: &str) -> usize
    ensures tables { tables_in tables.new ≡ map.retain_keys (tables_in tables.old) (λ n. not (same_key n.db db.now)) }
    ensures count { result + map.len (tables_in tables.new) ≡ map.len (tables_in tables.old) }
{
    let before = tables.len();
    tables.retain(|name, _| name.db.as_str() != db);
    before - tables.len()
}

// The collection in the place of the one that is there.
fn replace(tables: &mut Tables, ns: &NsName, collection: Collection)
    requires { map.contains_key (tables_in tables.old) ns.now ≡ true }
    ensures { tables_in tables.new ≡ map.insert (tables_in tables.old) ns.now collection.table }
{
    if let Some(place) = tables.get_mut(ns) {
        *place = collection;
    }
}

/// The collection under another name, as another incarnation.
pub(crate) fn rename(
    tables: &mut Tables,
    alloc: Global,
    from: &NsName,
    to: &NsName,
    incarnation: u128,
) -> Result<(), AllocError>
    requires there { map.contains_key (tables_in tables.old) from.now ≡ true }
    requires free { map.contains_key (tables_in tables.old) to.now ≡ false }
    ensures ok { OnOk result (tables_in tables.new ≡ renamed_in from.now (map.get (tables_in tables.old) from.now) to.now incarnation (tables_in tables.old)) }
    ensures err { OnErr result (tables_in tables.new ≡ tables_in tables.old) }
{
    let place = Collection::new(alloc, Tree::Null, incarnation);
    set(tables, alloc, to, place)?;
    match take(tables, from) {
        Some(mut collection) => {
            collection.set_incarnation(incarnation);
            replace(tables, to, collection);
            Ok(())
        }
        None => unreachable!(),
    }
}
