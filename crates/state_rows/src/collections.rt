//! Collections, and what each call makes of them.
ghost use Rattle.std.specs.Prelude.{◌≡◌, ◌+◌, ◌++◌, ℕ, [], ◌∷◌, Option, None, Some, Ok, OnOk, IfOk, codes, is_some, option_map, flat_map, string_bytes};
ghost use Rattle.std.specs.FinMap as map;
ghost use Rattle.std.specs.Fmt.{decimal};
ghost use Rattle.row_script.specs.Jsons.{Write, WriteValue};
ghost use Rattle.row_script.specs.Names.{Names};
ghost use Rattle.row_script.specs.Rows.{before_blank, behind_blank};
ghost use Rattle.row_script.specs.Texts.{truth_text};
ghost use Rattle.json_tree.specs.declared.tree.Tree.{Tree as Trees};
ghost use Rattle.json_text.specs.Print.{text_of};
ghost use Rattle.json_text.specs.Reading.{tree_of_text};
ghost use Rattle.bson_value.specs.declared.namespace.NsName.{NsName as Name};
ghost use Rattle.bson_value.specs.declared.value.Value.{Value as Datum};
ghost use Rattle.bson_encode.specs.Key.{key_of};
ghost use Rattle.coll_state.specs.ChangeAll.{change_all};
ghost use Rattle.coll_state.specs.Changes.{no_rows, put, remove, create, drop_db, drop_ns, rename, add_index, drop_index, document_at, has_index};
ghost use Rattle.coll_state.specs.Kept.{shown, shown_in};
ghost use Rattle.coll_state.specs.Rows.{Document};
ghost use Rattle.state_rows.specs.Rows.{collection_text, definition_text, held_text, incarnation_text, kind_text};

use crate::changes;
use crate::levels::levels;
use anyhow::Result;
use bson_value::{CText, Doc, NsName, Value};
use bson_view::Held;
use coll_state::{COUNT_LIMIT, State};
use containers::List as JList;
use json_text::parse;
use json_tree::Tree;
use row_script::jsons::{document, text_of, value};
use row_script::{answer, namespace, number, refused, truth, words};
use std::alloc::{AllocError, Global};

/// The collections, and the incarnation that was asked for last.
#[derive(Drop)]
pub struct Collections {
    state: State,
    incarnation: Option<u128>,
}

// Puts a document with an `_id`.
fn put_document(state: &mut State, alloc: Global, ns: &NsName, doc: Doc) -> Result<String>
    ensures { OnOk result (state.new ≡ put ns.now doc state.old) }
{
    if doc.get("_id").is_none() || state.count() >= COUNT_LIMIT {
        return refused("no _id");
    }
    state.put(alloc, ns, doc)?;
    answer(alloc, "")
}

fn put_written(state: &mut State, alloc: Global, ns: &NsName, json: &str) -> Result<String>
    ensures { OnOk result ((doc : Document) × Write json.now doc × (state.new ≡ put ns.now doc state.old)) }
{
    let doc = document(alloc, json)?;
    put_document(state, alloc, ns, doc)
}

// Sets a field of so many levels.
fn set_levels(doc: &mut Doc, alloc: Global, count: usize) -> Result<()> {
    let levels = levels(alloc, count)?;
    let name = CText::of_text(alloc, "deep")?;
    Ok(doc.set(name, levels)?)
}

// Puts a document with a field of so many levels in it.
fn put_deep(
    state: &mut State,
    alloc: Global,
    ns: &NsName,
    count: usize,
    json: &str,
) -> Result<String> {
    let mut doc = document(alloc, json)?;
    set_levels(&mut doc, alloc, count)?;
    put_document(state, alloc, ns, doc)
}

// Takes the document of an `_id` out.
fn remove(state: &mut State, alloc: Global, ns: &NsName, json: &str) -> Result<String>
    ensures { IfOk result (λ answer. (id : Datum) × WriteValue json.now id × (state.new ≡ remove ns.now (key_of id) state.old)
        × (string_bytes answer ≡ truth_text (is_some (document_at ns.now (key_of id) state.old.tables)))) }
{
    let id = value(alloc, json)?;
    truth(alloc, state.remove(ns, &id))
}

// Whether there is a copy of a document.
fn is_copied(state: &State, alloc: Global, ns: &NsName, id: &Value) -> Result<bool, AllocError>
    ensures { IfOk result (λ is_so. is_so ≡ is_some (document_at ns.now (key_of id.now) state.now.tables)) }
{
    let copy = state.copy_of(alloc, ns, id)?;
    Ok(copy.is_some())
}

// How the document of an `_id` is held, and whether there is a copy of it.
fn held_text(state: &State, alloc: Global, ns: &NsName, id: &Value) -> Result<String>
    ensures { IfOk result (λ text. string_bytes text ≡ held_text (document_at ns.now (key_of id.now) state.now.tables)) }
{
    let kind = kind_of(state.get(ns, id));
    let is_copied = is_copied(state, alloc, ns, id)?;
    Ok(format!(in alloc; "{kind} {is_copied}")?)
}

fn get(state: &State, alloc: Global, ns: &NsName, json: &str) -> Result<String>
    ensures { IfOk result (λ answer. (id : Datum) × WriteValue json.now id
        × (string_bytes answer ≡ held_text (document_at ns.now (key_of id) state.now.tables))) }
{
    let id = value(alloc, json)?;
    held_text(state, alloc, ns, &id)
}

// Replaces the document of an `_id`.
fn replace(state: &mut State, alloc: Global, ns: &NsName, text: &str) -> Result<()>
    ensures { OnOk result ((id : Datum) × (doc : Document) × WriteValue (before_blank text.now) id × Write (behind_blank text.now) doc
        × (state.new ≡ change_all (record { ns = ns.now; id = id; doc = None } ∷ record { ns = ns.now; id = id; doc = Some doc } ∷ []) state.old)) }
{
    let (id, json) = words(text)?;
    let id = value(alloc, id)?;
    changes::replace(state, alloc, ns, &id, json)
}

// The numbers of so many documents behind a number, and what `x` is in them.
fn after_text(
    state: &State,
    alloc: Global,
    ns: &NsName,
    first: usize,
    count: usize,
) -> Result<String> {
    let mut seen = Vec::new(alloc);
    for (place, held) in state.after(ns, first as u128, count) {
        seen.push((place, x_of(held)))?;
    }
    Ok(format!(in alloc; "{:?}", seen.as_slice())?)
}

fn create(state: &mut State, alloc: Global, ns: &NsName, json: &str) -> Result<()>
    ensures { OnOk result ((options : Trees) × (tree_of_text json.now ≡ Ok options) × (state.new ≡ create ns.now options state.old)) }
{
    if state.count() >= COUNT_LIMIT {
        return refused("too many");
    }
    let options = parse(alloc, json)?;
    Ok(state.create(alloc, ns, options)?)
}

fn add_index(state: &mut State, alloc: Global, ns: &NsName, json: &str) -> Result<()>
    ensures { OnOk result ((def : Trees) × (tree_of_text json.now ≡ Ok def) × (state.new ≡ add_index ns.now def state.old)) }
{
    let def = parse(alloc, json)?;
    Ok(state.add_index(ns, def)?)
}

// Renames a collection that is there to a name that isn't.
fn renamed(state: &mut State, alloc: Global, from: &NsName, to: &NsName) -> Result<String>
    ensures { OnOk result (state.new ≡ rename from.now to.now state.old) }
{
    if !state.has(from) || state.has(to) || state.count() >= COUNT_LIMIT {
        return refused("no renaming");
    }
    state.rename(alloc, from, to)?;
    answer(alloc, "")
}

fn renamed_to(state: &mut State, alloc: Global, from: &NsName, name: &str) -> Result<String>
    ensures { OnOk result ((to : Name) × Names name.now to × (state.new ≡ rename from.now to state.old)) }
{
    let to = namespace(alloc, name)?;
    renamed(state, alloc, from, &to)
}

// How a document is held.
fn kind_of(held: Option<Held<'_>>) -> &'static str
    ensures { (doc : Option Document) → option_map shown_in held.entry ≡ option_map shown doc → result.now ≡ kind_text doc }
{
    match held {
        Some(Held::Spelled(_)) => "spelled",
        Some(Held::Built(_)) => "built",
        None => "none",
    }
}

// What `x` is in a document.
fn x_of(held: Held<'_>) -> Option<i32> {
    held.field("x")?.read().as_i32()
}

fn incarnation_of(state: &State, alloc: Global, name: &str) -> Result<Option<u128>>
    ensures { IfOk result (λ incarnation. (ns : Name) × Names name.now ns
        × (incarnation ≡ option_map (λ t. t.incarnation) (map.get state.now.tables ns))) }
{
    let ns = namespace(alloc, name)?;
    Ok(state.incarnation(&ns))
}

// How an incarnation stands to the one that was asked for before.
fn incarnation_text(before: Option<u128>, incarnation: Option<u128>) -> &'static str
    ensures { result.now ≡ incarnation_text before incarnation }
{
    let Some(incarnation) = incarnation else {
        return "none";
    };
    match before {
        Some(before) if before == incarnation => "as before",
        _ => "another",
    }
}

fn put_name(names: &mut String, ns: &NsName) -> Result<(), AllocError>
    ensures { OnOk result (string_bytes names.new ≡ string_bytes names.old ++ ns.now.db ++ codes "." ++ ns.now.coll ++ codes ";") }
{
    names.push_str(ns.db.as_str())?;
    names.push('.')?;
    names.push_str(ns.coll.as_str())?;
    names.push(';')
}

impl Collections {
    pub fn new(alloc: Global) -> Collections
        ensures { result.state ≡ no_rows }
    {
        Collections {
            state: State::new(alloc),
            incarnation: None,
        }
    }

    /// No collections.
    pub fn begin(&mut self, alloc: Global) -> Result<String>
        ensures { self.new.state ≡ no_rows }
    {
        *self = Collections::new(alloc);
        answer(alloc, "")
    }

    /// A document more, or another one under its `_id`.
    pub fn put(&mut self, alloc: Global, text: &str) -> Result<String>
        ensures { OnOk result ((ns : Name) × (doc : Document) × Names (before_blank text.now) ns × Write (behind_blank text.now) doc
            × (self.new.state ≡ put ns doc self.old.state)) }
    {
        let (name, json) = words(text)?;
        let ns = namespace(alloc, name)?;
        put_written(&mut self.state, alloc, &ns, json)
    }

    /// The same with a field of so many levels in it.
    pub fn put_deep(&mut self, alloc: Global, text: &str) -> Result<String> {
        let (name, rest) = words(text)?;
        let (count, json) = words(rest)?;
        let count = number(count)?;
        let ns = namespace(alloc, name)?;
        put_deep(&mut self.state, alloc, &ns, count, json)
    }

    /// Takes a document out, and puts one with the same `_id`, at once.
    pub fn replace(&mut self, alloc: Global, text: &str) -> Result<String>
        ensures { OnOk result ((ns : Name) × (id : Datum) × (doc : Document) × Names (before_blank text.now) ns
            × WriteValue (before_blank (behind_blank text.now)) id × Write (behind_blank (behind_blank text.now)) doc
            × (self.new.state ≡ change_all (record { ns = ns; id = id; doc = None } ∷ record { ns = ns; id = id; doc = Some doc } ∷ []) self.old.state)) }
    {
        let (name, rest) = words(text)?;
        let ns = namespace(alloc, name)?;
        replace(&mut self.state, alloc, &ns, rest)?;
        answer(alloc, "")
    }

    /// Whether a document was there, and is taken out.
    pub fn remove(&mut self, alloc: Global, text: &str) -> Result<String>
        ensures { IfOk result (λ answer. (ns : Name) × (id : Datum) × Names (before_blank text.now) ns × WriteValue (behind_blank text.now) id
            × (self.new.state ≡ remove ns (key_of id) self.old.state)
            × (string_bytes answer ≡ truth_text (is_some (document_at ns (key_of id) self.old.state.tables)))) }
    {
        let (name, id) = words(text)?;
        let ns = namespace(alloc, name)?;
        remove(&mut self.state, alloc, &ns, id)
    }

    /// How a document is held, and whether there is a copy of it.
    pub fn get(&self, alloc: Global, text: &str) -> Result<String>
        ensures { IfOk result (λ answer. (ns : Name) × (id : Datum) × Names (before_blank text.now) ns × WriteValue (behind_blank text.now) id
            × (string_bytes answer ≡ held_text (document_at ns (key_of id) self.now.state.tables))) }
    {
        let (name, id) = words(text)?;
        let ns = namespace(alloc, name)?;
        get(&self.state, alloc, &ns, id)
    }

    /// The numbers of so many documents behind a number, and what `x` is in them.
    pub fn after(&self, alloc: Global, text: &str) -> Result<String> {
        let (name, rest) = words(text)?;
        let (first, count) = words(rest)?;
        let first = number(first)?;
        let count = number(count)?;
        let ns = namespace(alloc, name)?;
        after_text(&self.state, alloc, &ns, first, count)
    }

    /// A collection anew.
    pub fn create(&mut self, alloc: Global, text: &str) -> Result<String>
        ensures { OnOk result ((ns : Name) × (options : Trees) × Names (before_blank text.now) ns × (tree_of_text (behind_blank text.now) ≡ Ok options)
            × (self.new.state ≡ create ns options self.old.state)) }
    {
        let (name, json) = words(text)?;
        let ns = namespace(alloc, name)?;
        create(&mut self.state, alloc, &ns, json)?;
        answer(alloc, "")
    }

    /// Another name of a collection.
    pub fn rename(&mut self, alloc: Global, text: &str) -> Result<String>
        ensures { OnOk result ((from : Name) × (to : Name) × Names (before_blank text.now) from × Names (behind_blank text.now) to
            × (self.new.state ≡ rename from to self.old.state)) }
    {
        let (from, to) = words(text)?;
        let from = namespace(alloc, from)?;
        renamed_to(&mut self.state, alloc, &from, to)
    }

    /// Whether a collection was there, and is dropped.
    pub fn drop(&mut self, alloc: Global, name: &str) -> Result<String>
        ensures { IfOk result (λ answer. (ns : Name) × Names name.now ns × (self.new.state ≡ drop_ns ns self.old.state)
            × (string_bytes answer ≡ truth_text (map.contains_key self.old.state.tables ns))) }
    {
        let ns = namespace(alloc, name)?;
        truth(alloc, self.state.drop_ns(&ns))
    }

    /// How many collections a database had, which are dropped.
    pub fn drop_database(&mut self, alloc: Global, db: &str) -> Result<String>
        ensures state { self.new.state ≡ drop_db db.now self.old.state }
        ensures count { IfOk result (λ answer. (count : ℕ) × (count + map.len self.new.state.tables ≡ map.len self.old.state.tables)
            × (string_bytes answer ≡ decimal count)) }
    {
        let count = self.state.drop_db(db);
        Ok(format!(in alloc; "{count}")?)
    }

    pub fn has(&self, alloc: Global, name: &str) -> Result<String>
        ensures { IfOk result (λ answer. (ns : Name) × Names name.now ns
            × (string_bytes answer ≡ truth_text (map.contains_key self.now.state.tables ns))) }
    {
        let ns = namespace(alloc, name)?;
        truth(alloc, self.state.has(&ns))
    }

    /// Whether there is an incarnation, and it is the one that was asked for last.
    pub fn incarnation(&mut self, alloc: Global, name: &str) -> Result<String>
        ensures state { self.new.state ≡ self.old.state }
        ensures incarnation { IfOk result (λ answer. (ns : Name) × Names name.now ns
            × (self.new.incarnation ≡ option_map (λ t. t.incarnation) (map.get self.old.state.tables ns))
            × (string_bytes answer ≡ incarnation_text self.old.incarnation self.new.incarnation)) }
    {
        let incarnation = incarnation_of(&self.state, alloc, name)?;
        let text = incarnation_text(self.incarnation, incarnation);
        self.incarnation = incarnation;
        answer(alloc, text)
    }

    /// The names of the collections.
    pub fn names(&self, alloc: Global) -> Result<String> {
        let mut names = String::new(alloc);
        for ns in self.state.namespaces() {
            put_name(&mut names, ns)?;
        }
        Ok(names)
    }

    /// A definition more, or another one under its name.
    pub fn add_index(&mut self, alloc: Global, text: &str) -> Result<String>
        ensures { OnOk result ((ns : Name) × (def : Trees) × Names (before_blank text.now) ns × (tree_of_text (behind_blank text.now) ≡ Ok def)
            × (self.new.state ≡ add_index ns def self.old.state)) }
    {
        let (name, json) = words(text)?;
        let ns = namespace(alloc, name)?;
        add_index(&mut self.state, alloc, &ns, json)?;
        answer(alloc, "")
    }

    /// Whether a definition was there, and is dropped.
    pub fn drop_index(&mut self, alloc: Global, text: &str) -> Result<String>
        ensures { IfOk result (λ answer. (ns : Name) × Names (before_blank text.now) ns
            × (self.new.state ≡ drop_index ns (behind_blank text.now) self.old.state)
            × (string_bytes answer ≡ truth_text (has_index (behind_blank text.now) (map.get self.old.state.tables ns)))) }
    {
        let (name, index) = words(text)?;
        let ns = namespace(alloc, name)?;
        truth(alloc, self.state.drop_index(&ns, index))
    }

    /// The options of a collection, and its definitions in order.
    pub fn definitions(&self, alloc: Global, name: &str) -> Result<String>
        ensures { IfOk result (λ answer. (ns : Name) × Names name.now ns
            × (string_bytes answer ≡ collection_text (map.get self.now.state.tables ns))) }
    {
        let ns = namespace(alloc, name)?;
        collection_text(&self.state, alloc, &ns)
    }
}

// The options of a collection, and its definitions in order.
fn collection_text(state: &State, alloc: Global, ns: &NsName) -> Result<String>
    ensures { IfOk result (λ text. string_bytes text ≡ collection_text (map.get state.now.tables ns.now)) }
{
    match (state.options(ns), state.indexes(ns)) {
        (Some(options), Some(defs)) => definitions_text(alloc, options, defs),
        _ => answer(alloc, "none"),
    }
}

// Writes a definition behind a blank.
fn put_definition(alloc: Global, text: &mut String, def: &Tree) -> Result<()>
    ensures { OnOk result (string_bytes text.new ≡ string_bytes text.old ++ definition_text def.now) }
{
    let json = text_of(alloc, def)?;
    text.push(' ')?;
    Ok(text.push_str(json.as_str())?)
}

fn definitions_text(alloc: Global, options: &Tree, defs: &JList<Tree>) -> Result<String>
    ensures { IfOk result (λ text. string_bytes text ≡ text_of options.now ++ flat_map definition_text defs.now) }
{
    let mut text = text_of(alloc, options)?;
    for def in defs.as_slice() {
        put_definition(alloc, &mut text, def)?;
    }
    Ok(text)
}
