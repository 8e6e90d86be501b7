//! Numbers of pairs in states, and their first faults.
ghost use Rattle.std.specs.Prelude.{◌≡◌, Ok, Option, IfOk, OnOk, is_some, true, string_bytes};
ghost use Rattle.row_script.specs.Jsons.{Write};
ghost use Rattle.row_script.specs.Names.{Names};
ghost use Rattle.row_script.specs.Rows.{before_blank, behind_blank};
ghost use Rattle.json_tree.specs.declared.tree.Tree.{Tree as Trees};
ghost use Rattle.json_text.specs.Reading.{tree_of_text};
ghost use Rattle.bson_value.specs.declared.namespace.NsName.{NsName as Name};
ghost use Rattle.coll_state.specs.Changes.{no_rows, put, create, add_index, drop_index};
ghost use Rattle.coll_state.specs.Rows.{Document};
ghost use Rattle.index_build.specs.Faults.{IsCountFault};
ghost use Rattle.index_build.specs.declared.fault.CountFault.{CountFault as Faults};
ghost use Rattle.index_rows.specs.Rows.{WriteDefinition, fault_in, fault_text, number_in, number_text, place_text};

use crate::texts::{definition, shown_pair};
use anyhow::Result;
use bson_value::{Doc, NsName, Text};
use bson_view::Held;
use coll_state::{COUNT_LIMIT, State};
use index_build::{CountFault, count_all, count_definitions};
use json_text::parse;
use json_tree::Tree;
use row_script::jsons::{document, shown};
use row_script::{answer, namespace, refused, words};
use std::alloc::{AllocError, Global};

/// The collections of which rows ask.
#[derive(Drop)]
pub struct Collections {
    state: State,
}

impl Collections {
    pub fn new(alloc: Global) -> Collections
        ensures { result.state ≡ no_rows }
    {
        Collections {
            state: State::new(alloc),
        }
    }

    /// No collections.
    pub fn begin(&mut self, alloc: Global) -> Result<String>
        ensures { self.new.state ≡ no_rows }
    {
        self.state = State::new(alloc);
        answer(alloc, "")
    }

    /// A collection with these options.
    pub fn create(&mut self, alloc: Global, text: &str) -> Result<String>
        ensures { OnOk result ((ns : Name) × (options : Trees) × Names (before_blank text.now) ns × (tree_of_text (behind_blank text.now) ≡ Ok options)
            × (self.new.state ≡ create ns options self.old.state)) }
    {
        if self.state.count() >= COUNT_LIMIT {
            return refused("too many collections");
        }
        let (name, json) = words(text)?;
        let ns = namespace(alloc, name)?;
        let options = parse(alloc, json)?;
        self.state.create(alloc, &ns, options)?;
        answer(alloc, "")
    }

    /// A definition more.
    pub fn add_index(&mut self, alloc: Global, text: &str) -> Result<String>
        ensures { OnOk result ((ns : Name) × (def : Trees) × Names (before_blank text.now) ns × WriteDefinition (behind_blank text.now) def
            × (self.new.state ≡ add_index ns def self.old.state)) }
    {
        let (name, json) = words(text)?;
        let ns = namespace(alloc, name)?;
        let def = definition(alloc, json)?;
        self.state.add_index(&ns, def)?;
        answer(alloc, "")
    }

    /// A document more.
    pub fn put(&mut self, alloc: Global, text: &str) -> Result<String>
        ensures { OnOk result ((ns : Name) × (doc : Document) × Names (before_blank text.now) ns × Write (behind_blank text.now) doc
            × (self.new.state ≡ put ns doc self.old.state)) }
    {
        if self.state.count() >= COUNT_LIMIT {
            return refused("too many documents");
        }
        let (name, json) = words(text)?;
        let ns = namespace(alloc, name)?;
        let doc = document(alloc, json)?;
        if doc.get("_id").is_none() {
            return refused("no _id");
        }
        self.state.put(alloc, &ns, doc)?;
        answer(alloc, "")
    }

    /// A definition less.
    pub fn drop_index(&mut self, alloc: Global, text: &str) -> Result<String>
        ensures { OnOk result ((ns : Name) × Names (before_blank text.now) ns × (self.new.state ≡ drop_index ns (behind_blank text.now) self.old.state)) }
    {
        let (name, index) = words(text)?;
        let ns = namespace(alloc, name)?;
        let _ = self.state.drop_index(&ns, index);
        answer(alloc, "")
    }

    /// How many pairs an index has.
    pub fn number(&self, alloc: Global, text: &str) -> Result<String>
        ensures { IfOk result (λ answer. (ns : Name) × Names (before_blank text.now) ns
            × (string_bytes answer ≡ number_text (number_in self.now.state ns (behind_blank text.now)))) }
    {
        let (name, index) = words(text)?;
        let ns = namespace(alloc, name)?;
        let number = number_of(alloc, &self.state, &ns, index)?;
        number_text(alloc, number)
    }

    /// The first fault of the indexes.
    pub fn fault(&self, alloc: Global) -> Result<String>
        ensures { IfOk result (λ answer. string_bytes answer ≡ fault_text (fault_in self.now.state)) }
    {
        match count_all(alloc, &self.state) {
            Ok(_) => answer(alloc, "none"),
            Err(fault) => {
                let text = fault_text(alloc, &fault);
                drop(fault);
                text
            }
        }
    }
}

fn number_text(alloc: Global, number: Option<u64>) -> Result<String>
    ensures { IfOk result (λ text. string_bytes text ≡ number_text number) }
{
    Ok(format!(in alloc; "{number:?}")?)
}

fn of_memory(fault: &CountFault) -> Result<(), AllocError>
    ensures { OnOk result ((told : Option Faults) → IsCountFault fault.now told → is_some told ≡ true) }
{
    match fault {
        CountFault::NoMemory => Err(AllocError),
        CountFault::Parallel { .. } => Ok(()),
        CountFault::Duplicate { .. } => Ok(()),
    }
}

// An error where the fault is want of memory.
fn told(fault: CountFault) -> Result<(), AllocError>
    ensures { OnOk result ((told : Option Faults) → IsCountFault fault told → is_some told ≡ true) }
{
    let told = of_memory(&fault);
    drop(fault);
    told
}

// The number of an index, where the indexes have no fault.
fn number_of(alloc: Global, state: &State, ns: &NsName, index: &str) -> Result<Option<u64>>
    ensures { IfOk result (λ number. number ≡ number_in state.now ns.now index.now) }
{
    match count_all(alloc, state) {
        Ok(counts) => Ok(counts.get(ns, index)),
        Err(fault) => {
            told(fault)?;
            Ok(None)
        }
    }
}

fn place_text(alloc: Global, ns: &NsName, index: &str) -> Result<String>
    ensures { IfOk result (λ text. string_bytes text ≡ place_text ns.now index.now) }
{
    Ok(format!(in alloc; "{}.{} {index}", ns.db.as_str(), ns.coll.as_str())?)
}

fn fault_text(alloc: Global, fault: &CountFault) -> Result<String>
    ensures { IfOk result (λ text. (told : Option Faults) → IsCountFault fault.now told → string_bytes text ≡ fault_text told) }
{
    match fault {
        CountFault::NoMemory => Err(AllocError)?,
        CountFault::Parallel { ns, index, id } => {
            let place = place_text(alloc, ns, index.as_str())?;
            let id = shown(alloc, id)?;
            Ok(format!(in alloc; "parallel {place} {id}")?)
        }
        CountFault::Duplicate {
            ns,
            index,
            first,
            second,
        } => {
            let place = place_text(alloc, ns, index.as_str())?;
            let ids = shown_pair(alloc, first, second)?;
            Ok(format!(in alloc; "duplicate {place} {ids}")?)
        }
    }
}

fn numbers_text(alloc: Global, numbers: &[(Text, Option<u64>)]) -> Result<String> {
    Ok(format!(in alloc; "{numbers:?}")?)
}

// The numbers of definitions over documents.
fn pairs_text(alloc: Global, ns: &NsName, defs: &[Tree], docs: &[Held<'_>]) -> Result<String> {
    match count_definitions(alloc, ns, defs, docs) {
        Ok(numbers) => numbers_text(alloc, numbers.as_slice()),
        Err(fault) => {
            told(fault)?;
            answer(alloc, "a fault")
        }
    }
}

fn pairs_of(alloc: Global, defs: &[Tree], doc: &Doc) -> Result<String> {
    let ns = namespace(alloc, "s.c")?;
    let docs = vec![in alloc; Held::Built(doc)]?;
    pairs_text(alloc, &ns, defs, &docs)
}

fn definitions(alloc: Global, text: &str) -> Result<Vec<Tree>> {
    let def = definition(alloc, text)?;
    Ok(vec![in alloc; def]?)
}

/// The numbers of one definition over one document.
pub fn pairs(alloc: Global, text: &str) -> Result<String> {
    let (def, json) = words(text)?;
    let doc = document(alloc, json)?;
    let defs = definitions(alloc, def)?;
    pairs_of(alloc, &defs, &doc)
}
