//! An index that is kept up as documents come and go.
ghost use Rattle.std.specs.Prelude.{◌≡◌, [], Option, Some, None, bytes_eq, codes, false, IfOk, IfErr, OnOk, OnErr, option_map, string_bytes};
ghost use Rattle.std.specs.FinMap as map;
ghost use Rattle.row_script.specs.Jsons.{Write};
ghost use Rattle.row_script.specs.Rows.{before_blank, behind_blank};
ghost use Rattle.bson_value.specs.declared.value.Value.{Value as Datum};
ghost use Rattle.bson_encode.specs.Key.{key_of};
ghost use Rattle.bson_view.specs.Held.{held_document};
ghost use Rattle.coll_state.specs.Rows.{Document, id_of};
ghost use Rattle.index_keys.specs.Texts.{key_texts};
ghost use Rattle.index_build.specs.Entries.{put_or_removed};
ghost use Rattle.index_build.specs.Owned.{IsIndexFault, Refusal, refusal_if};
ghost use Rattle.index_rows.specs.Rows.{Answers, IsAnswer, IsCalled, TellsRefusal, plan_over};

use crate::texts::{plan, shown_pair};
use anyhow::Result;
use bson_value::{Doc, List, Value};
use bson_view::Held;
use index_build::{Index, IndexFault};
use index_keys::Plan;
use row_script::jsons::{document, shown};
use row_script::{answer, refused, words};
use std::alloc::{AllocError, Global};

/// The index of which rows ask.
#[derive(Drop)]
pub struct Kept {
    index: Index,
}

fn fault_text(alloc: Global, fault: &IndexFault) -> Result<String>
    ensures told { IfOk result (λ text. (id : Datum) (refusal : Option Refusal) → IsIndexFault fault.now id refusal → TellsRefusal id refusal (string_bytes text)) }
    ensures memory { OnOk result (fault.now ≡ IndexFault.NoMemory → ⊥) }
{
    match fault {
        IndexFault::NoMemory => Err(AllocError)?,
        IndexFault::ParallelArrays { id } => {
            let id = shown(alloc, id)?;
            Ok(format!(in alloc; "parallel {id}")?)
        }
        IndexFault::DuplicateKey { first, second } => {
            let ids = shown_pair(alloc, first, second)?;
            Ok(format!(in alloc; "duplicate {ids}")?)
        }
    }
}

fn answer_text(alloc: Global, answer: Result<(), IndexFault>) -> Result<String>
    ensures told { IfOk result (λ text. (id : Datum) (refusal : Option Refusal) → IsAnswer answer id refusal → TellsRefusal id refusal (string_bytes text)) }
    ensures memory { OnOk result (IfErr answer (λ fault. fault ≡ IndexFault.NoMemory → ⊥)) }
{
    match answer {
        Ok(()) => Ok(String::from_str(alloc, "ok")?),
        Err(fault) => {
            let text = fault_text(alloc, &fault);
            drop(fault);
            text
        }
    }
}

// Swaps what the index has of an `_id` for a document, or for nothing.
fn exchange(
    index: &mut Index,
    alloc: Global,
    id: &Value,
    doc: Option<Held<'_>>,
) -> Result<(), IndexFault>
    ensures plan { index.new.plan ≡ index.old.plan }
    ensures ok { OnOk result (index.new.owned ≡ put_or_removed (key_of id.now) (option_map (λ d. key_texts index.old.plan (held_document d)) doc.entry) index.old.owned) }
    ensures err { OnErr result (index.new.owned ≡ index.old.owned) }
    ensures allowed { OnOk result (refusal_if index.old.plan (key_of id.now) (option_map held_document doc.entry) index.old.owned ≡ None) }
    ensures fault { IfErr result (λ e. IsIndexFault e id.now (refusal_if index.old.plan (key_of id.now) (option_map held_document doc.entry) index.old.owned)) }
{
    match index.prepare(alloc, id, doc) {
        Ok(swap) => {
            index.swap(swap);
            Ok(())
        }
        Err(fault) => Err(fault),
    }
}

// Makes the verb's call on a document.
#[tactic(auto, unfolding(crate::specs::Rows::refusal_of, crate::specs::Rows::owned_by))]
fn called(
    index: &mut Index,
    alloc: Global,
    verb: &str,
    id: &Value,
    doc: &Doc,
) -> Result<Result<(), IndexFault>>
    ensures plan { index.new.plan ≡ index.old.plan }
    ensures called { IfOk result (λ answer. Answers verb.now id.now doc.now index.old index.new answer) }
{
    match verb {
        "add" => Ok(index.add(alloc, id, Held::Built(doc))),
        "test" => Ok(index.test(alloc, id, Held::Built(doc))),
        "swap" => Ok(exchange(index, alloc, id, Some(Held::Built(doc)))),
        "none" => Ok(exchange(index, alloc, id, None)),
        "out" => {
            let _ = index.take_out(alloc, id)?;
            Ok(Ok(()))
        }
        _ => refused("no verb"),
    }
}

impl Kept {
    pub fn new(alloc: Global) -> Kept
        ensures plan { result.index.plan ≡ record { paths = []; sparse = false; unique = false } }
        ensures owned { result.index.owned ≡ map.empty }
    {
        let plan = Plan {
            paths: List::new(alloc),
            sparse: false,
            unique: false,
        };
        Kept {
            index: Index::new(alloc, plan),
        }
    }

    /// An index of no documents, of these fields, unique or plain.
    pub fn begin(&mut self, alloc: Global, text: &str) -> Result<String>
        ensures plan { OnOk result (self.new.index.plan ≡ plan_over (behind_blank text.now) false (bytes_eq (before_blank text.now) (codes "unique"))) }
        ensures owned { OnOk result (self.new.index.owned ≡ map.empty) }
    {
        let (kind, fields) = words(text)?;
        let plan = plan(alloc, fields, false, kind == "unique")?;
        self.index = Index::new(alloc, plan);
        answer(alloc, "")
    }

    /// What the verb's call on a document answers, and how many pairs there are then.
    pub fn call(&mut self, alloc: Global, verb: &str, json: &str) -> Result<String>
        ensures { IfOk result (λ answer. (id : Datum) × (doc : Document) × Write json.now doc × (id_of doc ≡ Some id)
            × IsCalled verb.now id doc self.old.index self.new.index (string_bytes answer)) }
    {
        let doc = document(alloc, json)?;
        let Some(id) = doc.get("_id") else {
            return refused("no _id");
        };
        let answer = called(&mut self.index, alloc, verb, id, &doc)?;
        let answer = answer_text(alloc, answer)?;
        Ok(format!(in alloc; "{answer} {}", self.index.len())?)
    }
}
