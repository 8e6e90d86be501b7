//! Reads operators in written order.
ghost use Rattle.std.specs.Prelude.{◌≡◌, ◌++◌, ◌∷◌, [], false, IfOk, OnOk, IfErr};
ghost use Rattle.std.specs.List.{flat_map};
ghost use Rattle.bson_value.specs.declared.value.Value.{out-Value};
ghost use Rattle.doc_path.specs.Paths.{parts_of};
ghost use Rattle.update_model.specs.Arguments.{operator_of};
ghost use Rattle.update_model.specs.Reading.{Taken, met, met_at, met_paths, met_field, targets, starts_with_id, listed, operators_at, operators_in, name_of as name_in};
ghost use Rattle.update_ops.specs.Keys.{key};
ghost use Rattle.update_ops.specs.Behind.{Goes, Stops, IsMet};

use crate::arguments::{end_of, is_argument, is_expression, number_of, values_to_append};
use crate::names::name_of;
use crate::prefixes::PrefixSet;
use bson_value::{Bytes, CText, Doc, List, Value};
use doc_path::{Path, PathFault};
use std::alloc::{AllocError, Global};
use update_model::{Operator, OperatorName, OpsFault};

/// The operators so far, and their paths.
#[derive(Drop)]
pub struct Reader {
    pub operators: List<Operator>,
    pub paths: PrefixSet,
}

fn key_of(alloc: Global, path: &Path) -> Result<Bytes, AllocError>
    ensures { IfOk result (λ text. text ≡ key path.now) }
{
    let mut text = Bytes::new(alloc);
    for name in path.names().as_slice() {
        text.extend_from_slice(name.as_str().as_bytes())?;
        text.push(0)?;
    }
    Ok(text)
}

fn is_id(path: &Path) -> bool
    ensures { result ≡ starts_with_id path.now }
{
    match path.names().as_slice().first() {
        Some(first) => first.as_str() == "_id",
        None => false,
    }
}

/// A path that an operator takes, if it takes its operand.
fn read_path(alloc: Global, text: &str, fits: bool) -> Result<Path, OpsFault>
    ensures ok { IfOk result (λ path. path ≡ parts_of text.now) }
    ensures taken { OnOk result (met text.now fits ≡ Taken (parts_of text.now)) }
    ensures fault { IfErr result (λ e. IsMet e (met text.now fits)) }
{
    let path = match Path::read(alloc, text) {
        Ok(path) => path,
        Err(PathFault::NoMemory) => return Err(OpsFault::NoMemory),
        Err(_) => return Err(OpsFault::BadPath),
    };
    if is_id(&path) {
        return Err(OpsFault::ImmutableId);
    }
    if fits {
        Ok(path)
    } else {
        Err(OpsFault::BadArgument)
    }
}

impl Reader {
    // Takes a path that conflicts with no earlier one.
    fn take_path(&mut self, alloc: Global, text: &str, fits: bool) -> Result<Path, OpsFault>
        ensures path { IfOk result (λ path. path ≡ parts_of text.now) }
        ensures goes { OnOk result (Goes (met text.now fits ∷ []) self.old.paths self.new.paths) }
        ensures stops { IfErr result (λ e. Stops (met text.now fits ∷ []) self.old.paths e) }
        ensures operators { self.new.operators ≡ self.old.operators }
    {
        let path = read_path(alloc, text, fits)?;
        if self.paths.claim(key_of(alloc, &path)?)? {
            Ok(path)
        } else {
            Err(OpsFault::Conflict)
        }
    }

    // The operator with this path and operand, if it takes the operand.
    fn add(
        &mut self,
        alloc: Global,
        name: OperatorName,
        path: Path,
        operand: &Value,
    ) -> Result<(), OpsFault>
        ensures goes { OnOk result (Goes (targets name operand.now) self.old.paths self.new.paths) }
        ensures operators { OnOk result (self.new.operators ≡ self.old.operators ++ listed (operator_of name path operand.now)) }
        ensures stops { IfErr result (λ e. Stops (targets name operand.now) self.old.paths e) }
    {
        match name {
            OperatorName::Set => {
                let value = operand.copy(alloc)?;
                self.operators.push(Operator::Set { path, value })?;
            }
            OperatorName::Unset => self.operators.push(Operator::Unset { path })?,
            OperatorName::Inc => {
                if let Some(by) = number_of(operand) {
                    self.operators.push(Operator::Inc { path, by })?;
                }
            }
            OperatorName::Mul => {
                if let Some(by) = number_of(operand) {
                    self.operators.push(Operator::Mul { path, by })?;
                }
            }
            OperatorName::Rename => {
                if let Value::Str(target) = operand {
                    let to = self.take_path(alloc, target.as_str(), true)?;
                    self.operators.push(Operator::Rename { from: path, to })?;
                }
            }
            OperatorName::Push => {
                if let Some(values) = values_to_append(operand) {
                    let values = values.copy(alloc)?;
                    self.operators.push(Operator::Push { path, values })?;
                }
            }
            OperatorName::AddToSet => {
                if let Some(values) = values_to_append(operand) {
                    let values = values.copy(alloc)?;
                    self.operators.push(Operator::AddToSet { path, values })?;
                }
            }
            OperatorName::Pop => {
                if let Some(end) = end_of(operand) {
                    self.operators.push(Operator::Pop { path, end })?;
                }
            }
            OperatorName::Pull => {
                if !is_expression(operand) {
                    let value = operand.copy(alloc)?;
                    self.operators.push(Operator::Pull { path, value })?;
                }
            }
        }
        Ok(())
    }

    // What stands at one path.
    fn read_at(
        &mut self,
        alloc: Global,
        name: OperatorName,
        entry: &(CText, Value),
    ) -> Result<(), OpsFault>
        ensures goes { OnOk result (Goes (met_at name entry.now) self.old.paths self.new.paths) }
        ensures operators { OnOk result (self.new.operators ≡ self.old.operators ++ listed (operator_of name (parts_of entry.now.0) entry.now.1)) }
        ensures stops { IfErr result (λ e. Stops (met_at name entry.now) self.old.paths e) }
    {
        let fits = is_argument(name, &entry.1);
        let path = self.take_path(alloc, entry.0.as_str(), fits)?;
        self.add(alloc, name, path, &entry.1)
    }

    fn read_paths(&mut self, alloc: Global, name: OperatorName, doc: &Doc) -> Result<(), OpsFault>
        ensures goes { OnOk result (Goes (flat_map (met_at name) doc.now) self.old.paths self.new.paths) }
        ensures operators { OnOk result (self.new.operators ≡ self.old.operators ++ flat_map (λ f. listed (operator_of name (parts_of f.0) f.1)) doc.now) }
        ensures stops { IfErr result (λ e. Stops (flat_map (met_at name) doc.now) self.old.paths e) }
    {
        for entry in doc.entries() {
            self.read_at(alloc, name, entry)?;
        }
        Ok(())
    }

    /// A field of the document: an operator, and a document of paths and operands.
    pub fn read_field(&mut self, alloc: Global, entry: &(CText, Value)) -> Result<(), OpsFault>
        ensures goes { OnOk result (Goes (met_field (name_in entry.now.0) entry.now.1) self.old.paths self.new.paths) }
        ensures operators { OnOk result (self.new.operators ≡ self.old.operators ++ operators_in (name_in entry.now.0) entry.now.1) }
        ensures stops { IfErr result (λ e. Stops (met_field (name_in entry.now.0) entry.now.1) self.old.paths e) }
    {
        let Some(name) = name_of(entry.0.as_str()) else {
            return Err(OpsFault::UnknownOperator);
        };
        match &entry.1 {
            Value::Object(paths) => self.read_paths(alloc, name, paths),
            _ => Err(OpsFault::BadArgument),
        }
    }
}
