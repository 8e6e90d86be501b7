//! The operators of an update.
ghost use Rattle.std.specs.Prelude.{◌≡◌, None, IfOk, OnOk, IfErr};
ghost use Rattle.update_model.specs.Reading.{operators, ops_fault, IsFault};

use crate::prefixes::PrefixSet;
use crate::reader::Reader;
use bson_value::{Doc, List};
use std::alloc::Global;
use std::marker::Model;
use update_model::{Operator, OpsFault};

/// Operators of which no two have conflicting paths, in the order that they act in.
#[derive(Drop)]
pub struct Ops {
    operators: List<Operator>,
}

impl Model for Ops {
    ghost use Rattle.std.specs.Prelude.{List};
    ghost use Rattle.std.specs.Coded.{coded_list};
    ghost use Rattle.update_model.specs.declared.operator.Operator.{Operator as OneOperator};
    ghost use Rattle.update_model.specs.contracts.operator.Operator as operator;

    ghost Value = { List OneOperator };

    ghost coded = { coded_list operator.the_row.coded };

    ghost view = { λ o. o.operators };
}

impl Ops {
    /// Reads the operators of a document: its fields are operators, and each holds a document from paths
    /// to operands. The fault is the first in written order.
    ///
    /// The time is that of reading the document, and of sorting its paths.
    pub fn read(alloc: Global, doc: &Doc) -> Result<Ops, OpsFault>
        ensures ok { IfOk result (λ ops. ops ≡ operators doc.now) }
        ensures faultless { OnOk result (ops_fault doc.now ≡ None) }
        ensures fault { IfErr result (λ e. IsFault e (ops_fault doc.now)) }
    {
        let mut reader = Reader {
            operators: List::new(alloc),
            paths: PrefixSet::new(alloc),
        };
        for entry in doc.entries() {
            reader.read_field(alloc, entry)?;
        }
        Ok(Ops {
            operators: reader.operators,
        })
    }

    /// The operators. It takes no memory.
    pub fn operators(&self) -> &List<Operator>
        ensures { result.now ≡ self.now }
    {
        &self.operators
    }
}
