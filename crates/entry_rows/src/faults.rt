//! Faults as texts.
ghost use Rattle.std.specs.Prelude.{◌≡◌};
ghost use Rattle.entry_rows.specs.Rows.{ops_fault_word, update_fault_word};

use anyhow::Result;
use entry_model::EntryFault;
use row_script::answer;
use std::alloc::Global;
use update_ops::{OpsFault, UpdateFault};

/// Why a document is no entry.
pub fn entry_fault(alloc: Global, fault: &EntryFault) -> Result<String> {
    match fault {
        EntryFault::NoMemory => answer(alloc, "no memory"),
        EntryFault::MissingField(name) => Ok(format!(in alloc; "missing {}", name.as_str())?),
        EntryFault::BadField(name) => Ok(format!(in alloc; "bad {}", name.as_str())?),
        EntryFault::UnknownUpdate(version) => Ok(format!(in alloc; "update {version}")?),
        EntryFault::UnknownOp(op) => Ok(format!(in alloc; "op \"{}\"", op.as_str())?),
    }
}

/// Why a document holds no operators.
pub fn ops_fault(fault: OpsFault) -> &'static str
    ensures { result.now ≡ ops_fault_word fault }
{
    match fault {
        OpsFault::NoMemory => "NoMemory",
        OpsFault::UnknownOperator => "UnknownOperator",
        OpsFault::Conflict => "Conflict",
        OpsFault::BadPath => "BadPath",
        OpsFault::ImmutableId => "ImmutableId",
        OpsFault::BadArgument => "BadArgument",
    }
}

/// Why a document isn't updated.
pub fn update_fault(fault: UpdateFault) -> &'static str
    ensures { result.now ≡ update_fault_word fault }
{
    match fault {
        UpdateFault::NoMemory => "NoMemory",
        UpdateFault::NotViable => "NotViable",
        UpdateFault::WrongType => "WrongType",
        UpdateFault::Overflow => "Overflow",
        UpdateFault::Backfill => "Backfill",
        UpdateFault::TooLong => "TooLong",
        UpdateFault::Deep => "Deep",
    }
}
