//! Ends in memory.
ghost use Rattle.std.specs.Prelude.{◌≡◌, [], ◌∷◌, IfOk, max};
ghost use Rattle.row_script.specs.Ends.{failing};

use std::alloc::{AllocError, Global};
use tool_io::{MemSink, MemSource};

// The call that fails, as a list.
fn failing(alloc: Global, call: Option<u64>) -> Result<Vec<u64>, AllocError>
    ensures { IfOk result (λ calls. calls.items ≡ failing call) }
{
    let mut calls = Vec::new(alloc);
    if let Some(call) = call {
        calls.push(call)?;
    }
    Ok(calls)
}

/// A source of these bytes, which come in pieces of so many, at least one. The call of this number, from 0, fails, if there is one.
pub fn source(
    alloc: Global,
    bytes: &[u8],
    piece: usize,
    fails: Option<u64>,
) -> Result<MemSource, AllocError>
    ensures { IfOk result (λ source. source ≡ record { left = bytes.now; pieces = max piece 1 ∷ []; fails = failing fails; calls = 0; faults = 0 }) }
{
    let fails = failing(alloc, fails)?;
    let pieces = vec![in alloc; piece.max(1)]?;
    let bytes = bytes.to_vec(alloc)?;
    Ok(MemSource::new(bytes, pieces, fails))
}

/// A sink that keeps what is written. The call of this number, from 0, fails, if there is one.
pub fn sink(alloc: Global, fails: Option<u64>) -> Result<MemSink, AllocError>
    ensures { IfOk result (λ sink. sink ≡ record { written = []; fails = failing fails; calls = 0; faults = 0 }) }
{
    let fails = failing(alloc, fails)?;
    Ok(MemSink::new(alloc, fails))
}
