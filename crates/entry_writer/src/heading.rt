//! The fields with which an entry begins, and the date with which it ends.
ghost use Rattle.std.specs.Prelude.{◌≡◌, ◌∷◌, ◌++◌, [], codes, pos, OnOk};
ghost use Rattle.bson_value.specs.declared.value.Value.{Long, Stamp, Str};
ghost use Rattle.bson_value.specs.Spelling.{count_bytes, elements_of};
ghost use Rattle.entry_model.specs.Spelling.{text_of, wall};

use crate::elements::put_element;
use bson_value::{NsName, Ts, Value};
use std::alloc::AllocError;

/// The four bytes of a length.
fn count_bytes(len: u128) -> [u8; 4]
    ensures { result ≡ count_bytes len }
{
    ((len % 4294967296) as u32).to_le_bytes()
}

/// Appends the timestamp, the term 1 and the version 2.
pub(crate) fn put_front(out: &mut Vec<u8>, ts: Ts) -> Result<(), AllocError>
    ensures { OnOk result (out.new.items ≡ out.old.items ++ elements_of ((codes "ts", Stamp ts) ∷ (codes "t", Long (pos 1)) ∷ (codes "v", Long (pos 2)) ∷ [])) }
{
    out.extend_from_slice(&[17, b't', b's', 0])?;
    out.extend_from_slice(&ts.inc.to_le_bytes())?;
    out.extend_from_slice(&ts.secs.to_le_bytes())?;
    out.extend_from_slice(&[18, b't', 0, 1, 0, 0, 0, 0, 0, 0, 0])?;
    out.extend_from_slice(&[18, b'v', 0, 2, 0, 0, 0, 0, 0, 0, 0])?;
    Ok(())
}

/// Appends an operation of one letter, and the namespace.
pub(crate) fn put_heading(out: &mut Vec<u8>, op: u8, ns: &NsName) -> Result<(), AllocError>
    ensures { OnOk result (out.new.items ≡ out.old.items ++ elements_of ((codes "op", Str (op ∷ [])) ∷ (codes "ns", Str (text_of ns.now)) ∷ [])) }
{
    let (db, coll) = (ns.db.as_str(), ns.coll.as_str());
    out.extend_from_slice(&[2, b'o', b'p', 0, 2, 0, 0, 0, op, 0, 2, b'n', b's', 0])?;
    out.extend_from_slice(&count_bytes(db.len() as u128 + coll.len() as u128 + 2))?;
    out.extend_from_slice(db.as_bytes())?;
    out.push(b'.')?;
    out.extend_from_slice(coll.as_bytes())?;
    out.push(0)?;
    Ok(())
}

/// The date of a second.
fn wall(secs: u32) -> Value
    ensures { result ≡ wall secs }
{
    Value::Date(i64::from(secs) * 1000)
}

/// Appends the date of a second.
pub(crate) fn put_wall(out: &mut Vec<u8>, secs: u32) -> Result<(), AllocError>
    ensures { OnOk result (out.new.items ≡ out.old.items ++ elements_of ((codes "wall", wall secs) ∷ [])) }
{
    put_element(out, "wall", &wall(secs))
}
