//! The headers of blocks, read without memory.
ghost use Rattle.std.specs.Prelude.{◌≡◌, ℕ, ◌≤◌, List, length, take, None, Some, OnErr, IfOk, IfErr};
ghost use Rattle.std.specs.Int.{w64, from_le_bytes, cast_signed};
ghost use Rattle.bson_value.specs.declared.value.Value.{Value};
ghost use Rattle.containers.specs.Entries.{lookup};
ghost use Rattle.archive_format.specs.Shapes.{named, field, crc_told, string_of, bool_of, ns_head_of};
ghost use Rattle.archive_format.specs.Archive.{head_in, head_fault_in, fault_in};
ghost use Rattle.archive_blocks.specs.Found.{SpellFields, Found};
ghost use Rattle.archive_blocks.specs.Heads.{IsHeadFault, ReadsPart};

use archive_format::is_namespace;
use bson_check::parts::{text, zero_place};
use bson_check::passing::after;

/// What a block's header says. The checksum is there only where the namespace ends.
#[derive(Clone, Copy, Debug)]
pub struct NsHead<'a> {
    pub db: &'a str,
    pub coll: &'a str,
    pub eof: bool,
    pub crc: Option<i64>,
}

/// Why a document is no header of a block. The fields are looked at in the order `db`, `collection`, `EOF`, `CRC`, and
/// what db and collection are comes after them.
#[derive(Clone, Copy, Debug, PartialEq, Eq)]
pub enum HeadFault {
    /// A field isn't there.
    MissingField,
    /// A field is of another type.
    WrongType,
    /// No namespace has these names.
    BadNs,
}

// The type and the bytes of the value that this name has among the elements, with what follows them.
fn find<'a>(elements: &'a [u8], name: &str) -> Option<(u8, &'a [u8])>
    ensures { (n : ℕ) (fs : List (List ℕ × Value)) → SpellFields n elements.now fs → Found n result (lookup name.now fs) }
{
    let mut rest = elements;
    'elements: while let Some((tag, bytes)) = rest.split_first() {
        let Some(i) = zero_place(bytes) else {
            return None;
        };
        let value = &bytes[i + 1..];
        if &bytes[..i] == name.as_bytes() {
            return Some((*tag, value));
        }
        rest = after(*tag, value);
    }
    None
}

fn string<'a>(elements: &'a [u8], name: &str) -> Result<&'a str, HeadFault>
    ensures { (n : ℕ) (fs : List (List ℕ × Value)) → SpellFields n elements.now fs → ReadsPart (λ t. t.now) result (field string_of name.now fs) }
{
    let Some((tag, bytes)) = find(elements, name) else {
        return Err(HeadFault::MissingField);
    };
    if tag != 2 {
        return Err(HeadFault::WrongType);
    }
    match text(bytes.len(), bytes) {
        Ok((text, _)) => Ok(text),
        Err(_) => Err(HeadFault::WrongType),
    }
}

fn boolean(elements: &[u8], name: &str) -> Result<bool, HeadFault>
    ensures { (n : ℕ) (fs : List (List ℕ × Value)) → SpellFields n elements.now fs → ReadsPart (λ b. b) result (field bool_of name.now fs) }
{
    let Some((tag, bytes)) = find(elements, name) else {
        return Err(HeadFault::MissingField);
    };
    if tag != 8 {
        return Err(HeadFault::WrongType);
    }
    Ok(bytes.first() == Some(&1))
}

// The number in the first eight bytes.
fn long(bytes: &[u8]) -> i64
    requires { 8 ≤ length bytes.now }
    ensures { result ≡ cast_signed w64 (from_le_bytes w64 (take 8 bytes.now)) }
{
    let mut eight = [0u8; 8];
    eight.copy_from_slice(&bytes[..8]);
    i64::from_le_bytes(eight)
}

// The checksum, if it is read and there.
fn checksum(elements: &[u8], eof: bool) -> Result<Option<i64>, HeadFault>
    ensures { (n : ℕ) (fs : List (List ℕ × Value)) → SpellFields n elements.now fs → ReadsPart (λ z. z) result (crc_told eof fs) }
{
    if !eof {
        return Ok(None);
    }
    let Some((tag, bytes)) = find(elements, "CRC") else {
        return Ok(None);
    };
    if tag != 18 || bytes.len() < 8 {
        return Err(HeadFault::WrongType);
    }
    Ok(Some(long(bytes)))
}

fn of_elements(elements: &[u8]) -> Result<NsHead<'_>, HeadFault>
    ensures { (n : ℕ) (fs : List (List ℕ × Value)) → SpellFields n elements.now fs → ReadsPart (λ h. record { ns = named h.db.now h.coll.now; eof = h.eof; crc = h.crc }) result (ns_head_of fs) }
{
    let db = string(elements, "db")?;
    let coll = string(elements, "collection")?;
    let eof = boolean(elements, "EOF")?;
    let crc = checksum(elements, eof)?;
    if !is_namespace(db, coll) {
        return Err(HeadFault::BadNs);
    }
    Ok(NsHead { db, coll, eof, crc })
}

/// What a header says, from the bytes of a document of at most 16,793,600 bytes and 200 levels. Other fields are passed
/// over, and `CRC` is looked at only where `EOF` is true.
pub fn read_ns_head(bytes: &[u8]) -> Result<NsHead<'_>, HeadFault>
    requires { fault_in bytes.now ≡ None }
    ensures ok { IfOk result (λ h. head_in bytes.now ≡ Some (record { ns = named h.db.now h.coll.now; eof = h.eof; crc = h.crc })) }
    ensures none { OnErr result (head_in bytes.now ≡ None) }
    ensures err { IfErr result (λ f. IsHeadFault f (head_fault_in bytes.now)) }
{
    of_elements(&bytes[4..bytes.len() - 1])
}
