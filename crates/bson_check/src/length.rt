//! The length that a document tells of itself.
ghost use Rattle.std.specs.Prelude.{◌≡◌, ◌↔◌, ◌⊎◌, ◌<ℤ◌, pos, IfOk, IfErr};
ghost use Rattle.bson_check.specs.Faults.{told_length};

use crate::fault::BsonKind;

/// The most bytes of a document in an archive: 16 MiB, and room for the fields that a server adds.
pub const MAX_DOCUMENT_BYTES: usize = 16_793_600;

/// The most levels of a document in an archive, the document itself being the first.
pub const MAX_LEVELS: usize = 200;

/// How many bytes a document has whose first four bytes are these, its length as a signed number with
/// the low byte first. `Length` below 5, the shortest document, and `TooLong` above 16,793,600.
pub fn doc_len(first: [u8; 4]) -> Result<usize, BsonKind>
    ensures ok { IfOk result (λ n. pos n ≡ told_length first) }
    ensures length { (result ≡ Err BsonKind.Length) ↔ (told_length first <ℤ pos 5) }
    ensures too_long { (result ≡ Err BsonKind.TooLong) ↔ (pos 16793600 <ℤ told_length first) }
    ensures kinds { IfErr result (λ kind. (kind ≡ BsonKind.Length) ⊎ (kind ≡ BsonKind.TooLong)) }
{
    let told = i32::from_le_bytes(first);
    if told < 5 {
        return Err(BsonKind::Length);
    }
    let count = told as usize;
    if count > MAX_DOCUMENT_BYTES {
        return Err(BsonKind::TooLong);
    }
    Ok(count)
}
