//! Equality of documents.
ghost use Rattle.std.specs.Prelude.{◌≡◌, ◌↔◌, IsTrue};
ghost use Rattle.bson_value.specs.declared.value.Value.{Object};
ghost use Rattle.update_model.specs.Equality.{same};

use bson_value::{CText, Doc, Value};

fn same_field(a: &(CText, Value), b: &(CText, Value)) -> bool
    ensures { IsTrue result ↔ (a.now ≡ b.now) }
{
    a.0.as_str() == b.0.as_str() && a.1.same(&b.1)
}

fn same_fields(a: &[(CText, Value)], b: &[(CText, Value)]) -> bool
    ensures { IsTrue result ↔ (a.now ≡ b.now) }
{
    if a.len() != b.len() {
        return false;
    }
    for i in 0..a.len() {
        if !same_field(&a[i], &b[i]) {
            return false;
        }
    }
    true
}

/// Whether the two are equal, with types and the order of fields.
pub fn same_document(a: &Doc, b: &Doc) -> bool
    ensures { result ≡ same (Object a.now) (Object b.now) }
{
    same_fields(a.entries(), b.entries())
}
