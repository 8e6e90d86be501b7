//! Where paths lead in a document.
ghost use Rattle.std.specs.Prelude.{◌≡◌, ◌∷◌, ◌++◌, [], IfOk};
ghost use Rattle.bson_value.specs.declared.value.Value.{Object as object_of, Array as array_of};
ghost use Rattle.update_model.specs.Located.{located};
ghost use Rattle.update_ops.specs.Sites.{located_as, behind, gone_on};

use bson_value::{CText, Doc, List, Value};
use doc_path::{Part, Path, small_index};
use std::alloc::{AllocError, Global};

/// What stands at a path.
#[derive(Drop)]
pub enum Site<'d, 'p> {
    /// This value, under the part behind the way.
    There(Part, &'d Value),
    /// Nothing under the part, of a value with so many elements, and the names behind it.
    Missing(Part, usize, &'p [CText]),
    /// A name isn't taken.
    Blocked,
}

#[cycle(locate)]
fn go_on<'d, 'p>(
    alloc: Global,
    value: &'d Value,
    part: Part,
    rest: &'p [CText],
    way: &mut List<Part>,
) -> Result<Site<'d, 'p>, AllocError>
    ensures { IfOk result (λ f. located_as way.new f ≡ behind way.old (gone_on part rest.now value.now)) }
{
    match rest.split_first() {
        None => Ok(Site::There(part, value)),
        Some((name, rest)) => {
            way.push(part)?;
            locate_in(alloc, value, name, rest, way)
        }
    }
}

#[cycle(locate)]
fn locate_in<'d, 'p>(
    alloc: Global,
    value: &'d Value,
    name: &CText,
    rest: &'p [CText],
    way: &mut List<Part>,
) -> Result<Site<'d, 'p>, AllocError>
    ensures { IfOk result (λ f. located_as way.new f ≡ behind way.old (located (name.now ∷ rest.now) value.now)) }
{
    match value {
        Value::Object(doc) => locate_field(alloc, doc, name, rest, way),
        Value::Array(items) => locate_element(alloc, items, name, rest, way),
        _ => Ok(Site::Blocked),
    }
}

#[cycle(locate)]
fn locate_field<'d, 'p>(
    alloc: Global,
    doc: &'d Doc,
    name: &CText,
    rest: &'p [CText],
    way: &mut List<Part>,
) -> Result<Site<'d, 'p>, AllocError>
    ensures { IfOk result (λ f. located_as way.new f ≡ behind way.old (located (name.now ∷ rest.now) (object_of doc.now))) }
{
    let part = Part::Name(name.copy(alloc)?);
    match doc.get(name.as_str()) {
        Some(inner) => go_on(alloc, inner, part, rest, way),
        None => Ok(Site::Missing(part, 0, rest)),
    }
}

#[cycle(locate)]
fn locate_element<'d, 'p>(
    alloc: Global,
    items: &'d List<Value>,
    name: &CText,
    rest: &'p [CText],
    way: &mut List<Part>,
) -> Result<Site<'d, 'p>, AllocError>
    ensures { IfOk result (λ f. located_as way.new f ≡ behind way.old (located (name.now ∷ rest.now) (array_of items.now))) }
{
    let Some(at) = small_index(name.as_str()) else {
        return Ok(Site::Blocked);
    };
    let part = Part::Index(at as u32);
    match items.get(at) {
        Some(inner) => go_on(alloc, inner, part, rest, way),
        None => Ok(Site::Missing(part, items.len(), rest)),
    }
}

/// Where the path leads. The parts on the way are put into `way`.
pub fn locate<'d, 'p>(
    alloc: Global,
    doc: &'d Doc,
    path: &'p Path,
    way: &mut List<Part>,
) -> Result<Site<'d, 'p>, AllocError>
    requires { way.old ≡ [] }
    ensures { IfOk result (λ f. located path.now (object_of doc.now) ≡ located_as way.new f) }
{
    match path.names().as_slice().split_first() {
        None => Ok(Site::Blocked),
        Some((name, rest)) => locate_field(alloc, doc, name, rest, way),
    }
}
