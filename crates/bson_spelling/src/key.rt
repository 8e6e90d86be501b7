//! The key of an `_id`, from the bytes of its document.
ghost use Rattle.std.specs.Prelude.{◌≡◌, ◌++◌, OnOk};
ghost use Rattle.bson_encode.specs.Key.{key_of};
ghost use Rattle.bson_view.specs.Views.{elem_value};

use bson_encode::put_key;
use bson_value::type_byte;
use bson_view::Elem;
use std::alloc::{AllocError, Global};

/// Appends the key of an `_id`: its type byte and its spelling. An `_id` that holds other values is built for
/// it, since its bytes may name the elements of arrays as they like, and else the bytes are copied.
pub fn put_id_key(alloc: Global, key: &mut Vec<u8>, id: &Elem<'_>) -> Result<(), AllocError>
    ensures { OnOk result (key.new.items ≡ key.old.items ++ key_of (elem_value id.now)) }
{
    id.spells();
    match id.tag {
        type_byte::DOCUMENT | type_byte::ARRAY | type_byte::SCOPED_CODE => {
            let value = id.to_value(alloc)?;
            put_key(key, &value)
        }
        _ => {
            key.reserve(id.value.len().saturating_add(1))?;
            key.push(id.tag)?;
            key.extend_from_slice(id.value)?;
            Ok(())
        }
    }
}
