//! Changes of the elements of an array.
ghost use Rattle.std.specs.Prelude.{◌≡◌, OnOk, OnErr};
ghost use Rattle.bson_value.specs.declared.value.Value.{Array as array_of};
ghost use Rattle.bson_value.specs.Place.{put_item, blank_item};
ghost use Rattle.doc_path.specs.Touch.{resize_here as resized};

use bson_value::{List, Value};
use std::alloc::AllocError;

/// The value stands at the index: in its place, or behind nulls.
pub fn put_element(items: &mut List<Value>, at: usize, value: Value) -> Result<(), AllocError>
    ensures ok { OnOk result (items.new ≡ put_item items.old at value) }
    ensures err { OnErr result (items.new ≡ items.old) }
{
    let count = items.len();
    if at < count {
        let _ = items.replace(at, value);
        return Ok(());
    }
    'pad: for _ in count..at {
        match items.push(Value::Null) {
            Ok(()) => {}
            Err(e) => {
                items.truncate(count);
                return Err(e);
            }
        }
    }
    match items.push(value) {
        Ok(()) => Ok(()),
        Err(e) => {
            items.truncate(count);
            Err(e)
        }
    }
}

/// An element that is there becomes null.
pub fn blank_element(items: &mut List<Value>, at: usize)
    ensures { items.new ≡ blank_item items.old at }
{
    if at < items.len() {
        let _ = items.replace(at, Value::Null);
    }
}

/// Cuts the array, or pads it with nulls.
pub fn resize_items(items: &mut List<Value>, len: u32) -> Result<(), AllocError>
    ensures ok { OnOk result (array_of items.new ≡ resized len (array_of items.old)) }
    ensures err { OnErr result (items.new ≡ items.old) }
{
    let count = items.len();
    if len as usize <= count {
        items.truncate(len as usize);
        Ok(())
    } else {
        put_element(items, len as usize - 1, Value::Null)
    }
}

/// The same of a value. What is no array stays.
pub fn resize_value(value: &mut Value, len: u32) -> Result<(), AllocError>
    ensures ok { OnOk result (value.new ≡ resized len value.old) }
    ensures err { OnErr result (value.new ≡ value.old) }
{
    match value {
        Value::Array(items) => resize_items(items, len),
        _ => Ok(()),
    }
}
