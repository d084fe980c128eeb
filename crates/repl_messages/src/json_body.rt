//! Bodies that are JSON.

ghost use Rattle.std.specs.Prelude.{◌≡◌, option_map, IfOk};
ghost use Rattle.serde_json.specs.View.{view, items_view};
ghost use Rattle.repl_messages.specs.Json as json;

use serde_json::Value;
use sg_outside::Memory;
use std::alloc::{AllocError, Global};

/// The items of a body that is a JSON array; of any other body none.
pub(crate) fn items_in(alloc: Global, body: &[u8]) -> Result<Vec<Value>, Memory>
    ensures { IfOk result (λ items. items_view items.items ≡ json.body_items body.now) }
{
    match value_of(alloc, body)? {
        Some(Value::Array(items)) => Ok(items),
        _ => Ok(Vec::new(alloc)),
    }
}

/// What the bytes are read as, where they are JSON.
pub(crate) fn value_of(alloc: Global, bytes: &[u8]) -> Result<Option<Value>, Memory>
    ensures { IfOk result (λ value. option_map view value ≡ json.json_of bytes.now) }
{
    match Value::from_slice(alloc, bytes) {
        Ok(value) => Ok(Some(value)),
        Err(error) => {
            if error.is_memory() {
                Err(AllocError)
            } else {
                Ok(None)
            }
        }
    }
}
