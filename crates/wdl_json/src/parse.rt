//! Bytes as JSON.

ghost use Rattle.std.specs.Prelude.{◌≡◌, IfOk, option_map};
ghost use Rattle.serde_json.specs.View.{view};
ghost use Rattle.wdl_json.specs.Inputs as spec;

use serde_json::Value as Json;
use std::alloc::Global;
use wdl_base::NoMemory;

/// The JSON that the bytes are, if they are any.
pub fn json_in(alloc: Global, bytes: &[u8]) -> Result<Option<Json>, NoMemory>
    ensures { IfOk result (λ o. option_map view o ≡ spec.json_in bytes.now) }
{
    match Json::from_slice(alloc, bytes) {
        Ok(json) => Ok(Some(json)),
        Err(e) => {
            if e.is_memory() {
                Err(NoMemory)
            } else {
                Ok(None)
            }
        }
    }
}
