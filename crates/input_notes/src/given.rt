//! What an inputs file gives, as it is shown.

use serde_json::Value as Json;
use std::alloc::Global;
use wdl_base::NoMemory;

/// The most bytes of a value that are shown.
const MOST_SHOWN: usize = 200;

/// The beginning of a text, with `..` where more follows.
fn cut(alloc: Global, text: &str) -> Result<String, NoMemory> {
    if text.len() <= MOST_SHOWN {
        return Ok(String::from_str(alloc, text)?);
    }
    let shown = &text[..text.floor_char_boundary(MOST_SHOWN)];
    Ok(format!(in alloc; "{shown}..")?)
}

/// Returns JSON as it is shown, cut to 200 bytes.
pub(crate) fn shown(alloc: Global, json: &Json) -> Result<String, NoMemory> {
    let text = json.to_string(alloc)?;
    cut(alloc, text.as_str())
}

/// Returns what a text gives; none where it is no JSON.
pub(crate) fn given(alloc: Global, text: &[u8]) -> Result<Option<Json>, NoMemory> {
    match Json::from_slice(alloc, text) {
        Ok(json) => Ok(Some(json)),
        Err(e) if e.is_memory() => Err(NoMemory),
        Err(_) => Ok(None),
    }
}
