ghost use Rattle.std.specs.Prelude.{◌≡◌, ℕ, true, List};
ghost use Rattle.hex.specs.Hex.{IsBytes};
ghost use Rattle.serde_json.specs.Data.{string};
ghost use Rattle.serde_json.specs.View.{view};
ghost use Rattle.wdl_base.specs.Names.{is_name};
ghost use Rattle.run_keeper.specs.Entries.{IsText, IsBody, IsSeen, IsLaid, IsAttribute};
ghost use Rattle.run_keeper.specs.Reads.{Gives, Recovers};
ghost use Rattle.run_keeper.specs.RowText as spec;

use crate::error::RowFault;
use hex::FromHexError;
use serde_json::Value;
use sqlite_items::Items;
use std::alloc::Global;
use wdl_value::{Attribute, Body, Laid, Name, NameFault, Seen, Text, TextFault};

/// The text of a string.
pub(crate) fn plain(alloc: Global, s: &str) -> Result<Text, RowFault>
    ensures { (text : List ℕ) → IsText text → s.now ≡ text → Gives result text }
{
    match Text::new(alloc, s) {
        Ok(text) => Ok(text),
        Err(TextFault::Nul) => Err(RowFault::NotARow),
        Err(TextFault::NoMemory) => Err(RowFault::NoMemory),
    }
}

pub(crate) fn text_of(alloc: Global, value: &Value) -> Result<Text, RowFault>
    ensures { Recovers string IsText (view value.now) result }
{
    match value.as_str() {
        Some(s) => plain(alloc, s),
        None => Err(RowFault::NotARow),
    }
}

/// The bytes that a string writes in hexadecimal.
fn bytes_of(alloc: Global, value: &Value) -> Result<Items<u8>, RowFault>
    ensures { Recovers spec.hex_data IsBytes (view value.now) result }
{
    let Some(s) = value.as_str() else {
        return Err(RowFault::NotARow);
    };
    match hex::decode(alloc, s) {
        Ok(bytes) => Ok(Items::from_vec(bytes)),
        Err(FromHexError::OutOfMemory) => Err(RowFault::NoMemory),
        Err(_) => Err(RowFault::NotARow),
    }
}

pub(crate) fn body_of(alloc: Global, value: &Value) -> Result<Body, RowFault>
    ensures { Recovers spec.body_data IsBody (view value.now) result }
{
    if value.is_null() {
        return Ok(Body::Long);
    }
    Ok(Body::Bytes(bytes_of(alloc, value)?))
}

/// The text whose bytes a string writes in hexadecimal.
fn hex_text_of(alloc: Global, value: &Value) -> Result<Text, RowFault>
    ensures { (text : List ℕ) → IsText text → IsBytes text → view value.now ≡ spec.hex_data text → Gives result text }
{
    let bytes = bytes_of(alloc, value)?;
    match std::str::from_utf8(bytes.as_slice()) {
        Ok(s) => plain(alloc, s),
        Err(_) => Err(RowFault::NotARow),
    }
}

pub(crate) fn seen_of(alloc: Global, value: &Value) -> Result<Seen, RowFault>
    ensures { Recovers spec.seen_data IsSeen (view value.now) result }
{
    let Some(name) = value.get(0usize) else {
        return Err(RowFault::NotARow);
    };
    let Some(body) = value.get(1usize) else {
        return Err(RowFault::NotARow);
    };
    Ok(Seen {
        name: text_of(alloc, name)?,
        body: body_of(alloc, body)?,
    })
}

pub(crate) fn laid_of(alloc: Global, value: &Value) -> Result<Laid, RowFault>
    ensures { Recovers spec.laid_data IsLaid (view value.now) result }
{
    let Some(name) = value.get(0usize) else {
        return Err(RowFault::NotARow);
    };
    let Some(body) = value.get(1usize) else {
        return Err(RowFault::NotARow);
    };
    Ok(Laid {
        name: text_of(alloc, name)?,
        body: hex_text_of(alloc, body)?,
    })
}

fn name_of(alloc: Global, value: &Value) -> Result<Name, RowFault>
    ensures { (name : List ℕ) → is_name name ≡ true → view value.now ≡ string name → Gives result name }
{
    let Some(s) = value.as_str() else {
        return Err(RowFault::NotARow);
    };
    match Name::new(alloc, s) {
        Ok(name) => Ok(name),
        Err(NameFault::NotAName) => Err(RowFault::NotARow),
        Err(NameFault::NoMemory) => Err(RowFault::NoMemory),
    }
}

pub(crate) fn attribute_of(alloc: Global, value: &Value) -> Result<Attribute, RowFault>
    ensures { Recovers spec.attribute_data IsAttribute (view value.now) result }
{
    let Some(name) = value.get(0usize) else {
        return Err(RowFault::NotARow);
    };
    let Some(text) = value.get(1usize) else {
        return Err(RowFault::NotARow);
    };
    Ok(Attribute {
        name: name_of(alloc, name)?,
        value: text_of(alloc, text)?,
    })
}
