//! Numbers that are no integers of 64 bits.

ghost use Rattle.std.specs.Prelude.{◌≡◌};
ghost use Rattle.serde_json.specs.View.{view, items_view, members_view};
ghost use Rattle.serde_json.specs.Written.{has_float, items_have_float, members_have_float};

use serde_json::{Map, Value as Json};

/// Whether a number in the JSON is neither an i64 nor a u64.
#[cycle(float)]
pub fn holds_float(json: &Json) -> bool
    ensures { result ≡ has_float (view json.now) }
{
    match json {
        Json::Null | Json::Bool(_) | Json::String(_) => false,
        Json::Number(n) => n.is_f64(),
        Json::Array(items) => items_hold_float(items.as_slice()),
        Json::Object(members) => members_hold_float(members),
    }
}

#[cycle(float)]
fn items_hold_float(items: &[Json]) -> bool
    ensures { result ≡ items_have_float (items_view items.now) }
{
    for item in items {
        if holds_float(item) {
            return true;
        }
    }
    false
}

#[cycle(float)]
fn members_hold_float(members: &Map<String, Json>) -> bool
    ensures { result ≡ members_have_float (members_view members.now.entries) }
{
    for (_, json) in members.iter() {
        if holds_float(json) {
            return true;
        }
    }
    false
}
