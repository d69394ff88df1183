// How large a value is. Counts stay at the greatest u64, and take no memory.

ghost use Rattle.std.specs.Prelude.{◌≡◌, IsTrue, ◌↔◌, length};
ghost use Rattle.serde_json.specs.View.{view, items_view, members_view};
ghost use Rattle.mini_model.specs.Texts.{units_of};
ghost use Rattle.mini_model.specs.Weight.{capped};
ghost use Rattle.mini_writer.specs.Fits.{Fits, values_in, values_in_items, values_in_members, units_in, units_in_items, units_in_members};

use serde_json::{Map, Value};

const MOST_VALUES: u64 = 16_777_216;

const MOST_UNITS: u64 = 16_777_216;

/// Whether the JSON value is small enough to be minified.
///
/// It may be made of 16,777,216 JSON values, itself counted, and its texts may have 16,777,216
/// UTF-16 units in all, those of keys counted.
pub fn fits(value: &Value) -> bool
    ensures { IsTrue result ↔ Fits (view value.now) }
{
    count_values(value) <= MOST_VALUES && count_units(value) <= MOST_UNITS
}

/// How many JSON values the value is made of.
#[cycle(values)]
pub fn count_values(value: &Value) -> u64
    ensures { result ≡ capped (values_in (view value.now)) }
{
    match value {
        Value::Null => 1,
        Value::Bool(_) => 1,
        Value::Number(_) => 1,
        Value::String(_) => 1,
        Value::Array(items) => count_item_values(items).saturating_add(1),
        Value::Object(members) => count_member_values(members).saturating_add(1),
    }
}

#[cycle(values)]
fn count_item_values(items: &Vec<Value>) -> u64
    ensures { result ≡ capped (values_in_items (items_view items.now.items)) }
{
    let mut count: u64 = 0;
    for item in items {
        count = count.saturating_add(count_values(item));
    }
    count
}

#[cycle(values)]
fn count_member_values(members: &Map<String, Value>) -> u64
    ensures { result ≡ capped (values_in_members (members_view members.now.entries)) }
{
    let mut count: u64 = 0;
    for (_, member) in members.iter() {
        count = count.saturating_add(count_values(member));
    }
    count
}

fn count_text_units(text: &str) -> u64
    ensures { result ≡ capped (length (units_of text.now)) }
{
    let mut count: u64 = 0;
    'units: for _ in text.encode_utf16() {
        count = count.saturating_add(1);
    }
    count
}

/// How many UTF-16 units its texts have, those of keys counted.
#[cycle(units)]
pub fn count_units(value: &Value) -> u64
    ensures { result ≡ capped (units_in (view value.now)) }
{
    match value {
        Value::Null => 0,
        Value::Bool(_) => 0,
        Value::Number(_) => 0,
        Value::String(text) => count_text_units(text.as_str()),
        Value::Array(items) => count_item_units(items),
        Value::Object(members) => count_member_units(members),
    }
}

#[cycle(units)]
fn count_item_units(items: &Vec<Value>) -> u64
    ensures { result ≡ capped (units_in_items (items_view items.now.items)) }
{
    let mut count: u64 = 0;
    for item in items {
        count = count.saturating_add(count_units(item));
    }
    count
}

#[cycle(units)]
fn count_member_units(members: &Map<String, Value>) -> u64
    ensures { result ≡ capped (units_in_members (members_view members.now.entries)) }
{
    let mut count: u64 = 0;
    for (key, member) in members.iter() {
        count = count
            .saturating_add(count_text_units(key.as_str()))
            .saturating_add(count_units(member));
    }
    count
}
