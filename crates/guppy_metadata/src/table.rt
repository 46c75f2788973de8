//! The tables that records keep: copies of JSON values, which own their texts.

ghost use Rattle.std.specs.Prelude.{◌≡◌, ◌==◌, ◌<◌, Some, None, Err, IfOk, IsTrue, length, option_map, slice_index, false, true};
ghost use Rattle.json.specs.Value.{value_view, items_view, members_view};
ghost use Rattle.serde_json.specs.Data.{no_members};
ghost use Rattle.serde_json.specs.Read.{of_items, of_members, number_of, number_from};
ghost use Rattle.serde_json.specs.View.{view, number_view, items_view as owned_items, members_view as owned_members};
ghost use Rattle.guppy_metadata.specs.Table.{IsTable, HasNoTable};

use fast_float::Numeral;
use serde_json::{Map, Number, Value};
use std::alloc::{AllocError, AllocFailed, Global};

/// Why there is no copy of a JSON value.
#[derive(Clone, Copy)]
pub(crate) enum TableFault {
    /// One of its numbers is too large for a float.
    NumberOutOfRange,
    /// A request for memory was refused.
    OutOfMemory,
}

impl From<AllocError> for TableFault {
    ghost use Rattle.guppy_metadata.specs.declared.table.TableFault.TheVariants.{OutOfMemory};

    ghost from_gives = { λ _ fault. fault ≡ OutOfMemory };

    fn from(_refused: AllocError) -> TableFault {
        TableFault::OutOfMemory
    }
}

impl<T: Drop> From<AllocFailed<T>> for TableFault {
    ghost use Rattle.guppy_metadata.specs.declared.table.TableFault.TheVariants.{OutOfMemory};

    ghost from_gives = { λ _ fault. fault ≡ OutOfMemory };

    fn from(_refused: AllocFailed<T>) -> TableFault {
        TableFault::OutOfMemory
    }
}

/// The copy of a JSON value that owns its texts, as reading the value's text gives it: of the members of one name
/// the last one stays. Fails where a number is too large for a float. Memory for the copy, time linear in it but
/// for looking up the names of each object, and stack as deep as the value nests.
#[cycle(table)]
pub(crate) fn table_of(alloc: Global, value: &json::Value<'_>) -> Result<Value, TableFault>
    ensures table { IfOk result (λ table. IsTable (value_view value.now) (view table)) }
    ensures out_of_range { result ≡ Err TableFault.NumberOutOfRange
        → HasNoTable (value_view value.now) }
{
    match value {
        json::Value::Null => Ok(Value::Null),
        json::Value::Bool(truth) => Ok(Value::Bool(*truth)),
        json::Value::Number(text) => match number_of(text) {
            Some(number) => Ok(Value::Number(number)),
            None => Err(TableFault::NumberOutOfRange),
        },
        json::Value::String(text) => Ok(Value::String(String::from_str(alloc, text)?)),
        json::Value::Array(items) => Ok(Value::Array(list_of(alloc, items)?)),
        json::Value::Object(members) => Ok(Value::Object(map_of(alloc, members)?)),
    }
}

#[cycle(table)]
fn list_of(alloc: Global, items: &Vec<json::Value<'_>>) -> Result<Vec<Value>, TableFault>
    ensures list { IfOk result
        (λ list. of_items (items_view items.now.items) ≡ Some (owned_items list.items)) }
    ensures out_of_range { result ≡ Err TableFault.NumberOutOfRange
        → of_items (items_view items.now.items) ≡ None }
{
    let mut list = Vec::with_capacity(alloc, items.len())?;
    for item in items {
        list.push(table_of(alloc, item)?)?;
    }
    Ok(list)
}

#[cycle(table)]
fn map_of(
    alloc: Global,
    members: &Vec<(&str, json::Value<'_>)>,
) -> Result<Map<String, Value>, TableFault>
    ensures map { IfOk result (λ map. of_members (members_view members.now.items) no_members
        ≡ Some (owned_members map.entries)) }
    ensures out_of_range { result ≡ Err TableFault.NumberOutOfRange
        → of_members (members_view members.now.items) no_members ≡ None }
{
    let mut map = Map::new(alloc);
    for member in members {
        let name = String::from_str(alloc, member.0)?;
        let value = table_of(alloc, &member.1)?;
        drop(map.insert(name, value)?);
    }
    Ok(map)
}

// The number that the text of one is, or `None` where it is too large for a float.
fn number_of(text: &str) -> Option<Number>
    ensures { option_map number_view result ≡ number_of text.now }
{
    let bytes = text.as_bytes();
    if has_minus(bytes) {
        negative_number(&Numeral::scan(&bytes[1..]))
    } else {
        positive_number(&Numeral::scan(bytes))
    }
}

fn has_minus(bytes: &[u8]) -> bool
    ensures value { result ≡ (slice_index bytes.now 0 == 45) }
    ensures length { IsTrue result → 0 < length bytes.now }
{
    !bytes.is_empty() && bytes[0] == b'-'
}

fn positive_number(numeral: &Numeral<'_>) -> Option<Number>
    ensures { option_map number_view result ≡ number_from false numeral.now }
{
    match numeral.to_u64() {
        Some(number) => Some(Number::from(number)),
        None => Number::from_f64(numeral.to_float::<f64>(false)),
    }
}

fn negative_number(numeral: &Numeral<'_>) -> Option<Number>
    ensures { option_map number_view result ≡ number_from true numeral.now }
{
    match numeral.to_i64(true) {
        Some(number) if number < 0 => Some(Number::from(number)),
        _ => Number::from_f64(numeral.to_float::<f64>(true)),
    }
}
