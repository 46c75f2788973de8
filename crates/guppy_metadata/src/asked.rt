//! Members of objects that are asked for by their names.
ghost use Rattle.std.specs.Prelude.{◌≡◌, ◌<◌, true, false, Some, OnSome, IfSome, MatchOption, All, length, map, position};
ghost use Rattle.std.specs.List.{list_any};
ghost use Rattle.std.specs.Option.{option_copied};
ghost use Rattle.std.specs.Str.{bytes_eq};
ghost use Rattle.json.specs.Json.{Json, null, value};
ghost use Rattle.json.specs.Value.{value_view};
ghost use Rattle.guppy_metadata.specs.Asked.{AreTextsIn, AreValuesOf, IsNameAt, IsTextIn, IsTruthIn, are_distinct};
ghost use Rattle.guppy_metadata.specs.Members.{IsObject, is_among};
ghost use Rattle.guppy_metadata.specs.Told.{IsWith};

use crate::object::texts_of;
use json::{Reader, Token, Value};
use std::alloc::Global;

/// Whether the name is one of these.
pub(crate) fn is_one_of(names: &[&str], name: &str) -> bool
    ensures { result ≡ list_any (λ other. bytes_eq name.now other.now) names.now }
{
    for other in names {
        if name == *other {
            return true;
        }
    }
    false
}

fn first_place_of(names: &[&str], name: &str) -> Option<usize>
    ensures { result ≡ position (λ other. bytes_eq name.now other.now) names.now }
{
    names.iter().position(|other| name == *other)
}

// The place of this name, which is looked for at the likely one first.
fn place_of(names: &[&str], name: &str, likely: usize) -> Option<usize>
    ensures { MatchOption result (is_among (map (λ n. n.now) names.now) name.now ≡ false)
        (λ place. IsNameAt (map (λ n. n.now) names.now) place name.now) }
{
    if likely < names.len() && names[likely] == name {
        return Some(likely);
    }
    first_place_of(names, name)
}

// Reads the value of the member of this name, which comes next, to the name's place, or skips it where the name isn't
// asked for. Gives the place where the next name is looked for first.
fn read_member<'a>(
    values: &mut [Value<'a>],
    names: &[&str],
    alloc: Global,
    reader: &mut Reader<'a>,
    depth: usize,
    name: &str,
    likely: usize,
) -> Option<usize>
    requires as_many { length values.old ≡ length names.now }
    requires distinct { are_distinct (map (λ n. n.now) names.now) ≡ true }
    ensures { OnSome result ((told : Json) × (value depth reader.old ≡ Some (told, reader.new))
        × ((d e : Json) → IsWith name.now told d e
        → AreValuesOf d (map (λ n. n.now) names.now) values.old → AreValuesOf e (map (λ n. n.now) names.now) values.new)) }
{
    match place_of(names, name, likely) {
        Some(place) => {
            values[place] = Value::read(alloc, reader, depth).ok()?;
            Some(place + 1)
        }
        None => {
            reader.skip_value(depth).ok()?;
            Some(likely)
        }
    }
}

// Puts null in place of each value.
fn clear(values: &mut [Value<'_>])
    ensures { All (λ value. value_view value ≡ null) values.new }
{
    for value in values.iter_mut() {
        *value = Value::Null;
    }
}

/// Reads the object that comes next, which nests no deeper than this: to the place of each name goes the value of the
/// last member of this name, or null where there is none. Other members are skipped. It is fastest where the members
/// come in the order of the names.
pub(crate) fn read_asked<'a>(
    values: &mut [Value<'a>],
    names: &[&str],
    alloc: Global,
    reader: &mut Reader<'a>,
    depth: usize,
) -> Option<()>
    requires deep { 0 < depth }
    requires as_many { length values.old ≡ length names.now }
    requires distinct { are_distinct (map (λ n. n.now) names.now) ≡ true }
    ensures { OnSome result ((told : Json) × (value depth reader.old ≡ Some (told, reader.new))
        × IsObject told × AreValuesOf told (map (λ n. n.now) names.now) values.new) }
{
    let Some(Token::BeginObject) = reader.next() else {
        return None;
    };
    clear(values);
    let mut likely = 0;
    while let Some(name) = reader.next_key().ok()? {
        likely = read_member(values, names, alloc, reader, depth - 1, name, likely)?;
    }
    Some(())
}

/// The text that the value of a member is, where it isn't null.
pub(crate) fn optional_text<'a>(value: &Value<'a>) -> Option<Option<&'a str>>
    ensures { IfSome result (λ text. IsTextIn (value_view value.now) (option_copied text)) }
{
    match value {
        Value::Null => Some(None),
        Value::String(text) => Some(Some(*text)),
        _ => None,
    }
}

/// The truth value that the value of a member is, or `default` where it is null.
pub(crate) fn truth_or(value: &Value<'_>, default: bool) -> Option<bool>
    ensures { IfSome result (IsTruthIn (value_view value.now) default) }
{
    match value {
        Value::Null => Some(default),
        Value::Bool(truth) => Some(*truth),
        _ => None,
    }
}

/// The texts of the list that the value of a member is, none where it is null.
pub(crate) fn texts_in<'a>(alloc: Global, value: &Value<'a>) -> Option<Vec<&'a str>>
    ensures { IfSome result (λ texts. AreTextsIn (value_view value.now) (map (λ text. text.now) texts.items)) }
{
    match value {
        Value::Null => Some(Vec::new(alloc)),
        _ => texts_of(alloc, "", value).ok(),
    }
}
