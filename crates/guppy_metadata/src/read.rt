//! Objects that are read into memory that is used again.
ghost use Rattle.std.specs.Prelude.{◌≡◌, ◌<◌, [], Some, OnSome};
ghost use Rattle.json.specs.Json.{value};
ghost use Rattle.json.specs.Value.{value_view};

use json::{Reader, Token, Value};
use std::alloc::Global;
use std::mem;

// The list of an object's members, which are let go.
fn emptied<'a>(alloc: Global, object: &mut Value<'a>) -> Vec<(&'a str, Value<'a>)>
    ensures { result.items ≡ [] }
{
    match mem::replace(object, Value::Null) {
        Value::Object(mut members) => {
            members.clear();
            members
        }
        _ => Vec::new(alloc),
    }
}

/// Reads the object that comes next, which nests no deeper than this, in place of what was read before, and where that
/// is an object, into its memory.
pub(crate) fn read_object<'a>(
    object: &mut Value<'a>,
    alloc: Global,
    reader: &mut Reader<'a>,
    depth: usize,
) -> Option<()>
    requires { 0 < depth }
    ensures { OnSome result (value depth reader.old ≡ Some (value_view object.new, reader.new)) }
{
    let Some(Token::BeginObject) = reader.next() else {
        return None;
    };
    let mut members = emptied(alloc, object);
    while let Some(name) = reader.next_key().ok()? {
        let member = Value::read(alloc, reader, depth - 1).ok()?;
        members.push((name, member)).ok()?;
    }
    *object = Value::Object(members);
    Some(())
}
