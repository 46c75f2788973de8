//! Dependencies as they are resolved.
ghost use Rattle.std.specs.Prelude.{◌≡◌, Some, IfSome, MatchResult, length, map, OnSome};
ghost use Rattle.json.specs.Json.{Json, string, value};
ghost use Rattle.json.specs.Value.{value_view};
ghost use Rattle.guppy_metadata.specs.Asked.{AreValuesOf};
ghost use Rattle.guppy_metadata.specs.Fault.{NoneIs, IsRead};
ghost use Rattle.guppy_metadata.specs.Links.{IsUsage, AreUsages, IsResolved};
ghost use Rattle.guppy_metadata.specs.Members.{data_of, IsListOf, IsObject};
ghost use Rattle.guppy_metadata.specs.Resolved.{TellsResolved};
ghost use Rattle.guppy_metadata.specs.declared.resolved.TheConstants.{ASKED};
ghost use Rattle.guppy_metadata.specs.Told.{IsWith};

use crate::asked::{optional_text, read_asked};
use crate::declared::{section_named, section_of};
use crate::fault::{Kind, Misfit};
use crate::object::Object;
use crate::types::{Resolved, ResolvedParts, Usage};
use json::{MAX_DEPTH, Reader, Token, Value};
use std::alloc::Global;

fn usage_of<'a>(alloc: Global, item: &Value<'a>) -> Result<Usage<'a>, Misfit>
    ensures { IsRead (IsUsage (value_view item.now)) result }
{
    let Value::Object(_) = item else {
        return Err(Misfit::wrong_kind(alloc, "", Kind::Object));
    };
    let usage = Object { alloc, value: item };
    Ok(Usage {
        section: section_of(usage)?,
        target: usage.optional_text("target")?,
    })
}

// The usages of a dependency: the items of the list `dep_kinds`.
fn usages_of<'a>(dependency: Object<'_, 'a>) -> Result<Vec<Usage<'a>>, Misfit>
    ensures { MatchResult result (λ usages. AreUsages (data_of dependency.entry) usages.items)
        (NoneIs (AreUsages (data_of dependency.entry))) }
{
    let alloc = dependency.alloc;
    let items = dependency.list("dep_kinds")?;
    let mut usages = Vec::with_capacity(alloc, items.len())?;
    for (index, item) in items.iter().enumerate() {
        match usage_of(alloc, item) {
            Ok(usage) => usages.push(usage)?,
            Err(fault) => return Err(fault.within_item(alloc, "dep_kinds", index)),
        }
    }
    Ok(usages)
}

/// The dependency that an object tells.
pub(crate) fn resolved_of<'a>(dependency: Object<'_, 'a>) -> Result<Resolved<'a>, Misfit>
    ensures { IsRead (IsResolved (data_of dependency.entry)) result }
{
    Ok(Resolved {
        name: dependency.text("name")?,
        id: dependency.text("pkg")?,
        usages: usages_of(dependency)?,
    })
}

// The names of the members that a usage is read from.
const ASKED: [&str; 2] = ["kind", "target"];

// The usage whose members have these values.
fn plain_usage<'a>(values: &[Value<'a>]) -> Option<Usage<'a>>
    requires { length values.now ≡ 2 }
    ensures { IfSome result (λ usage. (d : Json) → IsObject d → AreValuesOf d (map (λ n. n.now) ASKED) values.now
        → IsUsage d usage) }
{
    let kind = optional_text(&values[0])?;
    let target = optional_text(&values[1])?;
    let section = section_named(kind)?;
    Some(Usage { section, target })
}

// The usage that the object that comes next tells. Its members' values are read in place of what was read before.
fn read_usage<'a>(
    values: &mut [Value<'a>],
    alloc: Global,
    reader: &mut Reader<'a>,
) -> Option<Usage<'a>>
    requires { length values.old ≡ 2 }
    ensures { IfSome result (λ usage. (told : Json)
        × (value 121 reader.old ≡ Some (told, reader.new)) × IsUsage told usage) }
{
    read_asked(values, &ASKED, alloc, reader, MAX_DEPTH - 7)?;
    plain_usage(values)
}

// The usages that the list that comes next tells.
fn read_usages<'a>(alloc: Global, reader: &mut Reader<'a>) -> Option<Vec<Usage<'a>>>
    ensures { IfSome result (λ usages. (told : Json)
        × (value 122 reader.old ≡ Some (told, reader.new)) × IsListOf IsUsage told usages.items) }
{
    let Some(Token::BeginArray) = reader.next() else {
        return None;
    };
    let mut usages = Vec::new(alloc);
    let mut values = [Value::Null, Value::Null];
    while !reader.take_end_array() {
        let usage = read_usage(&mut values, alloc, reader)?;
        usages.push(usage).ok()?;
    }
    Some(usages)
}

// The text that comes next.
fn read_text<'a>(reader: &mut Reader<'a>) -> Option<&'a str>
    ensures { IfSome result (λ text. value 122 reader.old ≡ Some (string text.now, reader.new)) }
{
    match reader.next() {
        Some(Token::String(text)) => Some(text),
        _ => None,
    }
}

// Reads the member of this name, whose value comes next.
fn read_member<'a>(
    parts: &mut ResolvedParts<'a>,
    alloc: Global,
    reader: &mut Reader<'a>,
    name: &str,
) -> Option<()>
    ensures { OnSome result ((told : Json) × (value 122 reader.old ≡ Some (told, reader.new))
        × ((d e : Json) → IsWith name.now told d e → TellsResolved d parts.old → TellsResolved e parts.new)) }
{
    if name == "name" {
        parts.name = Some(read_text(reader)?);
    } else if name == "pkg" {
        parts.id = Some(read_text(reader)?);
    } else if name == "dep_kinds" {
        parts.usages = Some(read_usages(alloc, reader)?);
    } else {
        reader.skip_value(MAX_DEPTH - 6).ok()?;
    }
    Some(())
}

// What the members of the object that comes next tell.
fn read_parts<'a>(alloc: Global, reader: &mut Reader<'a>) -> Option<ResolvedParts<'a>>
    ensures { IfSome result (λ parts. (told : Json)
        × (value 123 reader.old ≡ Some (told, reader.new)) × TellsResolved told parts) }
{
    let Some(Token::BeginObject) = reader.next() else {
        return None;
    };
    let mut parts = ResolvedParts {
        name: None,
        id: None,
        usages: None,
    };
    while let Some(name) = reader.next_key().ok()? {
        read_member(&mut parts, alloc, reader, name)?;
    }
    Some(parts)
}

/// The dependency that the object that comes next tells.
pub(crate) fn read_resolved<'a>(alloc: Global, reader: &mut Reader<'a>) -> Option<Resolved<'a>>
    ensures { IfSome result (λ resolved. (told : Json)
        × (value 123 reader.old ≡ Some (told, reader.new)) × IsResolved told resolved) }
{
    let ResolvedParts { name, id, usages } = read_parts(alloc, reader)?;
    Some(Resolved {
        name: name?,
        id: id?,
        usages: usages?,
    })
}
