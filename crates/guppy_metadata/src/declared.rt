//! A dependency as a package declares it.
ghost use Rattle.std.specs.Prelude.{◌≡◌, Some, map, length, IfOk, IfSome, MatchOption, MatchResult};
ghost use Rattle.std.specs.Option.{option_copied};
ghost use Rattle.json.specs.Json.{Json, value};
ghost use Rattle.guppy_data.specs.declared.texts.dependency_kind.DependencyKind.{DependencyKind};
ghost use Rattle.guppy_metadata.specs.Asked.{AreValuesOf, HasName};
ghost use Rattle.guppy_metadata.specs.declared.declared.TheConstants.{PLAIN, DETAILED};
ghost use Rattle.guppy_metadata.specs.Dependency.{AreAsked, IsDeclared, NamesSection, NamesOptional};
ghost use Rattle.guppy_metadata.specs.Fault.{NoneIs, IsRead};
ghost use Rattle.guppy_metadata.specs.Members.{data_of, IsListOf};
ghost use Rattle.guppy_metadata.specs.Package.{AreDeclared};

use crate::asked::{optional_text, read_asked, texts_in, truth_or};
use crate::fault::{Misfit, TextFault};
use crate::key::name_key;
use crate::object::{Object, requirement_of};
use crate::types::Declared;
use guppy_data::{DependencyKind, Details};
use indexmap::IndexSet;
use json::{MAX_DEPTH, Reader, Token, Value};
use std::alloc::{AllocError, Global};

/// The section of this name; the normal one where there is none.
pub(crate) fn section_named(name: Option<&str>) -> Option<DependencyKind>
    ensures { MatchOption result ((section : DependencyKind) → ¬ HasName (option_copied name.entry) section)
        (HasName (option_copied name.entry)) }
{
    match name {
        None | Some("normal") => Some(DependencyKind::Normal),
        Some("dev") => Some(DependencyKind::Development),
        Some("build") => Some(DependencyKind::Build),
        Some(_) => None,
    }
}

/// The section that the text in the member `kind` names; `normal` where there is none.
pub(crate) fn section_of(object: Object<'_, '_>) -> Result<DependencyKind, Misfit>
    ensures { IsRead (NamesSection (data_of object.entry)) result }
{
    let name = object.optional_text("kind")?;
    match section_named(name) {
        Some(section) => Ok(section),
        None => {
            let why = TextFault::NoDependencyKind;
            Err(Misfit::bad_text(object.alloc, "kind", why))
        }
    }
}

// The features that are asked for.
fn asked_features<'a>(dependency: Object<'_, 'a>, details: Details) -> Result<Vec<&'a str>, Misfit>
    ensures { MatchResult result
        (λ features. AreAsked details (data_of dependency.entry) (map (λ text. text.now) features.items))
        (NoneIs (AreAsked details (data_of dependency.entry))) }
{
    match details {
        Details::With => dependency.texts("features"),
        Details::Without => Ok(Vec::new(dependency.alloc)),
    }
}

fn declared_of<'a>(dependency: Object<'_, 'a>, details: Details) -> Result<Declared<'a>, Misfit>
    ensures { IsRead (IsDeclared details (data_of dependency.entry)) result }
{
    let name = dependency.text("name")?;
    let rename = dependency.optional_text("rename")?;
    let text = dependency.text("req")?;
    let section = section_of(dependency)?;
    let target = dependency.optional_text("target")?;
    let optional = dependency.boolean("optional", false)?;
    let default_features = dependency.boolean("uses_default_features", true)?;
    let registry = dependency.optional_text("registry")?;
    let path = dependency.optional_text("path")?;
    let features = asked_features(dependency, details)?;
    let requirement = requirement_of(dependency.alloc, "req", text)?;
    Ok(Declared {
        name,
        key: name_key(name),
        rename,
        requirement,
        section,
        target,
        optional,
        default_features,
        features,
        registry,
        path,
    })
}

/// The dependencies that a package declares, with details or without: the items of the list `dependencies`.
pub(crate) fn declared_dependencies<'a>(
    json: Object<'_, 'a>,
    details: Details,
) -> Result<Vec<Declared<'a>>, Misfit>
    ensures { MatchResult result
        (λ declared. AreDeclared details (data_of json.entry) declared.items)
        (NoneIs (AreDeclared details (data_of json.entry))) }
{
    let alloc = json.alloc;
    let items = json.list("dependencies")?;
    let mut declared = Vec::with_capacity(alloc, items.len())?;
    for (index, item) in items.iter().enumerate() {
        let dependency = Object::of_item(alloc, "dependencies", index, item)?;
        match declared_of(dependency, details) {
            Ok(dependency) => declared.push(dependency)?,
            Err(fault) => return Err(fault.within_item(alloc, "dependencies", index)),
        }
    }
    Ok(declared)
}

// The names of the members that a dependency is read from without details, in the order in which Cargo prints them.
// `source` is there only because Cargo prints it among them.
const PLAIN: [&str; 10] = [
    "name",
    "source",
    "req",
    "kind",
    "rename",
    "optional",
    "uses_default_features",
    "target",
    "registry",
    "path",
];

// The names of the members that a dependency is read from with details: the same, and behind them the features.
const DETAILED: [&str; 11] = [
    "name",
    "source",
    "req",
    "kind",
    "rename",
    "optional",
    "uses_default_features",
    "target",
    "registry",
    "path",
    "features",
];

// The dependency whose members have these values, without details.
fn plain_of<'a>(values: &[Value<'a>], alloc: Global) -> Option<Declared<'a>>
    requires { length values.now ≡ 10 }
    ensures { IfSome result (λ made. (told : Json) → AreValuesOf told (map (λ n. n.now) PLAIN) values.now
        → IsDeclared Details.Without told made) }
{
    let name = values[0].as_str()?;
    let text = values[2].as_str()?;
    let kind = optional_text(&values[3])?;
    let rename = optional_text(&values[4])?;
    let optional = truth_or(&values[5], false)?;
    let default_features = truth_or(&values[6], true)?;
    let target = optional_text(&values[7])?;
    let registry = optional_text(&values[8])?;
    let path = optional_text(&values[9])?;
    let section = section_named(kind)?;
    let requirement = requirement_of(alloc, "req", text).ok()?;
    Some(Declared {
        name,
        key: name_key(name),
        rename,
        requirement,
        section,
        target,
        optional,
        default_features,
        features: Vec::new(alloc),
        registry,
        path,
    })
}

// The dependency whose members have these values, with details.
fn detailed_of<'a>(values: &[Value<'a>], alloc: Global) -> Option<Declared<'a>>
    requires { length values.now ≡ 11 }
    ensures { IfSome result (λ made. (told : Json) → AreValuesOf told (map (λ n. n.now) DETAILED) values.now
        → IsDeclared Details.With told made) }
{
    let mut declared = plain_of(&values[..10], alloc)?;
    declared.features = texts_in(alloc, &values[10])?;
    Some(declared)
}

// The dependency that the object that comes next tells, with details or without. Its members' values are read in place of
// what was read before.
fn read_dependency<'a>(
    values: &mut [Value<'a>],
    alloc: Global,
    reader: &mut Reader<'a>,
    details: Details,
) -> Option<Declared<'a>>
    requires { length values.old ≡ 11 }
    ensures { IfSome result (λ made. (told : Json)
        × (value 124 reader.old ≡ Some (told, reader.new)) × IsDeclared details told made) }
{
    match details {
        Details::With => {
            read_asked(values, &DETAILED, alloc, reader, MAX_DEPTH - 4)?;
            detailed_of(values, alloc)
        }
        Details::Without => {
            let plain = &mut values[..10];
            read_asked(plain, &PLAIN, alloc, reader, MAX_DEPTH - 4)?;
            plain_of(plain, alloc)
        }
    }
}

/// The dependencies that the list that comes next tells, with details or without.
pub(crate) fn read_dependencies<'a>(
    alloc: Global,
    reader: &mut Reader<'a>,
    details: Details,
) -> Option<Vec<Declared<'a>>>
    ensures { IfSome result (λ declared. (told : Json)
        × (value 125 reader.old ≡ Some (told, reader.new)) × IsListOf (IsDeclared details) told declared.items) }
{
    let Some(Token::BeginArray) = reader.next() else {
        return None;
    };
    let mut declared = Vec::new(alloc);
    let mut values = [
        Value::Null,
        Value::Null,
        Value::Null,
        Value::Null,
        Value::Null,
        Value::Null,
        Value::Null,
        Value::Null,
        Value::Null,
        Value::Null,
        Value::Null,
    ];
    while !reader.take_end_array() {
        let dependency = read_dependency(&mut values, alloc, reader, details)?;
        declared.push(dependency).ok()?;
    }
    declared.shrink_to_fit();
    Some(declared)
}

/// The names of the optional dependencies in the manifest, in their order, each once.
pub(crate) fn optional_names(
    alloc: Global,
    declared: &[Declared<'_>],
) -> Result<IndexSet<String>, AllocError>
    ensures { IfOk result (NamesOptional declared.now) }
{
    let mut names = IndexSet::new(alloc);
    for dependency in declared {
        if dependency.optional {
            names.insert(String::from_str(alloc, dependency.dep_name())?)?;
        }
    }
    Ok(names)
}
