//! A package, read member by member.
ghost use Rattle.std.specs.Prelude.{◌≡◌, ◌++◌, ◌∷◌, [], true, Some, IfSome, OnSome};
ghost use Rattle.std.specs.Option.{option_copied};
ghost use Rattle.json.specs.Json.{Json, value};
ghost use Rattle.guppy_metadata.specs.Members.{data_of};
ghost use Rattle.guppy_metadata.specs.Package.{IsParsedPackage, IsLibrary, AreAlike, is_asked};
ghost use Rattle.guppy_metadata.specs.Parts.{TellsParts};
ghost use Rattle.guppy_metadata.specs.Told.{IsWith};

use crate::asked::is_one_of;
use crate::declared::read_dependencies;
use crate::object::Object;
use crate::package::add_package;
use crate::target::{first_library, read_library};
use crate::types::{Package, Parts};
use guppy_data::Details;
use json::{MAX_DEPTH, Reader, Token, Value};
use std::alloc::Global;

// The names of the members that are asked for without details, but for the dependencies and the build targets.
const PLAIN: [&str; 10] = [
    "id",
    "name",
    "version",
    "source",
    "manifest_path",
    "edition",
    "description",
    "license",
    "repository",
    "publish",
];

// Whether the member of this name is asked for: without details, whether it is none.
fn is_asked(name: &str, details: Details) -> bool
    ensures { result ≡ is_asked details name.now }
{
    match details {
        Details::With => true,
        Details::Without => is_one_of(&PLAIN, name),
    }
}

// Reads the member of this name, whose value comes next.
fn read_member<'a>(
    parts: &mut Parts<'a>,
    alloc: Global,
    reader: &mut Reader<'a>,
    name: &'a str,
    details: Details,
) -> Option<()>
    ensures { OnSome result ((told : Json) × (value 125 reader.old ≡ Some (told, reader.new))
        × ((d e : Json) → IsWith name.now told d e → TellsParts details d parts.old → TellsParts details e parts.new)) }
{
    match (name, details) {
        ("dependencies", _) => {
            parts.declared = Some(read_dependencies(alloc, reader, details)?);
        }
        ("targets", Details::Without) => {
            parts.library = read_library(alloc, reader)?;
            parts.has_targets = true;
        }
        _ if is_asked(name, details) => {
            let value = Value::read(alloc, reader, MAX_DEPTH - 3).ok()?;
            parts.others.push((name, value)).ok()?;
        }
        _ => reader.skip_value(MAX_DEPTH - 3).ok()?,
    }
    Some(())
}

// What the object that comes next tells, with details or without.
fn read_parts<'a>(alloc: Global, reader: &mut Reader<'a>, details: Details) -> Option<Parts<'a>>
    ensures { IfSome result (λ parts. (told : Json)
        × (value 126 reader.old ≡ Some (told, reader.new)) × TellsParts details told parts) }
{
    let Some(Token::BeginObject) = reader.next() else {
        return None;
    };
    let mut parts = Parts {
        declared: None,
        has_targets: false,
        library: None,
        others: Vec::new(alloc),
    };
    while let Some(name) = reader.next_key().ok()? {
        read_member(&mut parts, alloc, reader, name, details)?;
    }
    Some(parts)
}

// The name of the library: with details of the targets among the members, else the one that was read.
fn library_told<'a>(
    json: Object<'_, 'a>,
    library: Option<&'a str>,
    has_targets: bool,
    details: Details,
) -> Option<Option<&'a str>>
    ensures { IfSome result (λ name. (d : Json) → AreAlike details (data_of json.entry) d
        → (details ≡ Details.Without → has_targets ≡ true → IsLibrary d (option_copied library.entry)) → IsLibrary d (option_copied name)) }
{
    match details {
        Details::With => first_library(json).ok(),
        Details::Without => has_targets.then_some(library),
    }
}

// Adds the package that is told, where nothing is missing or wrong.
fn package_told<'a>(
    packages: &mut Vec<Package<'a>>,
    alloc: Global,
    parts: Parts<'a>,
    details: Details,
) -> Option<()>
    ensures { OnSome result ((p : Package) × (packages.new.items ≡ packages.old.items ++ p ∷ [])
        × ((d : Json) → TellsParts details d parts.entry → IsParsedPackage details d p)) }
{
    let Parts {
        declared,
        has_targets,
        library,
        others,
    } = parts;
    let declared = declared?;
    let value = Value::Object(others);
    let json = Object {
        alloc,
        value: &value,
    };
    let library = library_told(json, library, has_targets, details)?;
    let id = json.text("id").ok()?;
    let source = json.optional_text("source").ok()?;
    add_package(packages, json, id, source, library, declared, details).ok()
}

/// Adds the package that the object that comes next tells, with details or without.
pub(crate) fn read_package<'a>(
    packages: &mut Vec<Package<'a>>,
    alloc: Global,
    reader: &mut Reader<'a>,
    details: Details,
) -> Option<()>
    ensures { OnSome result ((told : Json) × (value 126 reader.old ≡ Some (told, reader.new))
        × (p : Package) × (packages.new.items ≡ packages.old.items ++ p ∷ []) × IsParsedPackage details told p) }
{
    let parts = read_parts(alloc, reader, details)?;
    package_told(packages, alloc, parts, details)
}
