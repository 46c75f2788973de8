//! Build targets.
ghost use Rattle.std.specs.Prelude.{◌≡◌, [], ◌∷◌, ◌++◌, ℕ, List, Some, IfSome, MatchResult, map, option_map, string_bytes, codes};
ghost use Rattle.std.specs.Option.{option_copied};
ghost use Rattle.json.specs.Json.{Json, value};
ghost use Rattle.guppy_metadata.specs.Fault.{NoneIs, IsRead};
ghost use Rattle.guppy_metadata.specs.Members.{data_of, is_among, AreTexts};
ghost use Rattle.guppy_metadata.specs.Package.{AreTargets, IsLibrary};
ghost use Rattle.guppy_metadata.specs.Target.{IsTargetId, IsLibraryOf, IsTargetKind, IsTarget, is_library_kind, IsLibraryName, IsFirstLibrary, IsLibraryAmong};

use crate::asked::is_one_of;
use crate::fault::Misfit;
use crate::object::Object;
use crate::read::read_object;
use guppy_data::{
    BuildTargetKindRecord, BuildTargetRecord, OwnedBuildTargetId, SortedSet, Utf8PathBuf,
};
use json::{MAX_DEPTH, Reader, Token, Value};
use std::alloc::Global;

// What a target of this kind and name is, and its name where it is a library or build script.
fn id_of(kind: &str, name: String) -> (OwnedBuildTargetId, Option<String>)
    ensures { IsTargetId kind.now (string_bytes name) result.0 (option_map string_bytes result.1) }
{
    match kind {
        "custom-build" => (OwnedBuildTargetId::BuildScript, Some(name)),
        "bin" => (OwnedBuildTargetId::Binary(name), None),
        "example" => (OwnedBuildTargetId::Example(name), None),
        "test" => (OwnedBuildTargetId::Test(name), None),
        "bench" => (OwnedBuildTargetId::Benchmark(name), None),
        _ => (OwnedBuildTargetId::Library, Some(name)),
    }
}

// Whether the text is one of these.
fn is_among(texts: &[String], wanted: &str) -> bool
    ensures { result ≡ is_among (map string_bytes texts.now) wanted.now }
{
    for text in texts {
        if wanted == text.as_str() {
            return true;
        }
    }
    false
}

// A library of these crate types.
fn library_of(crate_types: Vec<String>) -> BuildTargetKindRecord
    ensures { IsLibraryOf (map string_bytes crate_types.items) result }
{
    BuildTargetKindRecord::LibraryOrExample(SortedSet::new(crate_types))
}

// What is made of a target, as one of these crate types.
fn kind_of(id: &OwnedBuildTargetId, crate_types: Vec<String>) -> BuildTargetKindRecord
    ensures { IsTargetKind id.now (map string_bytes crate_types.items) result }
{
    match id {
        OwnedBuildTargetId::Library => {
            if is_among(crate_types.as_slice(), "proc-macro") {
                BuildTargetKindRecord::ProcMacro
            } else {
                library_of(crate_types)
            }
        }
        OwnedBuildTargetId::Example(_) => library_of(crate_types),
        _ => BuildTargetKindRecord::Binary,
    }
}

// The first of the target's kinds; a library has one for each of its crate types.
fn first_kind<'a>(target: Object<'_, 'a>) -> Result<&'a str, Misfit>
    ensures { MatchResult result (λ kind. (others : List (List ℕ))
        × AreTexts (codes "kind") (data_of target.entry) (kind.now ∷ others))
        (NoneIs (λ (kinds : List ℕ × List (List ℕ)). AreTexts (codes "kind") (data_of target.entry) (kinds.0 ∷ kinds.1))) }
{
    match target.first_text("kind")? {
        Some(kind) => Ok(kind),
        None => Err(Misfit::missing(target.alloc, "kind[0]")),
    }
}

fn build_target(target: Object<'_, '_>) -> Result<BuildTargetRecord, Misfit>
    ensures { IsRead (IsTarget (data_of target.entry)) result }
{
    let name = target.copied_text("name")?;
    let kind = first_kind(target)?;
    let doc_by_default = target.boolean("doc", true)?;
    let doctest_by_default = target.boolean("doctest", true)?;
    let test_by_default = target.boolean("test", true)?;
    let crate_types = target.copied_texts("crate_types")?;
    let required_features = target.copied_texts("required-features")?;
    let path = target.copied_text("src_path")?;
    let edition = target.copied_text("edition")?;
    let (id, lib_name) = id_of(kind, name);
    let kind = kind_of(&id, crate_types);
    Ok(BuildTargetRecord {
        id,
        kind,
        lib_name,
        required_features,
        path: Utf8PathBuf::new(path),
        edition,
        doc_by_default,
        doctest_by_default,
        test_by_default,
    })
}

/// The build targets of a package: the items of the list `targets`.
pub(crate) fn build_targets(json: Object<'_, '_>) -> Result<Vec<BuildTargetRecord>, Misfit>
    ensures { MatchResult result (λ targets. AreTargets (data_of json.entry) targets.items)
        (NoneIs (AreTargets (data_of json.entry))) }
{
    let alloc = json.alloc;
    let items = json.list("targets")?;
    let mut targets = Vec::with_capacity(alloc, items.len())?;
    for (index, item) in items.iter().enumerate() {
        let target = Object::of_item(alloc, "targets", index, item)?;
        match build_target(target) {
            Ok(target) => targets.push(target)?,
            Err(fault) => return Err(fault.within_item(alloc, "targets", index)),
        }
    }
    Ok(targets)
}

// The kinds of targets that are no libraries.
const OTHER_KINDS: [&str; 5] = ["custom-build", "bin", "example", "test", "bench"];

// Whether a target of this kind is a library.
fn is_library_kind(kind: &str) -> bool
    ensures { result ≡ is_library_kind kind.now }
{
    !is_one_of(&OTHER_KINDS, kind)
}

// The name of a target that is a library.
fn library_name<'a>(target: Object<'_, 'a>) -> Result<Option<&'a str>, Misfit>
    ensures { MatchResult result (λ name. IsLibraryName (data_of target.entry) (option_copied name))
        (NoneIs (IsLibraryName (data_of target.entry))) }
{
    let kind = first_kind(target)?;
    if is_library_kind(kind) {
        Ok(Some(target.text("name")?))
    } else {
        Ok(None)
    }
}

/// The name of a package's library, where it has one: the first library among the items of the list `targets`.
pub(crate) fn first_library<'a>(json: Object<'_, 'a>) -> Result<Option<&'a str>, Misfit>
    ensures { MatchResult result (λ name. IsLibrary (data_of json.entry) (option_copied name))
        (NoneIs (IsLibrary (data_of json.entry))) }
{
    let alloc = json.alloc;
    let items = json.list("targets")?;
    for (index, item) in items.iter().enumerate() {
        let target = Object::of_item(alloc, "targets", index, item)?;
        match library_name(target) {
            Ok(None) => {}
            Ok(Some(name)) => return Ok(Some(name)),
            Err(fault) => return Err(fault.within_item(alloc, "targets", index)),
        }
    }
    Ok(None)
}

// The name of the library among the targets so far and the one that comes next, which is skipped where there is one.
fn read_target<'a>(
    library: Option<&'a str>,
    item: &mut Value<'a>,
    alloc: Global,
    reader: &mut Reader<'a>,
) -> Option<Option<&'a str>>
    ensures { IfSome result (λ name. (told : Json) × (value 124 reader.old ≡ Some (told, reader.new))
        × ((targets : List Json) → IsFirstLibrary targets (option_copied library.entry)
        → IsFirstLibrary (targets ++ told ∷ []) (option_copied name))) }
{
    if library.is_some() {
        reader.skip_value(MAX_DEPTH - 4).ok()?;
        return Some(library);
    }
    read_object(item, alloc, reader, MAX_DEPTH - 4)?;
    library_name(Object { alloc, value: item }).ok()
}

/// The name of the library among the targets of the list that comes next, where there is one.
pub(crate) fn read_library<'a>(alloc: Global, reader: &mut Reader<'a>) -> Option<Option<&'a str>>
    ensures { IfSome result (λ name. (told : Json)
        × (value 125 reader.old ≡ Some (told, reader.new)) × IsLibraryAmong told (option_copied name)) }
{
    let Some(Token::BeginArray) = reader.next() else {
        return None;
    };
    let mut library = None;
    let mut item = Value::Null;
    while !reader.take_end_array() {
        library = read_target(library, &mut item, alloc, reader)?;
    }
    Some(library)
}
