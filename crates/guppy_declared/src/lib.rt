//! What the members of a workspace declare of each other, read from the JSON that `cargo metadata` prints.
//!
//! Cargo resolves a dependency on a member to nothing where the member has no library, or where the dependency is
//! optional and no feature switches it on. No link tells of it then, and yet `cargo publish` wants that member in the
//! registry first.
#![tactic(auto)]

ghost use Rattle.std.specs.Prelude.{◌≡◌, ◌≢◌, ◌↔◌, ◌⊎◌, ◌++◌, ℕ, List, [], map, codes, Some, None, Contains, IfOk, OnOk, IsTrue, IsSomeAnd, MatchOption};
ghost use Rattle.std.specs.Option.{option_copied};
ghost use Rattle.json.specs.Json.{Json, array, string, document};
ghost use Rattle.json.specs.Value.{items_of, value_view};
ghost use Rattle.guppy_declared.specs.Declares.{text_in, listed, items_in, HasItem, AsksForPath, LiesIn, IsMember, Declares};
ghost use Rattle.guppy_declared.specs.Grown.{IsGrown};
ghost use Rattle.guppy_declared.specs.Parts.{IsMemberAt, IsPairAt, IsPairAskedBy, IsPairOf};
ghost use Rattle.guppy_declared.specs.Shown.{member_shown, pair_shown};

use json::{Error, Scratch, Value};
use std::alloc::{AllocError, Global};

// A package that is a member of the workspace.
#[derive(Clone, Copy)]
struct Member<'v, 'a> {
    // Its ID.
    id: &'a str,
    // What the JSON tells of it.
    value: &'v Value<'a>,
}

// The text in the member of this name.
fn text_in<'a>(value: &Value<'a>, name: &str) -> Option<&'a str>
    ensures { option_copied result ≡ text_in name.now (value_view value.now) }
{
    value.get(name)?.as_str()
}

// The items of the list that the value is.
fn list_of<'v, 'a>(value: &'v Value<'a>) -> Option<&'v Vec<Value<'a>>>
    ensures { MatchOption result (listed (Some (value_view value.now)) ≡ [])
        (λ items. value_view value.now ≡ array (items_of (map value_view items.now.items))) }
{
    match value {
        Value::Array(items) => Some(items),
        _ => None,
    }
}

// The items of the list in the member of this name, where there is a list.
fn items_in<'v, 'a>(value: &'v Value<'a>, name: &str) -> Option<&'v Vec<Value<'a>>>
    ensures { MatchOption result (items_in name.now (value_view value.now) ≡ [])
        (λ items. map value_view items.now.items ≡ items_in name.now (value_view value.now)) }
{
    match value.get(name) {
        Some(found) => list_of(found),
        None => None,
    }
}

// Whether the value is this text.
fn is_text(value: &Value<'_>, text: &str) -> bool
    ensures { IsTrue result ↔ (value_view value.now ≡ string text.now) }
{
    value.as_str() == Some(text)
}

// Whether the text is one of these.
fn is_among(items: &[Value<'_>], text: &str) -> bool
    ensures { IsTrue result ↔ Contains (map value_view items.now) (string text.now) }
{
    for item in items {
        if is_text(item, text) {
            return true;
        }
    }
    false
}

// Whether the workspace has a member with this ID.
fn is_listed(metadata: &Value<'_>, id: &str) -> bool
    ensures { IsTrue result ↔ HasItem (codes "workspace_members") (value_view metadata.now) (string id.now) }
{
    match items_in(metadata, "workspace_members") {
        Some(items) => is_among(items.as_slice(), id),
        None => false,
    }
}

// The folder that the manifest lies in.
fn folder_of(manifest: &[u8]) -> Option<&[u8]>
    ensures { MatchOption result ((folder : List ℕ) → manifest.now ≢ folder ++ codes "/Cargo.toml")
        (λ folder. manifest.now ≡ folder.now ++ codes "/Cargo.toml") }
{
    manifest.strip_suffix(b"/Cargo.toml".as_slice())
}

// Whether the manifest lies in the folder.
fn is_manifest_in(manifest: &[u8], folder: &[u8]) -> bool
    ensures { IsTrue result ↔ (manifest.now ≡ folder.now ++ codes "/Cargo.toml") }
{
    match folder_of(manifest) {
        Some(own) => own == folder,
        None => false,
    }
}

// Whether the package's manifest lies in the folder.
fn lies_in(value: &Value<'_>, folder: &str) -> bool
    ensures { IsTrue result ↔ LiesIn (value_view value.now) folder.now }
{
    match text_in(value, "manifest_path") {
        Some(manifest) => is_manifest_in(manifest.as_bytes(), folder.as_bytes()),
        None => false,
    }
}

// The path by which the dependency is asked for in a normal or a build section.
fn path_asked<'a>(dependency: &Value<'a>) -> Option<&'a str>
    ensures { (path : List ℕ) → (option_copied result ≡ Some path) ↔ AsksForPath (value_view dependency.now) path }
{
    if text_in(dependency, "kind") == Some("dev") {
        return None;
    }
    text_in(dependency, "path")
}

// The member that the package is.
fn member_in<'v, 'a>(metadata: &Value<'a>, value: &'v Value<'a>) -> Option<Member<'v, 'a>>
    ensures { MatchOption result
        ((member : Json × List ℕ) → ¬ IsMemberAt (value_view metadata.now) (value_view value.now) member)
        (λ made. (member : Json × List ℕ) → (member ≡ member_shown made)
        ↔ IsMemberAt (value_view metadata.now) (value_view value.now) member) }
{
    let id = text_in(value, "id")?;
    if is_listed(metadata, id) {
        Some(Member { id, value })
    } else {
        None
    }
}

// The members among these packages.
fn members_among<'v, 'a>(
    alloc: Global,
    metadata: &Value<'a>,
    packages: &'v [Value<'a>],
) -> Result<Vec<Member<'v, 'a>>, AllocError>
    ensures { IfOk result (λ members. IsGrown (IsMemberAt (value_view metadata.now))
        (map value_view packages.now) [] (map member_shown members.items)) }
{
    let mut members = Vec::new(alloc);
    for value in packages {
        if let Some(member) = member_in(metadata, value) {
            members.push(member)?;
        }
    }
    Ok(members)
}

// The members.
fn members_of<'v, 'a>(
    alloc: Global,
    metadata: &'v Value<'a>,
) -> Result<Vec<Member<'v, 'a>>, AllocError>
    ensures { IfOk result (λ members. (member : Json × List ℕ) → Contains (map member_shown members.items) member
        ↔ IsMember (value_view metadata.now) member.0 member.1) }
{
    match items_in(metadata, "packages") {
        Some(packages) => members_among(alloc, metadata, packages.as_slice()),
        None => Ok(Vec::new(alloc)),
    }
}

// Adds pairs of the ID and that of each member whose manifest lies in the folder.
fn add_named(
    alloc: Global,
    pairs: &mut Vec<(String, String)>,
    from: &str,
    folder: &str,
    members: &[Member<'_, '_>],
) -> Result<(), AllocError>
    ensures { OnOk result (IsGrown (IsPairAt from.now folder.now) (map member_shown members.now)
        (map pair_shown pairs.old.items) (map pair_shown pairs.new.items)) }
{
    for member in members {
        if lies_in(member.value, folder) {
            let pair = (
                String::from_str(alloc, from)?,
                String::from_str(alloc, member.id)?,
            );
            pairs.push(pair)?;
        }
    }
    Ok(())
}

// Adds pairs of the ID and those of the members that these dependencies ask for.
fn add_asked(
    alloc: Global,
    pairs: &mut Vec<(String, String)>,
    from: &str,
    dependencies: &[Value<'_>],
    members: &[Member<'_, '_>],
) -> Result<(), AllocError>
    ensures { OnOk result (IsGrown (IsPairAskedBy (map member_shown members.now) from.now)
        (map value_view dependencies.now)
        (map pair_shown pairs.old.items) (map pair_shown pairs.new.items)) }
{
    for dependency in dependencies {
        if let Some(folder) = path_asked(dependency) {
            add_named(alloc, &mut *pairs, from, folder, members)?;
        }
    }
    Ok(())
}

// Adds the pairs of the member and those that it declares.
fn add_declared(
    alloc: Global,
    pairs: &mut Vec<(String, String)>,
    member: Member<'_, '_>,
    members: &[Member<'_, '_>],
) -> Result<(), AllocError>
    ensures { OnOk result ((pair : List ℕ × List ℕ) → Contains (map pair_shown pairs.new.items) pair
        ↔ (Contains (map pair_shown pairs.old.items) pair
        ⊎ IsPairOf (map member_shown members.now) (member_shown member.entry) pair)) }
{
    match items_in(member.value, "dependencies") {
        Some(items) => add_asked(alloc, pairs, member.id, items.as_slice(), members),
        None => Ok(()),
    }
}

// The pairs of members of which the one declares the other.
fn pairs_among(
    alloc: Global,
    members: &[Member<'_, '_>],
) -> Result<Vec<(String, String)>, AllocError>
    ensures { IfOk result (λ pairs. IsGrown (IsPairOf (map member_shown members.now)) (map member_shown members.now)
        [] (map pair_shown pairs.items)) }
{
    let mut pairs = Vec::new(alloc);
    for member in members {
        add_declared(alloc, &mut pairs, *member, members)?;
    }
    Ok(pairs)
}

/// Which members of the workspace declare which others, by their IDs: for each dependency that a member declares in a
/// normal or a build section, whether or not it is resolved, and whose path is the folder of a member's manifest, the
/// pair of the two. A pair may be there several times. Where the text is no JSON, or isn't what Cargo prints, there are
/// none.
///
/// Takes memory for the JSON as a whole, and for the pairs. Time grows with the length of the text, with the packages
/// times the members, and with the dependencies of members times the members.
pub fn declared_members(alloc: Global, json: &str) -> Result<Vec<(String, String)>, AllocError>
    ensures { IfOk result (λ pairs. (from to : List ℕ) → Contains (map pair_shown pairs.items) (from, to)
        ↔ IsSomeAnd (document json.now) (λ d. Declares d from to)) }
{
    let mut scratch = Scratch::new(alloc);
    match Value::parse(alloc, json, &mut scratch) {
        Ok(metadata) => {
            let members = members_of(alloc, &metadata)?;
            pairs_among(alloc, members.as_slice())
        }
        Err(Error::Invalid) => Ok(Vec::new(alloc)),
        Err(_) => Err(AllocError),
    }
}
