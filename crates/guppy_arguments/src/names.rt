//! What packages are called: by the name, where that means one package alone, else by name and version, where
//! these do, and else by the ID.
ghost use Rattle.std.specs.Prelude.{◌≡◌, [], ◌∷◌, ◌++◌, List, ℕ, string_bytes, IfOk, OnOk, if◌then◌else◌};
ghost use Rattle.std.specs.Option.{option_map_or};
ghost use Rattle.indexmap.specs.IndexMap.{get_by_text};
ghost use Rattle.std.specs.Str.{bytes_eq};
ghost use Rattle.guppy_data.specs.declared.records.PackageRecord.{PackageRecord};
ghost use Rattle.guppy_command.specs.Ids.{full_name_of, is_only};
ghost use Rattle.guppy_arguments.specs.Names.{name_of, called, meant, printed, text, AreIds, AreCalled, AreTexts, AreNames};

use guppy_data::{PackageId, PackageRecord};
use indexmap::{IndexMap, IndexSet};
use std::alloc::{AllocError, Global};

/// What packages are called.
#[derive(Drop)]
pub struct Names {
    // The IDs of the packages with each name, and with each name and version.
    called: IndexMap<String, Vec<PackageId>>,
    // What is printed for the package with each ID.
    texts: IndexMap<String, String>,
}

// Adds the ID to those of the packages that are called so.
fn add_called(
    ids_by_text: &mut IndexMap<String, Vec<PackageId>>,
    alloc: Global,
    word: String,
    id: PackageId,
) -> Result<(), AllocError>
    ensures { OnOk result ((other : List ℕ)
        → option_map_or (λ ids. ids.items) (get_by_text ids_by_text.new other) []
        ≡ option_map_or (λ ids. ids.items) (get_by_text ids_by_text.old other) []
        ++ (if bytes_eq other (string_bytes word) then id ∷ [] else [])) }
{
    let ids = ids_by_text.entry(word)?.or_insert(Vec::new(alloc));
    Ok(ids.push(id)?)
}

// `name@version`.
fn full_name(alloc: Global, package: &PackageRecord) -> Result<String, AllocError>
    ensures { IfOk result (λ name. string_bytes name ≡ full_name_of «package».now) }
{
    format!(in alloc; "{}@{}", package.name, package.version)
}

// Adds the package's ID to those with its name, and to those with its name and version.
fn add_package(
    ids_by_text: &mut IndexMap<String, Vec<PackageId>>,
    alloc: Global,
    package: &PackageRecord,
) -> Result<(), AllocError>
    ensures { OnOk result ((other : List ℕ)
        → option_map_or (λ ids. ids.items) (get_by_text ids_by_text.new other) []
        ≡ option_map_or (λ ids. ids.items) (get_by_text ids_by_text.old other) []
        ++ (if bytes_eq other (name_of «package».now) then «package».now.id ∷ [] else [])
        ++ (if bytes_eq other (full_name_of «package».now) then «package».now.id ∷ [] else [])) }
{
    let name = package.name.clone()?;
    add_called(ids_by_text, alloc, name, package.id.clone()?)?;
    let full = full_name(alloc, package)?;
    add_called(ids_by_text, alloc, full, package.id.clone()?)
}

// The IDs of the packages that are called by each text.
fn called_by_text(
    alloc: Global,
    packages: &[PackageRecord],
) -> Result<IndexMap<String, Vec<PackageId>>, AllocError>
    ensures { IfOk result (AreCalled packages.now) }
{
    let mut ids_by_text = IndexMap::new(alloc);
    for package in packages {
        add_package(&mut ids_by_text, alloc, package)?;
    }
    Ok(ids_by_text)
}

// The IDs of the packages.
fn ids_of<'a>(alloc: Global, packages: &'a [PackageRecord]) -> Result<IndexSet<&'a str>, AllocError>
    ensures { IfOk result (AreIds packages.now) }
{
    let mut ids = IndexSet::with_capacity(alloc, packages.len())?;
    for package in packages {
        ids.insert(package.id.repr())?;
    }
    Ok(ids)
}

// Whether the ID is the only one of these.
fn is_only(id: &PackageId, ids: &[PackageId]) -> bool
    ensures { result ≡ is_only id.now ids.now }
{
    match ids {
        [other] => id == other,
        _ => false,
    }
}

// Whether the word means the package with this ID alone.
fn means_alone(
    ids: &IndexSet<&str>,
    ids_by_text: &IndexMap<String, Vec<PackageId>>,
    word: &str,
    id: &PackageId,
) -> bool
    ensures { (packages : List PackageRecord) → AreIds packages ids.now
        → AreCalled packages ids_by_text.now → result ≡ is_only id.now (meant packages word.now) }
{
    if ids.contains(word) {
        return id.repr() == word;
    }
    match ids_by_text.get(word) {
        Some(ids) => is_only(id, ids.as_slice()),
        None => false,
    }
}

// What is printed for the package.
fn printed(
    alloc: Global,
    ids: &IndexSet<&str>,
    ids_by_text: &IndexMap<String, Vec<PackageId>>,
    package: &PackageRecord,
) -> Result<String, AllocError>
    ensures { IfOk result (λ made. (packages : List PackageRecord) → AreIds packages ids.now
        → AreCalled packages ids_by_text.now → string_bytes made ≡ printed packages «package».now) }
{
    if means_alone(ids, ids_by_text, package.name.as_str(), &package.id) {
        return package.name.clone();
    }
    let full = full_name(alloc, package)?;
    if means_alone(ids, ids_by_text, full.as_str(), &package.id) {
        return Ok(full);
    }
    String::from_str(alloc, package.id.repr())
}

// What is printed for the first package with each ID.
fn texts_of(
    alloc: Global,
    ids: &IndexSet<&str>,
    ids_by_text: &IndexMap<String, Vec<PackageId>>,
    packages: &[PackageRecord],
) -> Result<IndexMap<String, String>, AllocError>
    ensures { IfOk result (λ texts. AreIds packages.now ids.now
        → AreCalled packages.now ids_by_text.now → AreTexts packages.now texts) }
{
    let mut texts = IndexMap::with_capacity(alloc, packages.len())?;
    for package in packages {
        let id = package.id.repr();
        if texts.contains_key(id) {
            continue;
        }
        let text = printed(alloc, ids, ids_by_text, package)?;
        texts.insert(String::from_str(alloc, id)?, text)?;
    }
    Ok(texts)
}

impl Names {
    /// What these packages are called. Takes time in their number, as far as hashes of their texts differ.
    pub fn of(alloc: Global, packages: &[PackageRecord]) -> Result<Names, AllocError>
        ensures { IfOk result (λ names. AreNames names packages.now) }
    {
        let called = called_by_text(alloc, packages)?;
        let ids = ids_of(alloc, packages)?;
        let texts = texts_of(alloc, &ids, &called, packages)?;
        Ok(Names { called, texts })
    }

    /// The IDs of the packages that are called so, by name or as `name@version`, in their order.
    pub fn called(&self, word: &str) -> &[PackageId]
        ensures { (packages : List PackageRecord) → AreNames self.now packages
            → result.now ≡ called packages word.now }
    {
        match self.called.get(word) {
            Some(ids) => ids.as_slice(),
            None => &[],
        }
    }

    /// Whether the package with this ID is the only one that is called so, by name or as `name@version`.
    pub fn is_only_one(&self, word: &str, id: &PackageId) -> bool
        ensures { (packages : List PackageRecord) → AreNames self.now packages
            → result ≡ is_only id.now (called packages word.now) }
    {
        is_only(id, self.called(word))
    }

    /// What is printed for the package with the ID: the first of its name, `name@version` and the ID that means
    /// it alone. The ID, where no package has it.
    pub fn text_of<'a>(&'a self, id: &'a PackageId) -> &'a str
        ensures { (packages : List PackageRecord) → AreNames self.now packages
            → result.now ≡ text packages id.now }
    {
        match self.texts.get(id.repr()) {
            Some(text) => text.as_str(),
            None => id.repr(),
        }
    }
}
