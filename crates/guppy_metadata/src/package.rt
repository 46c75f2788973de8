//! Packages.
ghost use Rattle.std.specs.Prelude.{◌≡◌, ◌++◌, ◌∷◌, [], Some, IfOk, IfErr, OnOk, MatchResult, map, string_bytes, codes};
ghost use Rattle.std.specs.List.{AllZip};
ghost use Rattle.std.specs.Option.{option_copied};
ghost use Rattle.json.specs.Json.{Json, string};
ghost use Rattle.json.specs.Find.{get};
ghost use Rattle.json.specs.Value.{value_view};
ghost use Rattle.guppy_data.specs.Utf8Path.{path_text};
ghost use Rattle.guppy_metadata.specs.Dependency.{NamesOptional};
ghost use Rattle.guppy_metadata.specs.Fault.{NoneIs, IsRead};
ghost use Rattle.guppy_metadata.specs.Members.{data_of, is_among, is_in_set, IsText};
ghost use Rattle.guppy_metadata.specs.Package.{IsFrom, HasPlainFields, HasIdentity, HasSummary, HasDescription, AreNamedFeatures, HasCargoFields, HasNoDetails, HasDetails, IsParsedPackage, IsRecordOf, IsPublishable, IsRustVersion, AreAskedTargets, IsLibrary, AreDeclared, AreParsedPackages, AreAlike, ArePositions, dots_in, zeros_behind, whole_version};

use crate::declared::{declared_dependencies, optional_names};
use crate::fault::Misfit;
use crate::feature::named_features;
use crate::object::{Object, optional_copy, version_of};
use crate::path::folder_from;
use crate::target::{build_targets, first_library};
use crate::types::{Declared, Package};
use crate::workspace::set_of;
use guppy_data::{
    BuildTargetRecord, Details, NamedFeatureDep, PackageId, PackagePublishRecord, PackageRecord,
    PackageSourceRecord, Utf8Path, Utf8PathBuf,
};
use indexmap::{IndexMap, IndexSet};
use json::Value;
use semver::Version;
use std::alloc::{AllocError, Global};

fn optional_path(json: Object<'_, '_>, name: &str) -> Result<Option<Utf8PathBuf>, Misfit>
    ensures { IsRead (IsText name.now (data_of json.entry)) result }
{
    match json.optional_copied_text(name)? {
        Some(path) => Ok(Some(Utf8PathBuf::new(path))),
        None => Ok(None),
    }
}

// Fills in what else is told of a package for people.
fn describe(made: &mut PackageRecord, json: Object<'_, '_>) -> Result<(), Misfit>
    ensures described { OnOk result (HasDescription (data_of json.entry) made.new) }
    ensures refused { IfErr result (NoneIs (HasDescription (data_of json.entry))) }
    ensures targets { made.new.build_targets ≡ made.old.build_targets }
    ensures named { (d : Json) → HasPlainFields d made.old → HasPlainFields d made.new }
{
    made.authors = json.copied_texts("authors")?;
    made.license_file = optional_path(json, "license_file")?;
    made.categories = json.copied_texts("categories")?;
    made.keywords = json.copied_texts("keywords")?;
    made.readme = optional_path(json, "readme")?;
    made.homepage = json.optional_copied_text("homepage")?;
    made.documentation = json.optional_copied_text("documentation")?;
    Ok(())
}

fn publish_of(json: Object<'_, '_>) -> Result<PackagePublishRecord, Misfit>
    ensures { IsRead (IsPublishable (data_of json.entry)) result }
{
    match json.optional("publish") {
        Some(_) => {
            let registries = json.copied_texts("publish")?;
            Ok(PackagePublishRecord::Registries(registries))
        }
        None => Ok(PackagePublishRecord::Unrestricted),
    }
}

// How many dots the text has.
fn dots_in(text: &[u8]) -> usize
    ensures { result ≡ dots_in text.now }
{
    let mut count = 0;
    for byte in text {
        if *byte == b'.' {
            count += 1;
        }
    }
    count
}

// As many zeros as a version with so many dots leaves out.
fn zeros_behind(dots: usize) -> &'static str
    ensures { result.now ≡ zeros_behind dots }
{
    match dots {
        0 => ".0.0",
        1 => ".0",
        _ => "",
    }
}

// The text of a version with zeros in place of the numbers that it leaves out.
fn whole_version(alloc: Global, text: &str) -> Result<String, AllocError>
    ensures { IfOk result (λ whole. string_bytes whole ≡ whole_version text.now) }
{
    let mut whole = String::from_str(alloc, text)?;
    whole.push_str(zeros_behind(dots_in(text.as_bytes())))?;
    Ok(whole)
}

fn rust_version(json: Object<'_, '_>) -> Result<Option<Version>, Misfit>
    ensures { IsRead (IsRustVersion (data_of json.entry)) result }
{
    let Some(text) = json.optional_text("rust_version")? else {
        return Ok(None);
    };
    let whole = whole_version(json.alloc, text)?;
    let version = version_of(json.alloc, "rust_version", whole.as_str())?;
    Ok(Some(version))
}

// The named features of a package: the members of the object `features`.
fn features_of(json: Object<'_, '_>) -> Result<IndexMap<String, Vec<NamedFeatureDep>>, Misfit>
    ensures { MatchResult result (λ named. AreNamedFeatures (data_of json.entry) named.entries)
        (NoneIs (AreNamedFeatures (data_of json.entry))) }
{
    let value = json.required("features")?;
    match named_features(json.alloc, value) {
        Ok(named) => Ok(named),
        Err(fault) => Err(fault.within(json.alloc, "features")),
    }
}

// Fills in what else is told of a package for Cargo.
fn fill(
    made: &mut PackageRecord,
    json: Object<'_, '_>,
    declared: &[Declared<'_>],
) -> Result<(), Misfit>
    ensures filled { OnOk result (HasCargoFields (data_of json.entry) made.new) }
    ensures refused { IfErr result (NoneIs (HasCargoFields (data_of json.entry))) }
    ensures optional { OnOk result (NamesOptional declared.now made.new.optional_deps) }
    ensures targets { made.new.build_targets ≡ made.old.build_targets }
    ensures named { (d : Json) → HasPlainFields d made.old → HasPlainFields d made.new }
    ensures described { (d : Json) → HasDescription d made.old → HasDescription d made.new }
{
    made.metadata_table = json.table("metadata")?;
    made.links = json.optional_copied_text("links")?;
    made.default_run = json.optional_copied_text("default_run")?;
    made.rust_version = rust_version(json)?;
    made.named_features = features_of(json)?;
    made.optional_deps = optional_names(json.alloc, declared)?;
    Ok(())
}

// The record of the package with the texts that each has.
fn known_record(json: Object<'_, '_>) -> Result<PackageRecord, Misfit>
    ensures known { IsRead (HasIdentity (data_of json.entry)) result }
    ensures plain { IfOk result HasNoDetails }
{
    let alloc = json.alloc;
    let version = version_of(alloc, "version", json.text("version")?)?;
    let id = json.copied_text("id")?;
    let name = json.copied_text("name")?;
    let manifest_path = json.copied_text("manifest_path")?;
    let edition = json.copied_text("edition")?;
    Ok(PackageRecord::new(
        alloc,
        PackageId::new(id),
        name,
        version,
        PackageSourceRecord::Path(Utf8PathBuf::new(String::new(alloc))),
        Utf8PathBuf::new(manifest_path),
        edition,
    ))
}

// Fills in what of a package is read with details or without.
fn show(made: &mut PackageRecord, json: Object<'_, '_>) -> Result<(), Misfit>
    ensures shown { OnOk result (HasSummary (data_of json.entry) made.new) }
    ensures refused { IfErr result (NoneIs (HasSummary (data_of json.entry))) }
    ensures known { (d : Json) → HasIdentity d made.old → HasIdentity d made.new }
    ensures plain { HasNoDetails made.old → HasNoDetails made.new }
{
    made.description = json.optional_copied_text("description")?;
    made.license = json.optional_copied_text("license")?;
    made.repository = json.optional_copied_text("repository")?;
    made.publish = publish_of(json)?;
    Ok(())
}

// The build targets that are told of a package, or none of them where details are left out.
fn asked_targets(json: Object<'_, '_>, details: Details) -> Result<Vec<BuildTargetRecord>, Misfit>
    ensures { MatchResult result (λ targets. AreAskedTargets details (data_of json.entry) targets.items)
        (NoneIs (AreAskedTargets details (data_of json.entry))) }
{
    match details {
        Details::With => build_targets(json),
        Details::Without => Ok(Vec::new(json.alloc)),
    }
}

// Fills in the build targets, and the details of a package with these dependencies where they are read.
fn add_details(
    made: &mut PackageRecord,
    json: Object<'_, '_>,
    declared: &[Declared<'_>],
    details: Details,
) -> Result<(), Misfit>
    ensures targets { OnOk result (AreAskedTargets details (data_of json.entry) made.new.build_targets.items) }
    ensures detailed { OnOk result (HasNoDetails made.old → HasDetails details (data_of json.entry) made.new) }
    ensures refused { IfErr result (NoneIs (λ (r : PackageRecord). AreAskedTargets details (data_of json.entry) r.build_targets.items
        × HasDetails details (data_of json.entry) r)) }
    ensures optional { OnOk result (details ≡ Details.With → NamesOptional declared.now made.new.optional_deps) }
    ensures named { (d : Json) → HasPlainFields d made.old → HasPlainFields d made.new }
{
    made.build_targets = asked_targets(json, details)?;
    match details {
        Details::With => {
            describe(made, json)?;
            fill(made, json, declared)
        }
        Details::Without => Ok(()),
    }
}

/// Adds the package that an object tells with this ID, source, library and dependencies, with details or without. Its
/// record is filled in its place.
pub(crate) fn add_package<'a>(
    packages: &mut Vec<Package<'a>>,
    json: Object<'_, 'a>,
    id: &'a str,
    source: Option<&'a str>,
    library: Option<&'a str>,
    declared: Vec<Declared<'a>>,
    details: Details,
) -> Result<(), Misfit>
    ensures added { OnOk result ((p : Package) × (packages.new.items ≡ packages.old.items ++ p ∷ [])
        × ((d : Json) → AreAlike details (data_of json.entry) d
        → get (codes "id") (data_of json.entry) ≡ Some (string id.now)
        → IsText (codes "source") (data_of json.entry) (option_copied source.entry)
        → IsLibrary d (option_copied library.entry) → AreDeclared details d declared.entry.items → IsParsedPackage details d p)) }
    ensures refused { IfErr result (NoneIs (λ (r : PackageRecord). HasPlainFields (data_of json.entry) r
        × AreAskedTargets details (data_of json.entry) r.build_targets.items × HasDetails details (data_of json.entry) r)) }
{
    let library = optional_copy(json.alloc, library)?;
    let record = known_record(json)?;
    let package = packages.push_mut(Package {
        id,
        source,
        library,
        declared,
        record,
    })?;
    show(&mut package.record, json)?;
    add_details(
        &mut package.record,
        json,
        package.declared.as_slice(),
        details,
    )
}

/// Adds the package that an object tells, with details or without.
pub(crate) fn package_of<'a>(
    packages: &mut Vec<Package<'a>>,
    json: Object<'_, 'a>,
    details: Details,
) -> Result<(), Misfit>
    ensures added { OnOk result ((p : Package) × (packages.new.items ≡ packages.old.items ++ p ∷ [])
        × IsParsedPackage details (data_of json.entry) p) }
    ensures refused { IfErr result (NoneIs (IsParsedPackage details (data_of json.entry))) }
{
    let id = json.text("id")?;
    let source = json.optional_text("source")?;
    let declared = declared_dependencies(json, details)?;
    let library = first_library(json)?;
    add_package(packages, json, id, source, library, declared, details)
}

/// Adds the package that the item of the list `packages` at this index is, with details or without.
pub(crate) fn package_at<'a>(
    packages: &mut Vec<Package<'a>>,
    alloc: Global,
    index: usize,
    item: &Value<'a>,
    details: Details,
) -> Result<(), Misfit>
    ensures added { OnOk result ((p : Package) × (packages.new.items ≡ packages.old.items ++ p ∷ [])
        × IsParsedPackage details (value_view item.now) p) }
    ensures refused { IfErr result (NoneIs (IsParsedPackage details (value_view item.now))) }
{
    let json = Object::of_item(alloc, "packages", index, item)?;
    match package_of(packages, json, details) {
        Ok(()) => Ok(()),
        Err(fault) => Err(fault.within_item(alloc, "packages", index)),
    }
}

/// The packages that the JSON tells, with details or without: the items of the list `packages`.
pub(crate) fn packages_of<'a>(
    metadata: Object<'_, 'a>,
    details: Details,
) -> Result<Vec<Package<'a>>, Misfit>
    ensures { MatchResult result (λ packages. AreParsedPackages details (data_of metadata.entry) packages.items)
        (NoneIs (AreParsedPackages details (data_of metadata.entry))) }
{
    let alloc = metadata.alloc;
    let items = metadata.list("packages")?;
    let mut packages = Vec::with_capacity(alloc, items.len())?;
    for (index, item) in items.iter().enumerate() {
        package_at(&mut packages, alloc, index, item, details)?;
    }
    Ok(packages)
}

/// The positions of the packages, each behind a copy of its ID: the copies lie together, and the IDs far apart in the
/// JSON.
pub(crate) fn positions_of(
    alloc: Global,
    packages: &[Package<'_>],
) -> Result<IndexMap<String, usize>, AllocError>
    ensures { IfOk result (ArePositions packages.now) }
{
    let mut positions = IndexMap::with_capacity(alloc, packages.len())?;
    for (position, package) in packages.iter().enumerate() {
        positions.insert(String::from_str(alloc, package.id)?, position)?;
    }
    Ok(positions)
}

// Where a package comes from.
fn source_of(
    alloc: Global,
    is_member: bool,
    told: Option<&str>,
    manifest_path: Utf8Path<'_>,
    root: Utf8Path<'_>,
) -> Result<PackageSourceRecord, AllocError>
    ensures { IfOk result (IsFrom (path_text root.entry) (path_text manifest_path.entry) is_member (option_copied told.entry)) }
{
    if is_member {
        let folder = folder_from(alloc, manifest_path, root)?;
        return Ok(PackageSourceRecord::Workspace(folder));
    }
    match told {
        Some(source) => Ok(PackageSourceRecord::External(String::from_str(alloc, source)?)),
        None => {
            let folder = folder_from(alloc, manifest_path, root)?;
            Ok(PackageSourceRecord::Path(folder))
        }
    }
}

// Adds the record of a package of a workspace with these members.
fn add_record(
    records: &mut Vec<PackageRecord>,
    alloc: Global,
    package: Package<'_>,
    members: &IndexSet<&str>,
    root: Utf8Path<'_>,
) -> Result<(), AllocError>
    ensures { OnOk result ((r : PackageRecord) × (records.new.items ≡ records.old.items ++ r ∷ [])
        × IsRecordOf (path_text root.entry) (is_in_set members.now) «package».entry r) }
{
    let is_member = members.contains(package.id);
    let told = package.source;
    let record = records.push_mut(package.record)?;
    record.source = source_of(alloc, is_member, told, record.manifest_path.as_path(), root)?;
    Ok(())
}

// The records of the packages of a workspace with these members at this root.
fn records_of(
    alloc: Global,
    packages: Vec<Package<'_>>,
    members: &IndexSet<&str>,
    root: Utf8Path<'_>,
) -> Result<Vec<PackageRecord>, AllocError>
    ensures { IfOk result
        (λ records. AllZip (IsRecordOf (path_text root.entry) (is_in_set members.now)) packages.entry.items records.items) }
{
    let mut records = Vec::with_capacity(alloc, packages.len())?;
    for package in packages {
        add_record(&mut records, alloc, package, members, root)?;
    }
    Ok(records)
}

/// The records of the packages of a workspace with these members at this root.
pub(crate) fn package_records(
    alloc: Global,
    packages: Vec<Package<'_>>,
    members: &[&str],
    root: Utf8Path<'_>,
) -> Result<Vec<PackageRecord>, AllocError>
    ensures { IfOk result
        (λ records. AllZip (IsRecordOf (path_text root.entry) (is_among (map (λ id. id.now) members.now))) packages.entry.items records.items) }
{
    let known = set_of(alloc, members)?;
    records_of(alloc, packages, &known, root)
}
