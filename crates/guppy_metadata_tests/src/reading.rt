//! What is read of a text that stands here, and what is told of bad ones.

use guppy::{IntoGraph, JsonValue};
use guppy_data::{DependencyReqImpl, LinkRecord, PackageRecord};
use guppy_metadata::{MetadataFault, Records, plain_records_of, records_of};
use std::alloc::Global;
use std::fmt;
use std::process::Abort;

// The metadata of a workspace with the member `app`, whose libraries are one outside of the workspace, and
// one of a registry.
pub(super) const METADATA: &str = r#"{
"packages": [
 {"name": "app", "version": "0.3.1-pre.1", "id": "path+file:///w/app#0.3.1-pre.1", "license": "MIT",
  "license_file": "LICENSE", "description": "An app", "source": null, "dependencies": [
   {"name": "ext", "source": "registry+https://github.com/rust-lang/crates.io-index", "req": "^1",
    "kind": null, "rename": "far-ext", "optional": true, "uses_default_features": true, "features": [],
    "target": null, "registry": "https://registry"},
   {"name": "ext", "source": "registry+https://github.com/rust-lang/crates.io-index", "req": "^2",
    "kind": null, "rename": null, "optional": true, "uses_default_features": true, "features": [],
    "target": null, "registry": null},
   {"name": "lib-one", "source": null, "req": "^0.1", "kind": null, "rename": null, "optional": true,
    "uses_default_features": false, "features": ["a"], "target": null, "registry": null,
    "path": "/lib-one"},
   {"name": "lib-one", "source": null, "req": "*", "kind": "build", "rename": null, "optional": false,
    "uses_default_features": true, "features": [], "target": null, "registry": null,
    "path": "/lib-one"},
   {"name": "lib-one", "source": null, "req": "*", "kind": null, "rename": null, "optional": true,
    "uses_default_features": true, "features": ["a", "b"], "target": "cfg(windows)", "registry": null,
    "path": "/lib-one"},
   {"name": "lib-one", "source": null, "req": "*", "kind": "dev", "rename": null, "optional": false,
    "uses_default_features": true, "features": [], "target": "cfg(unix)", "registry": null,
    "path": "/lib-one"}],
  "targets": [
   {"kind": ["rlib", "cdylib"], "crate_types": ["rlib", "cdylib"], "name": "app", "src_path": "/w/app/src/lib.rs",
    "edition": "2021", "doc": true, "doctest": true, "test": true},
   {"kind": ["bin"], "crate_types": ["bin"], "name": "app", "src_path": "/w/app/src/main.rs",
    "edition": "2021", "required-features": ["slow"], "doc": true, "doctest": false, "test": true},
   {"kind": ["example"], "crate_types": ["bin"], "name": "e", "src_path": "/w/app/examples/e.rs",
    "edition": "2021", "doc": false, "doctest": false, "test": false},
   {"kind": ["test"], "crate_types": ["bin"], "name": "t", "src_path": "/w/app/tests/t.rs",
    "edition": "2021", "doc": false, "doctest": false, "test": true},
   {"kind": ["bench"], "crate_types": ["bin"], "name": "b", "src_path": "/w/app/benches/b.rs",
    "edition": "2021", "doc": false, "doctest": false, "test": false},
   {"kind": ["custom-build"], "crate_types": ["bin"], "name": "build-script-build",
    "src_path": "/w/app/build.rs", "edition": "2021", "doc": false, "doctest": false, "test": false}],
  "features": {"default": ["slow"], "slow": ["dep:lib-one", "far-ext?/std", "lib-one/a"]},
  "manifest_path": "/w/app/Cargo.toml", "metadata": {"docs": [1, "x"]}, "publish": [],
  "authors": ["A <a@b>", "B"], "categories": ["c1"], "keywords": ["k1", "k2"], "readme": "README.md",
  "repository": "r", "homepage": "h", "documentation": "d", "edition": "2021", "links": "zed",
  "default_run": "app", "rust_version": "1.70"},
 {"name": "ext", "version": "1.2.0", "id": "ext 1.2.0", "license": null, "license_file": null,
  "description": null, "source": "registry+https://github.com/rust-lang/crates.io-index",
  "dependencies": [], "targets": [
   {"kind": ["proc-macro"], "crate_types": ["proc-macro"], "name": "ext", "src_path": "/r/ext/src/lib.rs",
    "edition": "2018", "doc": true, "doctest": true, "test": true}],
  "features": {}, "manifest_path": "/r/ext/Cargo.toml", "metadata": null, "publish": null, "authors": [],
  "categories": [], "keywords": [], "readme": null, "repository": null, "homepage": null,
  "documentation": null, "edition": "2018", "links": null, "default_run": null, "rust_version": null},
 {"name": "lib-one", "version": "0.1.0", "id": "lib-one", "license": null, "license_file": null,
  "description": null, "source": null, "dependencies": [], "targets": [
   {"kind": ["lib"], "crate_types": ["lib"], "name": "one", "src_path": "/lib-one/src/lib.rs",
    "edition": "2018", "doc": true, "doctest": true, "test": true}],
  "features": {"a": [], "b": []}, "manifest_path": "/lib-one/Cargo.toml", "metadata": null,
  "publish": ["mine"], "authors": [], "categories": [], "keywords": [], "readme": null,
  "repository": null, "homepage": null, "documentation": null, "edition": "2018", "links": null,
  "default_run": null, "rust_version": "2"}],
"workspace_members": ["path+file:///w/app#0.3.1-pre.1"],
"workspace_default_members": ["path+file:///w/app#0.3.1-pre.1"],
"resolve": {"nodes": [
 {"id": "path+file:///w/app#0.3.1-pre.1", "dependencies": ["ext 1.2.0", "lib-one"], "deps": [
   {"name": "far_ext", "pkg": "ext 1.2.0", "dep_kinds": [{"kind": null, "target": null}]},
   {"name": "one", "pkg": "lib-one", "dep_kinds": [{"kind": null, "target": null},
    {"kind": null, "target": "cfg(windows)"}, {"kind": "build", "target": null},
    {"kind": "dev", "target": "cfg(unix)"}]}],
  "features": []},
 {"id": "ext 1.2.0", "dependencies": [], "deps": [], "features": []},
 {"id": "lib-one", "dependencies": [], "deps": [], "features": []}], "root": null},
"target_directory": "/w/target", "build_directory": "/build", "version": 1, "workspace_root": "/w",
"metadata": {"shared": true}}"#;

fn shows<T: fmt::Debug>(rt: &impl Abort, alloc: Global, value: &T, wanted: &str) {
    let shown = format!(in alloc; "{value:?}").expect(rt, wanted);
    let shown = shown.as_str();
    assert!(rt; shown == wanted, "{shown} is not {wanted}");
}

// What METADATA says, as `Debug` prints it.
const PACKAGE_RECORDS: &[&str] = &[
    "PackageRecord { id: PackageId { text: \"path+file:///w/app#0.3.1-pre.1\" }, name: \"app\", version: Version { \
        major: 0, minor: 3, patch: 1, pre: Prerelease(\"pre.1\") }, authors: [\"A <a@b>\", \"B\"], description: \
        Some(\"An app\"), license: Some(\"MIT\"), license_file: Some(Utf8PathBuf { text: \"LICENSE\" }), source: \
        Workspace(Utf8PathBuf { text: \"app\" }), manifest_path: Utf8PathBuf { text: \"/w/app/Cargo.toml\" }, \
        categories: [\"c1\"], keywords: [\"k1\", \"k2\"], readme: Some(Utf8PathBuf { text: \"README.md\" }), \
        repository: Some(\"r\"), homepage: Some(\"h\"), documentation: Some(\"d\"), edition: \"2021\", \
        metadata_table: Object {\"docs\": Array [Number(1), String(\"x\")]}, links: Some(\"zed\"), publish: \
        Registries([]), default_run: Some(\"app\"), rust_version: Some(Version { major: 1, minor: 70, patch: 0 }), \
        named_features: {\"default\": [NamedFeature(\"slow\")], \"slow\": [OptionalDependency(\"lib-one\"), \
        DependencyNamedFeature { dep_name: \"far-ext\", feature: \"std\", weak: true }, DependencyNamedFeature { \
        dep_name: \"lib-one\", feature: \"a\", weak: false }]}, optional_deps: {\"far-ext\", \"ext\", \"lib-one\"}, \
        build_targets: [BuildTargetRecord { id: Library, kind: LibraryOrExample(SortedSet { items: [\"cdylib\", \
        \"rlib\"] }), lib_name: Some(\"app\"), required_features: [], path: Utf8PathBuf { text: \
        \"/w/app/src/lib.rs\" }, edition: \"2021\", doc_by_default: true, doctest_by_default: true, \
        test_by_default: true }, BuildTargetRecord { id: Binary(\"app\"), kind: Binary, lib_name: None, \
        required_features: [\"slow\"], path: Utf8PathBuf { text: \"/w/app/src/main.rs\" }, edition: \"2021\", \
        doc_by_default: true, doctest_by_default: false, test_by_default: true }, BuildTargetRecord { id: \
        Example(\"e\"), kind: LibraryOrExample(SortedSet { items: [\"bin\"] }), lib_name: None, required_features: \
        [], path: Utf8PathBuf { text: \"/w/app/examples/e.rs\" }, edition: \"2021\", doc_by_default: false, \
        doctest_by_default: false, test_by_default: false }, BuildTargetRecord { id: Test(\"t\"), kind: Binary, \
        lib_name: None, required_features: [], path: Utf8PathBuf { text: \"/w/app/tests/t.rs\" }, edition: \
        \"2021\", doc_by_default: false, doctest_by_default: false, test_by_default: true }, BuildTargetRecord { \
        id: Benchmark(\"b\"), kind: Binary, lib_name: None, required_features: [], path: Utf8PathBuf { text: \
        \"/w/app/benches/b.rs\" }, edition: \"2021\", doc_by_default: false, doctest_by_default: false, \
        test_by_default: false }, BuildTargetRecord { id: BuildScript, kind: Binary, lib_name: \
        Some(\"build-script-build\"), required_features: [], path: Utf8PathBuf { text: \"/w/app/build.rs\" }, \
        edition: \"2021\", doc_by_default: false, doctest_by_default: false, test_by_default: false }] }",
    "PackageRecord { id: PackageId { text: \"ext 1.2.0\" }, name: \"ext\", version: Version { major: 1, minor: 2, \
        patch: 0 }, authors: [], description: None, license: None, license_file: None, source: \
        External(\"registry+https://github.com/rust-lang/crates.io-index\"), manifest_path: Utf8PathBuf { text: \
        \"/r/ext/Cargo.toml\" }, categories: [], keywords: [], readme: None, repository: None, homepage: None, \
        documentation: None, edition: \"2018\", metadata_table: Null, links: None, publish: Unrestricted, \
        default_run: None, rust_version: None, named_features: {}, optional_deps: {}, build_targets: \
        [BuildTargetRecord { id: Library, kind: ProcMacro, lib_name: Some(\"ext\"), required_features: [], path: \
        Utf8PathBuf { text: \"/r/ext/src/lib.rs\" }, edition: \"2018\", doc_by_default: true, doctest_by_default: \
        true, test_by_default: true }] }",
    "PackageRecord { id: PackageId { text: \"lib-one\" }, name: \"lib-one\", version: Version { major: 0, minor: 1, \
        patch: 0 }, authors: [], description: None, license: None, license_file: None, source: Path(Utf8PathBuf { \
        text: \"../lib-one\" }), manifest_path: Utf8PathBuf { text: \"/lib-one/Cargo.toml\" }, categories: [], \
        keywords: [], readme: None, repository: None, homepage: None, documentation: None, edition: \"2018\", \
        metadata_table: Null, links: None, publish: Registries([\"mine\"]), default_run: None, rust_version: \
        Some(Version { major: 2, minor: 0, patch: 0 }), named_features: {\"a\": [], \"b\": []}, optional_deps: {}, \
        build_targets: [BuildTargetRecord { id: Library, kind: LibraryOrExample(SortedSet { items: [\"lib\"] }), \
        lib_name: Some(\"one\"), required_features: [], path: Utf8PathBuf { text: \"/lib-one/src/lib.rs\" }, \
        edition: \"2018\", doc_by_default: true, doctest_by_default: true, test_by_default: true }] }",
];

// The same of its links.
const LINK_RECORDS: &[&str] = &[
    "LinkRecord { from: PackageId { text: \"path+file:///w/app#0.3.1-pre.1\" }, to: PackageId { text: \"ext 1.2.0\" \
        }, dep_name: \"far-ext\", resolved_name: \"far_ext\", version_req: VersionReq { comparators: [Comparator { \
        op: Caret, major: 1, minor: None, patch: None, pre: Prerelease(\"\") }] }, registry: \
        Some(\"https://registry\"), path: None, normal: DependencyReqImpl { required: DepRequiredOrOptional { \
        build_if: Specs([]), default_features_if: Specs([]), no_default_features_if: Specs([]), feature_targets: {} \
        }, optional: DepRequiredOrOptional { build_if: Always, default_features_if: Always, no_default_features_if: \
        Specs([]), feature_targets: {} } }, build: DependencyReqImpl { required: DepRequiredOrOptional { build_if: \
        Specs([]), default_features_if: Specs([]), no_default_features_if: Specs([]), feature_targets: {} }, \
        optional: DepRequiredOrOptional { build_if: Specs([]), default_features_if: Specs([]), \
        no_default_features_if: Specs([]), feature_targets: {} } }, dev: DependencyReqImpl { required: \
        DepRequiredOrOptional { build_if: Specs([]), default_features_if: Specs([]), no_default_features_if: \
        Specs([]), feature_targets: {} }, optional: DepRequiredOrOptional { build_if: Specs([]), \
        default_features_if: Specs([]), no_default_features_if: Specs([]), feature_targets: {} } } }",
    "LinkRecord { from: PackageId { text: \"path+file:///w/app#0.3.1-pre.1\" }, to: PackageId { text: \"lib-one\" \
        }, dep_name: \"lib-one\", resolved_name: \"one\", version_req: VersionReq { comparators: [Comparator { op: \
        Caret, major: 0, minor: Some(1), patch: None, pre: Prerelease(\"\") }] }, registry: None, path: \
        Some(Utf8PathBuf { text: \"/lib-one\" }), normal: DependencyReqImpl { required: DepRequiredOrOptional { \
        build_if: Specs([]), default_features_if: Specs([]), no_default_features_if: Specs([]), feature_targets: {} \
        }, optional: DepRequiredOrOptional { build_if: Always, default_features_if: Specs([TargetSpec { text: \
        \"cfg(windows)\" }]), no_default_features_if: Always, feature_targets: {\"a\": Always, \"b\": \
        Specs([TargetSpec { text: \"cfg(windows)\" }])} } }, build: DependencyReqImpl { required: \
        DepRequiredOrOptional { build_if: Always, default_features_if: Always, no_default_features_if: Specs([]), \
        feature_targets: {} }, optional: DepRequiredOrOptional { build_if: Specs([]), default_features_if: \
        Specs([]), no_default_features_if: Specs([]), feature_targets: {} } }, dev: DependencyReqImpl { required: \
        DepRequiredOrOptional { build_if: Specs([TargetSpec { text: \"cfg(unix)\" }]), default_features_if: \
        Specs([TargetSpec { text: \"cfg(unix)\" }]), no_default_features_if: Specs([]), feature_targets: {} }, \
        optional: DepRequiredOrOptional { build_if: Specs([]), default_features_if: Specs([]), \
        no_default_features_if: Specs([]), feature_targets: {} } } }",
];

fn are_read<T: fmt::Debug>(rt: &impl Abort, alloc: Global, records: &[T], wanted: &[&str]) {
    assert!(rt; records.len() == wanted.len());
    for (record, text) in records.iter().zip(wanted.iter()) {
        shows(rt, alloc, record, text);
    }
}

fn records_are_read(rt: &impl Abort, alloc: Global, records: &Records) {
    are_read(rt, alloc, records.packages.as_slice(), PACKAGE_RECORDS);
    are_read(rt, alloc, records.links.as_slice(), LINK_RECORDS);
    let workspace = "WorkspaceRecord { root: Utf8PathBuf { text: \"/w\" }, \
        target_directory: Utf8PathBuf { text: \"/w/target\" }, \
        build_directory: Some(Utf8PathBuf { text: \"/build\" }), \
        metadata_table: Object {\"shared\": Bool(true)}, \
        default_members: [PackageId { text: \"path+file:///w/app#0.3.1-pre.1\" }] }";
    shows(rt, alloc, &records.workspace, workspace);
}

#[test]
fn metadata_is_read(rt: HostRuntime) {
    let records = records_of(rt.alloc(), METADATA).expect(&rt, "records");
    records_are_read(&rt, rt.alloc(), &records);
    let graph = records.into_graph().expect(&rt, "graph");
    assert!(rt; graph.package_count() == 3);
    assert!(rt; graph.link_count() == 2);
}

fn empty_details(package: &mut PackageRecord) {
    package.authors.clear();
    package.license_file = None;
    package.categories.clear();
    package.keywords.clear();
    package.readme = None;
    package.homepage = None;
    package.documentation = None;
    package.metadata_table = JsonValue::Null;
    package.links = None;
    package.default_run = None;
    package.rust_version = None;
    package.named_features.clear();
    package.optional_deps.clear();
    package.build_targets.clear();
}

fn empty_section(section: &mut DependencyReqImpl) {
    section.required.feature_targets.clear();
    section.optional.feature_targets.clear();
}

fn empty_features(link: &mut LinkRecord) {
    empty_section(&mut link.normal);
    empty_section(&mut link.build);
    empty_section(&mut link.dev);
}

fn are_plain(rt: &impl Abort, alloc: Global, plain: &Records, records: &mut Records) {
    for package in records.packages.iter_mut() {
        empty_details(package);
    }
    for link in records.links.iter_mut() {
        empty_features(link);
    }
    let wanted = format!(in alloc; "{records:?}").expect(rt, "text");
    shows(rt, alloc, plain, wanted.as_str());
}

// Without details the records are the same with these emptied, whatever they are.
#[test]
fn metadata_is_read_without_details(rt: HostRuntime) {
    let alloc = rt.alloc();
    let plain = plain_records_of(alloc, METADATA).expect(&rt, "records");
    let mut records = records_of(alloc, METADATA).expect(&rt, "records");
    are_plain(&rt, alloc, &plain, &mut records);
    let package = format!(in alloc;
        "{{{NAMED}, \"targets\": [], \"features\": [], \"authors\": 1}}"
    );
    let package = package.expect(&rt, "package");
    let json = printed_metadata(&rt, alloc, "", package.as_str());
    assert!(rt; plain_records_of(alloc, json.as_str()).is_ok());
    let json = metadata(&rt, alloc, "", package.as_str());
    assert!(rt; plain_records_of(alloc, json.as_str()).is_ok());
    is_told(&rt, alloc, json.as_str(), "packages[0].authors: no list");
}

#[test]
fn cut_metadata_is_refused(rt: HostRuntime) {
    let alloc = rt.alloc();
    for end in (0..METADATA.len()).step_by(11) {
        let front = METADATA.as_bytes().get(..end).expect(&rt, "front");
        let front = str::from_utf8(front).expect(&rt, "text");
        assert!(rt; records_of(alloc, front).is_err(), "cut at {end}");
    }
}

// Metadata with these nodes and packages.
fn metadata(rt: &impl Abort, alloc: Global, nodes: &str, packages: &str) -> String {
    format!(in alloc;
        "{{\"workspace_root\": \"/w\", \"target_directory\": \"/w/target\", \
        \"workspace_members\": [], \"resolve\": {{\"nodes\": [{nodes}]}}, \
        \"packages\": [{packages}]}}"
    )
    .expect(rt, "metadata")
}

// The same, in the order in which Cargo prints it.
fn printed_metadata(rt: &impl Abort, alloc: Global, nodes: &str, packages: &str) -> String {
    format!(in alloc;
        "{{\"packages\": [{packages}], \"workspace_members\": [], \
        \"resolve\": {{\"nodes\": [{nodes}], \"root\": null}}, \
        \"target_directory\": \"/w/target\", \"workspace_root\": \"/w\"}}"
    )
    .expect(rt, "metadata")
}

fn tells(rt: &impl Abort, alloc: Global, fault: &MetadataFault, wanted: &str) {
    let told = fault.to_string(alloc).expect(rt, wanted);
    let told = told.as_str();
    assert!(rt; told == wanted, "{told} is not {wanted}");
}

pub(super) fn is_told(rt: &impl Abort, alloc: Global, json: &str, wanted: &str) {
    match records_of(alloc, json) {
        Ok(_) => assert!(rt; false, "{wanted} is not told"),
        Err(fault) => tells(rt, alloc, &fault, wanted),
    }
}

const WHOLE: &[(&str, &str)] = &[
    ("", "no JSON at line 1 column 1"),
    ("[]", "the JSON: no object"),
    ("{}", "resolve: no dependencies are resolved"),
    (
        "{\"resolve\": null}",
        "resolve: no dependencies are resolved",
    ),
    ("{\"resolve\": {}}", "resolve.nodes: missing"),
    ("{\"resolve\": {\"nodes\": {}}}", "resolve.nodes: no list"),
    ("{\"resolve\": {\"nodes\": []}}", "workspace_root: missing"),
    (
        "{\"resolve\": {\"nodes\": []}, \"workspace_root\": null}",
        "workspace_root: no text",
    ),
    (
        "{\"resolve\": {\"nodes\": []}, \"workspace_root\": \"\", \"target_directory\": \"\", \
            \"workspace_members\": [\"a\"], \"packages\": []}",
        "workspace_members[0]: the ID of no package",
    ),
];

const PACKAGES: &[(&str, &str)] = &[
    ("1", "packages[0]: no object"),
    ("{}", "packages[0].id: missing"),
    (
        "{\"id\": \"a\", \"dependencies\": [0]}",
        "packages[0].dependencies[0]: no object",
    ),
    (
        "{\"id\": \"a\", \"dependencies\": [{\"name\": \"b\", \"req\": \"1\", \"kind\": \"other\"}]}",
        "packages[0].dependencies[0].kind: no kind of dependency",
    ),
    (
        "{\"id\": \"a\", \"dependencies\": [{\"name\": \"b\", \"req\": \"\"}]}",
        "packages[0].dependencies[0].req: no requirement of versions: \
            unexpected end of input while parsing major version number",
    ),
    (
        "{\"id\": \"a\", \"dependencies\": [{\"name\": \"b\", \"req\": \"1\", \"optional\": 1}]}",
        "packages[0].dependencies[0].optional: no truth value",
    ),
    (
        "{\"id\": \"a\", \"dependencies\": [], \"targets\": [], \"version\": \"\"}",
        "packages[0].version: no version: empty string, expected a semver version",
    ),
];

const NAMED: &str = "\"dependencies\": [], \"id\": \"a\", \"manifest_path\": \"/w/a/Cargo.toml\", \
    \"version\": \"1.0.0\", \"name\": \"a\", \"edition\": \"2021\"";

const FIELDS: &[(&str, &str)] = &[
    (
        "\"targets\": [], \"keywords\": [\"\", 1]",
        "packages[0].keywords[1]: no text",
    ),
    (
        "\"targets\": [], \"license\": []",
        "packages[0].license: no text",
    ),
    ("\"targets\": 1", "packages[0].targets: no list"),
    (
        "\"targets\": [{\"name\": \"t\"}]",
        "packages[0].targets[0].kind[0]: missing",
    ),
    ("\"targets\": []", "packages[0].features: missing"),
    (
        "\"targets\": [], \"features\": {\"f\": [null]}",
        "packages[0].features.f[0]: no text",
    ),
];

const NODES: &[(&str, &str)] = &[
    ("{\"id\": \"a\"}", "resolve.nodes[0].deps: missing"),
    (
        "{\"id\": \"a\", \"deps\": [{\"name\": \"b\", \"pkg\": \"b\"}]}",
        "resolve.nodes[0].deps[0].dep_kinds: missing",
    ),
    (
        "{\"id\": \"a\", \"deps\": [{\"name\": \"b\", \"pkg\": \"b\", \"dep_kinds\": [{\"kind\": 1}]}]}",
        "resolve.nodes[0].deps[0].dep_kinds[0].kind: no text",
    ),
    (
        "{\"id\": \"a\", \"deps\": [{\"name\": \"a\", \"pkg\": \"a\", \"dep_kinds\": []}]}",
        "resolve.nodes[0].deps[0].pkg: no declared dependency fits",
    ),
];

#[test]
fn faults_are_told(rt: HostRuntime) {
    let alloc = rt.alloc();
    for (json, wanted) in WHOLE {
        is_told(&rt, alloc, json, wanted);
    }
    for (package, wanted) in PACKAGES {
        let json = metadata(&rt, alloc, "", package);
        is_told(&rt, alloc, json.as_str(), wanted);
    }
    for (fields, wanted) in FIELDS {
        let package = format!(in alloc; "{{{NAMED}, {fields}}}").expect(&rt, "package");
        let json = metadata(&rt, alloc, "", package.as_str());
        is_told(&rt, alloc, json.as_str(), wanted);
    }
    let package = format!(in alloc; "{{{NAMED}, \"targets\": [], \"features\": {{}}}}");
    let package = package.expect(&rt, "package");
    for (node, wanted) in NODES {
        let json = metadata(&rt, alloc, node, package.as_str());
        is_told(&rt, alloc, json.as_str(), wanted);
    }
    tells(&rt, alloc, &MetadataFault::OutOfMemory, "out of memory");
}

// The package of this number, which depends on the one of the next number.
fn ring_package(rt: &impl Abort, alloc: Global, number: u32, next: u32) -> String {
    format!(in alloc;
        "{{\"name\": \"p{number}\", \"version\": \"1.0.0\", \"id\": \"p{number}\", \
        \"dependencies\": [{{\"name\": \"p{next}\", \"req\": \"*\"}}], \"targets\": [], \
        \"features\": {{}}, \"manifest_path\": \"/w/p{number}/Cargo.toml\", \
        \"edition\": \"2021\"}}"
    )
    .expect(rt, "package")
}

fn ring_node(rt: &impl Abort, alloc: Global, number: u32, next: u32) -> String {
    format!(in alloc;
        "{{\"id\": \"p{number}\", \"deps\": [{{\"name\": \"p{next}\", \
        \"pkg\": \"p{next}\", \"dep_kinds\": [{{}}]}}]}}"
    )
    .expect(rt, "node")
}

fn has_ring(rt: &impl Abort, alloc: Global, json: &str) {
    let records = records_of(alloc, json).expect(rt, "records");
    assert!(rt; records.packages.len() == 5000);
    assert!(rt; records.links.len() == 5000);
}

#[test]
fn many_packages_are_read(rt: HostRuntime) {
    let alloc = rt.alloc();
    let mut packages = ring_package(&rt, alloc, 0, 1);
    let mut nodes = ring_node(&rt, alloc, 0, 1);
    for number in 1..5000u32 {
        let next = if number < 4999 { number + 1 } else { 0 };
        let package = ring_package(&rt, alloc, number, next);
        packages.push_str(", ").expect(&rt, "memory");
        packages.push_str(package.as_str()).expect(&rt, "memory");
        let node = ring_node(&rt, alloc, number, next);
        nodes.push_str(", ").expect(&rt, "memory");
        nodes.push_str(node.as_str()).expect(&rt, "memory");
    }
    let json = metadata(&rt, alloc, nodes.as_str(), packages.as_str());
    has_ring(&rt, alloc, json.as_str());
    let json = printed_metadata(&rt, alloc, nodes.as_str(), packages.as_str());
    has_ring(&rt, alloc, json.as_str());
}
