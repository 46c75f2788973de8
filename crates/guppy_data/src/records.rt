//! The records that a package graph is made of: plain data, handed in by value.
//!
//! A constructor takes what each record of its kind has, and leaves all else empty, to be filled by
//! assignment. None takes memory; `alloc` is what later items are taken from.
//! A field of a package's, a link's or the workspace's record can be replaced, but not moved out of it.
ghost use Rattle.std.specs.Prelude.{◌≡◌, [], None};
ghost use Rattle.serde_json.specs.declared.value.Value.{Null};
ghost use Rattle.guppy_data.specs.Platform.{Never, Always};
ghost use Rattle.guppy_data.specs.Records.{IsBare, IsAskedFor, IsRequired};

use crate::platform::status::PlatformStatusImpl;
use crate::texts::named_feature::NamedFeatureDep;
use crate::texts::package_id::PackageId;
use crate::texts::path_buf::Utf8PathBuf;
use crate::texts::sorted_set::SortedSet;
use indexmap::{IndexMap, IndexSet};
use semver::{Version, VersionReq};
use serde_json::Value;
use std::alloc::Global;
use std::collections::BTreeMap;

/// What is known of one package.
#[derive(Debug)]
pub struct PackageRecord {
    /// The ID of the package, which no other package of the graph has.
    pub id: PackageId,
    /// The name, which only members of one workspace may not share.
    pub name: String,
    /// The version.
    pub version: Version,
    /// The authors.
    pub authors: Vec<String>,
    /// A description.
    pub description: Option<String>,
    /// The license, as an SPDX expression.
    pub license: Option<String>,
    /// The path of the license's text, from the manifest.
    pub license_file: Option<Utf8PathBuf>,
    /// Where the package comes from.
    pub source: PackageSourceRecord,
    /// The path of the package's `Cargo.toml`.
    pub manifest_path: Utf8PathBuf,
    /// The categories.
    pub categories: Vec<String>,
    /// The keywords.
    pub keywords: Vec<String>,
    /// The path of the readme, from the manifest.
    pub readme: Option<Utf8PathBuf>,
    /// The URL of the repository.
    pub repository: Option<String>,
    /// The URL of the homepage.
    pub homepage: Option<String>,
    /// The URL of the documentation.
    pub documentation: Option<String>,
    /// The Rust edition.
    pub edition: String,
    /// The manifest's free table `package.metadata`.
    pub metadata_table: Value,
    /// The native library that the package links to.
    pub links: Option<String>,
    /// Where the package may be published.
    pub publish: PackagePublishRecord,
    /// The binary that `cargo run` runs.
    pub default_run: Option<String>,
    /// The oldest Rust that builds the package.
    pub rust_version: Option<Version>,
    /// The named features and what each switches on, in the order of the manifest.
    pub named_features: IndexMap<String, Vec<NamedFeatureDep>>,
    /// The names of the optional dependencies, in the order of the manifest.
    pub optional_deps: IndexSet<String>,
    /// The build targets, no two of one ID.
    pub build_targets: Vec<BuildTargetRecord>,
}

// Written out, as those of a link's and the workspace's record: a derived one is proved again in each crate that lets
// such a record go.
impl Drop for PackageRecord {
    fn drop(self) {
        let PackageRecord {
            id: _,
            name: _,
            version: _,
            authors: _,
            description: _,
            license: _,
            license_file: _,
            source: _,
            manifest_path: _,
            categories: _,
            keywords: _,
            readme: _,
            repository: _,
            homepage: _,
            documentation: _,
            edition: _,
            metadata_table: _,
            links: _,
            publish: _,
            default_run: _,
            rust_version: _,
            named_features: _,
            optional_deps: _,
            build_targets: _,
        } = self;
    }
}

impl PackageRecord {
    /// The record of a package of which nothing else is known: it may be published everywhere, its table
    /// is null, and all other fields are empty. Takes no memory.
    pub fn new(
        alloc: Global,
        id: PackageId,
        name: String,
        version: Version,
        source: PackageSourceRecord,
        manifest_path: Utf8PathBuf,
        edition: String,
    ) -> Self
        ensures id { result.id ≡ id }
        ensures name { result.name ≡ name }
        ensures version { result.version ≡ version }
        ensures source { result.source ≡ source }
        ensures manifest_path { result.manifest_path ≡ manifest_path }
        ensures edition { result.edition ≡ edition }
        ensures bare { IsBare result }
    {
        PackageRecord {
            id,
            name,
            version,
            authors: Vec::new(alloc),
            description: None,
            license: None,
            license_file: None,
            source,
            manifest_path,
            categories: Vec::new(alloc),
            keywords: Vec::new(alloc),
            readme: None,
            repository: None,
            homepage: None,
            documentation: None,
            edition,
            metadata_table: Value::Null,
            links: None,
            publish: PackagePublishRecord::Unrestricted,
            default_run: None,
            rust_version: None,
            named_features: IndexMap::new(alloc),
            optional_deps: IndexSet::new(alloc),
            build_targets: Vec::new(alloc),
        }
    }
}

/// Where a package comes from.
#[derive(Debug, Drop)]
pub enum PackageSourceRecord {
    /// The package is a member of the workspace, at this path from its root.
    Workspace(Utf8PathBuf),
    /// The package lies at this path from the workspace's root, and is no member.
    Path(Utf8PathBuf),
    /// The package comes from elsewhere: a registry or a repository.
    External(String),
}

/// Where a package may be published.
#[derive(Debug, Drop)]
pub enum PackagePublishRecord {
    /// Everywhere.
    Unrestricted,
    /// To these registries alone.
    Registries(Vec<String>),
}

/// One target that is built of a package.
#[derive(Debug, Drop)]
pub struct BuildTargetRecord {
    /// What the target is, and its name where it is no library or build script.
    pub id: OwnedBuildTargetId,
    /// What is made of the target.
    pub kind: BuildTargetKindRecord,
    /// The name of a library or build script, which has one. No other target uses it.
    pub lib_name: Option<String>,
    /// The features without which the target isn't built.
    pub required_features: Vec<String>,
    /// The path of the target's source.
    pub path: Utf8PathBuf,
    /// The Rust edition.
    pub edition: String,
    /// Whether the target is documented by default.
    pub doc_by_default: bool,
    /// Whether the target's documentation is tested by default.
    pub doctest_by_default: bool,
    /// Whether the target is tested by default.
    pub test_by_default: bool,
}

/// What a build target is, and its name where it has one of its own.
#[derive(Debug, Drop)]
pub enum OwnedBuildTargetId {
    /// The library.
    Library,
    /// The build script.
    BuildScript,
    /// A binary of this name.
    Binary(String),
    /// An example of this name.
    Example(String),
    /// A test of this name.
    Test(String),
    /// A benchmark of this name.
    Benchmark(String),
}

/// What is made of a build target.
#[derive(Debug, Drop)]
pub enum BuildTargetKindRecord {
    /// A library, or an example made as one, of these crate types.
    LibraryOrExample(SortedSet<String>),
    /// A procedural macro.
    ProcMacro,
    /// A binary.
    Binary,
}

/// That one package depends on another.
#[derive(Debug)]
pub struct LinkRecord {
    /// The package that depends.
    pub from: PackageId,
    /// The package depended on.
    pub to: PackageId,
    /// The dependency's name in the manifest.
    pub dep_name: String,
    /// The dependency's name in the code.
    pub resolved_name: String,
    /// The versions that are asked for.
    pub version_req: VersionReq,
    /// The registry that is asked for.
    pub registry: Option<String>,
    /// The path that is asked for.
    pub path: Option<Utf8PathBuf>,
    /// The dependency as a normal one.
    pub normal: DependencyReqImpl,
    /// The dependency as a build dependency.
    pub build: DependencyReqImpl,
    /// The dependency as a dev-dependency.
    pub dev: DependencyReqImpl,
}

impl Drop for LinkRecord {
    fn drop(self) {
        let LinkRecord {
            from: _,
            to: _,
            dep_name: _,
            resolved_name: _,
            version_req: _,
            registry: _,
            path: _,
            normal: _,
            build: _,
            dev: _,
        } = self;
    }
}

impl LinkRecord {
    /// The record of a link that is asked for in no section, of no registry or path. Takes no memory.
    pub fn new(
        alloc: Global,
        from: PackageId,
        to: PackageId,
        dep_name: String,
        resolved_name: String,
        version_req: VersionReq,
    ) -> Self
        ensures from { result.from ≡ from }
        ensures to { result.to ≡ to }
        ensures dep_name { result.dep_name ≡ dep_name }
        ensures resolved_name { result.resolved_name ≡ resolved_name }
        ensures version_req { result.version_req ≡ version_req }
        ensures registry { result.registry ≡ None }
        ensures path { result.path ≡ None }
        ensures normal { IsRequired Never result.normal }
        ensures build { IsRequired Never result.build }
        ensures dev { IsRequired Never result.dev }
    {
        LinkRecord {
            from,
            to,
            dep_name,
            resolved_name,
            version_req,
            registry: None,
            path: None,
            normal: DependencyReqImpl::never(alloc),
            build: DependencyReqImpl::never(alloc),
            dev: DependencyReqImpl::never(alloc),
        }
    }
}

/// On which platforms a dependency of one kind is there, required or optional.
#[derive(Debug, Drop)]
pub struct DependencyReqImpl {
    /// The dependency where it is required.
    pub required: DepRequiredOrOptional,
    /// The dependency where it is optional.
    pub optional: DepRequiredOrOptional,
}

impl DependencyReqImpl {
    /// A dependency that is asked for nowhere: guppy's `Default`. Takes no memory.
    pub fn never(alloc: Global) -> Self
        ensures { IsRequired Never result }
    {
        DependencyReqImpl {
            required: DepRequiredOrOptional::never(alloc),
            optional: DepRequiredOrOptional::never(alloc),
        }
    }

    /// A dependency that is required on all platforms, with its default features, and optional nowhere.
    /// Takes no memory.
    pub fn required(alloc: Global) -> Self
        ensures { IsRequired Always result }
    {
        DependencyReqImpl {
            required: DepRequiredOrOptional::always(alloc),
            optional: DepRequiredOrOptional::never(alloc),
        }
    }
}

/// On which platforms a dependency is built, and with which features.
#[derive(Debug, Drop)]
pub struct DepRequiredOrOptional {
    /// Where it is built.
    pub build_if: PlatformStatusImpl,
    /// Where it is built with its default features.
    pub default_features_if: PlatformStatusImpl,
    /// Where it is built without its default features.
    pub no_default_features_if: PlatformStatusImpl,
    /// Where it is built with each of these features.
    pub feature_targets: BTreeMap<String, PlatformStatusImpl>,
}

impl DepRequiredOrOptional {
    /// Built nowhere, with no features: guppy's `Default`. Takes no memory.
    pub fn never(alloc: Global) -> Self
        ensures { IsAskedFor Never result }
    {
        DepRequiredOrOptional {
            build_if: PlatformStatusImpl::never(alloc),
            default_features_if: PlatformStatusImpl::never(alloc),
            no_default_features_if: PlatformStatusImpl::never(alloc),
            feature_targets: BTreeMap::new(alloc),
        }
    }

    /// Built on all platforms, with its default features and no others. Takes no memory.
    pub fn always(alloc: Global) -> Self
        ensures { IsAskedFor Always result }
    {
        DepRequiredOrOptional {
            build_if: PlatformStatusImpl::Always,
            default_features_if: PlatformStatusImpl::Always,
            no_default_features_if: PlatformStatusImpl::never(alloc),
            feature_targets: BTreeMap::new(alloc),
        }
    }
}

/// What is known of the workspace as a whole.
#[derive(Debug)]
pub struct WorkspaceRecord {
    /// The path of the workspace's root.
    pub root: Utf8PathBuf,
    /// The path that Cargo builds into.
    pub target_directory: Utf8PathBuf,
    /// The path of what Cargo makes on its way, where it is another one.
    pub build_directory: Option<Utf8PathBuf>,
    /// The manifest's free table `workspace.metadata`.
    pub metadata_table: Value,
    /// The packages that Cargo's commands act on where none is named. Each is a package of the graph.
    pub default_members: Vec<PackageId>,
}

impl Drop for WorkspaceRecord {
    fn drop(self) {
        let WorkspaceRecord {
            root: _,
            target_directory: _,
            build_directory: _,
            metadata_table: _,
            default_members: _,
        } = self;
    }
}

impl WorkspaceRecord {
    /// The record of a workspace of which nothing else is known: it has no build directory of its own and
    /// no default members, and its table is null. Takes no memory.
    pub fn new(alloc: Global, root: Utf8PathBuf, target_directory: Utf8PathBuf) -> Self
        ensures root { result.root ≡ root }
        ensures target_directory { result.target_directory ≡ target_directory }
        ensures build_directory { result.build_directory ≡ None }
        ensures metadata_table { result.metadata_table ≡ Null }
        ensures default_members { result.default_members.items ≡ [] }
    {
        WorkspaceRecord {
            root,
            target_directory,
            build_directory: None,
            metadata_table: Value::Null,
            default_members: Vec::new(alloc),
        }
    }
}

/// What a package graph is made of.
#[derive(Debug, Drop)]
pub struct Records {
    /// The packages.
    pub packages: Vec<PackageRecord>,
    /// The links.
    pub links: Vec<LinkRecord>,
    /// The workspace.
    pub workspace: WorkspaceRecord,
}

/// Whether the details of packages and links are read too.
#[derive(Clone, Copy, Debug)]
pub enum Details {
    /// They are read.
    With,
    /// They are left empty.
    Without,
}
