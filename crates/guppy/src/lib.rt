//! Graphs of Cargo packages: records go in and are checked once, and sets and dependences come out.
//!
//! The modules, from the bottom up:
//!
//! - `package_graph`: the graph, which stands on `RecordGraph` of `guppy_graph`;
//! - `metadata`: what is known of a package, and the links that leave it;
//! - `link`: what is known of a link;
//! - `workspace`: the workspace, and its members by path and by name;
//! - `query`: queries, visitors and resolves;
//! - `set`: sets of packages;
//! - `cycles`: packages that depend on each other.
//!
//! What the calls take and give is passed on, so that users name this crate alone: `graph`, `platform`
//! and `errors` have it under guppy's paths, and `positions` is `guppy_core`, the calls by position.
#![tactic(auto)]

pub mod cycles;
pub mod errors;
pub mod graph;
pub mod link;
pub mod metadata;
pub mod package_graph;
pub mod platform;
pub mod query;
pub mod set;
pub mod workspace;

pub use cycles::{AllCycles, CycleIds, Cycles};
pub use guppy_core as positions;
pub use guppy_data::{
    Component, Components, DependencyKind, Error, PackageId, SortedSet, Utf8Path, Utf8PathBuf,
};
pub use indexmap::{IndexMap, IndexSet};
pub use link::PackageLink;
pub use metadata::{
    BuildTargets, FeatureIndexInPackage, NamedFeatures, NamedFeaturesFull, OptionalDepsFull,
    PackageLinks, PackageMetadata,
};
pub use package_graph::{AllPackages, DependsCache, IntoGraph, PackageGraph, PackageIds, Packages};
pub use query::{PackageLinkContext, PackageLinkVisitor, PackageQuery, Recorder};
pub use semver::{Version, VersionReq};
pub use serde_json::Value as JsonValue;
pub use set::{ListedPackageIds, ListedPackages, PackageSet, RootIds, RootPackages, WalkedLinks};
pub use workspace::{
    DefaultMemberIds, DefaultMembers, MemberIds, Members, MembersByName, MembersByPath, Workspace,
};
