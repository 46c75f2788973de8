//! The graph of packages: `RecordGraph` of `guppy_graph`, as its users see it.
mod depends_cache;
mod graph;
mod into_graph;
mod naming;
mod positions;

pub use crate::{
    Cycles, PackageLink, PackageLinkContext, PackageMetadata, PackageQuery, PackageSet, Workspace,
};
pub use depends_cache::DependsCache;
pub use graph::{AllPackages, PackageGraph, PackageIds};
pub use guppy_graph::Packages;
pub use into_graph::IntoGraph;
pub(crate) use naming::NamesPackage;
