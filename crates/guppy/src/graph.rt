//! Graphs, what they are made of, and what they answer, under the path that guppy has for them.

pub use crate::{
    AllCycles, AllPackages, BuildTargets, CycleIds, Cycles, DefaultMemberIds, DefaultMembers,
    DependsCache, FeatureIndexInPackage, IntoGraph, ListedPackageIds, ListedPackages, MemberIds,
    Members, MembersByName, MembersByPath, NamedFeatures, NamedFeaturesFull, OptionalDepsFull,
    PackageGraph, PackageIds, PackageLink, PackageLinkContext, PackageLinkVisitor, PackageLinks,
    PackageMetadata, PackageQuery, PackageSet, Packages, Recorder, RootIds, RootPackages,
    WalkedLinks, Workspace,
};
pub use guppy_core::{DependencyDirection, IndexType, PackageIx};
pub use guppy_data::{
    BuildTarget, BuildTargetId, BuildTargetKind, BuildTargetKindRecord, BuildTargetRecord,
    DepRequiredOrOptional, DependencyReq, DependencyReqImpl, EnabledStatus, ExternalSource,
    Features, GitReq, LinkRecord, NamedFeatureDep, OwnedBuildTargetId, PackagePublish,
    PackagePublishRecord, PackageRecord, PackageSource, PackageSourceRecord, Records,
    WorkspaceRecord,
};
