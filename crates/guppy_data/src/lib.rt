//! The data of a package graph: what is handed in, how it is read, and what it prints.
//!
//! - `texts`: IDs, paths, sorted sets, names, faults and errors;
//! - `platform`: on which platforms something is enabled;
//! - `records`: the records that a package graph is made of;
//! - `views`: what is read out of a record.
#![tactic(auto)]

pub mod platform;
pub mod records;
pub mod texts;
pub mod views;

pub use platform::laws::{
    and_is_the_minimum, extended_is_either, or_is_the_maximum, platforms_together_are_either,
    questions_ascend, ternaries_ascend,
};
pub use platform::spec::PlatformSpec;
pub use platform::status::{PlatformEval, PlatformStatus, PlatformStatusImpl};
pub use platform::target::{TargetEval, TargetSpec};
pub use platform::ternary::EnabledTernary;
pub use records::{
    BuildTargetKindRecord, BuildTargetRecord, DepRequiredOrOptional, DependencyReqImpl, Details,
    LinkRecord, OwnedBuildTargetId, PackagePublishRecord, PackageRecord, PackageSourceRecord,
    Records, WorkspaceRecord,
};
pub use texts::component::{Component, Components};
pub use texts::dependency_kind::DependencyKind;
pub use texts::error::Error;
pub use texts::fault::{ConstructFault, VerifyFault};
pub use texts::named_feature::NamedFeatureDep;
pub use texts::package_id::PackageId;
pub use texts::path::Utf8Path;
pub use texts::path_buf::Utf8PathBuf;
pub use texts::sorted_set::SortedSet;
pub use texts::warning::{FeatureBuildStage, FeatureGraphWarning};
pub use views::build_target::BuildTarget;
pub use views::build_target_id::BuildTargetId;
pub use views::build_target_kind::BuildTargetKind;
pub use views::dependency_req::{DependencyReq, Features};
pub use views::enabled_status::EnabledStatus;
pub use views::external_source::{ExternalSource, GitReq};
pub use views::publish::PackagePublish;
pub use views::source::PackageSource;
