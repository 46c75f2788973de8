//! What is asked of Cargo.
use guppy_data::{NamedFeatureDep, PlatformSpec};
use guppy_target::Platform;

/// Cargo's resolver, which the manifest of the workspace's root names, or its edition. The metadata don't tell it.
#[derive(Clone, Copy, Debug, PartialEq, Eq)]
pub enum CargoResolverVersion {
    /// `resolver = "1"`: features of both sides, and of all platforms, are one.
    V1,
    /// `resolver = "2"`.
    V2,
    /// `resolver = "3"`, by which features are as by 2.
    V3,
}

/// Which of its features a package is asked for, beside those named.
#[derive(Clone, Copy, Debug, PartialEq, Eq)]
pub enum StandardFeatures {
    /// None: `--no-default-features`.
    None,
    /// `default`, if it has one.
    Default,
    /// All: `--all-features`.
    All,
}

/// A package that is chosen, and what is asked of it.
#[derive(Debug, Drop)]
pub struct Initial {
    /// The position of the package.
    pub position: usize,
    /// Which of its features.
    pub standard: StandardFeatures,
    /// What `--features` says beside these. What the package lacks gives nothing.
    pub features: Vec<NamedFeatureDep>,
}

/// What is asked of Cargo.
#[derive(Debug, Drop)]
pub struct CargoOptions<'a> {
    /// The chosen members. With resolver 1, in a workspace whose root is a package, that one, too.
    pub initials: Vec<Initial>,
    /// Whether tests are built, as `cargo test` does.
    pub tests: bool,
    /// The platforms that are built for. Of an empty list nothing counts on the target's side; where nothing else
    /// is built for, this is the host's, too.
    pub target_platform: &'a PlatformSpec<Platform>,
    /// The platform that builds.
    pub host_platform: &'a PlatformSpec<Platform>,
    /// The resolver.
    pub resolver: CargoResolverVersion,
}
