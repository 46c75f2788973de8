//! What is asked.
use guppy_data::{PackageId, PlatformSpec};
use guppy_features::{CargoResolverVersion, StandardFeatures};
use guppy_target::Platform;

/// What a command line chooses, and asks of it.
#[derive(Clone, Copy, Debug)]
pub struct BuildQuestion<'a, 'p> {
    /// The chosen members by their IDs; where there is none, those that Cargo takes by default.
    pub members: &'a [PackageId],
    /// What `--features` names: `F`, `x/F` or `x?/F`.
    pub features: &'a [&'a str],
    /// Which features are asked for beside these.
    pub standard: StandardFeatures,
    /// Whether tests are built, as `cargo test` does.
    pub tests: bool,
    /// The resolver.
    pub resolver: CargoResolverVersion,
    /// The platforms that are built for.
    pub target_platform: &'p PlatformSpec<Platform>,
    /// The platform that builds.
    pub host_platform: &'p PlatformSpec<Platform>,
}
