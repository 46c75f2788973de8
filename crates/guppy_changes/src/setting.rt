//! How both states are built.
use guppy_data::PlatformSpec;
use guppy_features::{CargoResolverVersion, StandardFeatures};
use guppy_target::Platform;

/// How the two states are built, to be compared.
#[derive(Clone, Copy, Debug)]
pub struct BuildSetting<'p> {
    /// Which features of the members are asked for.
    pub standard: StandardFeatures,
    /// The platforms that are built for.
    pub target_platform: &'p PlatformSpec<Platform>,
    /// The platform that builds.
    pub host_platform: &'p PlatformSpec<Platform>,
    /// The resolver.
    pub resolver: CargoResolverVersion,
}
