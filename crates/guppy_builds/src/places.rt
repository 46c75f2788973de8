//! The platforms that are built for, each by itself.
ghost use Rattle.std.specs.Prelude.{◌≡◌, ◌∷◌, [], ◌<◌, length};
ghost use Rattle.guppy_data.specs.Platform.{recorded_status, seen_status, OnPlatforms, question_of as platforms_of};
ghost use Rattle.guppy_features.specs.Dependencies.{seen_dependency};
ghost use Rattle.guppy_builds.specs.Building.{question_of};
ghost use Rattle.guppy_builds.specs.Places.{count_of, platform_count, platform_at, platform_of, may_be_on, is_on_at, place_of, features_side};

use crate::build::BuildPlace;
use crate::building::Building;
use guppy_data::{
    DependencyKind, EnabledTernary, PlatformSpec, PlatformStatus, PlatformStatusImpl,
};
use guppy_features::dependencies::Dependency;
use guppy_features::{BuildPlatform, may_be_on};
use guppy_target::{CfgEval, Platform};

impl Building<'_> {
    /// How many platforms are built for: one, where they are no list.
    pub(crate) fn platform_count(self) -> usize
        ensures { result ≡ platform_count (question_of self.entry) }
    {
        match self.asked.options.target_platform {
            PlatformSpec::Platforms(platforms) => platforms.len(),
            _ => 1,
        }
    }

    /// Whether the dependency is on for what is built there: what is needed to build, if it is for the platform that
    /// builds.
    pub(crate) fn is_on_at(self, place: BuildPlace, dependency: &Dependency<'_>) -> bool
        ensures { result ≡ is_on_at (question_of self.entry) place (seen_dependency dependency.now) }
    {
        let place = if dependency.section == DependencyKind::Build {
            BuildPlace::Host
        } else {
            place
        };
        self.is_on_platform(place, &dependency.part.build_if)
    }

    // Whether what has the status may be on there.
    fn is_on_platform(self, place: BuildPlace, status: &PlatformStatusImpl) -> bool
        ensures { result ≡ may_be_on (recorded_status status.now) (platform_of (question_of self.entry) place) }
    {
        let status = PlatformStatus::new(status);
        let options = self.asked.options;
        match place {
            BuildPlace::Target(place) => may_be_on_one(status, options.target_platform, place),
            BuildPlace::Host => may_be_on(status, options.host_platform),
        }
    }

    /// Where the dependency's package is built, for one that is built there: what is needed to build, and procedural
    /// macros, on the host.
    pub(crate) fn place_of(self, place: BuildPlace, dependency: &Dependency<'_>) -> BuildPlace
        requires { dependency.now.to < length self.asked.graph.now.packages }
        ensures { result ≡ place_of (question_of self.entry) place (seen_dependency dependency.now) }
    {
        if dependency.section == DependencyKind::Build || self.asked.is_macro(dependency.to) {
            BuildPlace::Host
        } else {
            place
        }
    }

    /// The side whose features what is built there has.
    pub(crate) fn features_side(self, place: BuildPlace) -> BuildPlatform
        ensures { result ≡ features_side (question_of self.entry) place }
    {
        if self.asked.splits() {
            place.side()
        } else {
            BuildPlatform::Target
        }
    }
}

// Whether what has the status may be on on the platform of the place.
fn may_be_on_one(
    status: PlatformStatus<'_>,
    platforms: &PlatformSpec<Platform>,
    place: usize,
) -> bool
    ensures { result ≡ may_be_on (seen_status status.entry) (platform_at platforms.now place) }
{
    let PlatformSpec::Platforms(list) = platforms else {
        return may_be_on(status, platforms);
    };
    match list.get(place) {
        Some(platform) => may_be_on_platform(status, platform),
        None => false,
    }
}

// Whether it may be on on the platform.
fn may_be_on_platform(status: PlatformStatus<'_>, platform: &Platform) -> bool
    ensures { result ≡ may_be_on (seen_status status.entry) (OnPlatforms (platform.now ∷ [])) }
{
    match status {
        PlatformStatus::Never => false,
        PlatformStatus::Always => true,
        PlatformStatus::PlatformDependent { eval } => {
            eval.eval(platform, &CfgEval) != EnabledTernary::Disabled
        }
    }
}
