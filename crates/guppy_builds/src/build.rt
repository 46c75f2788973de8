//! What may be built of a package.
use guppy_closure::Spread;
use guppy_features::BuildPlatform;

// More platforms than are mostly asked about.
const PLATFORMS: usize = 64;

/// The platform that something is built for.
#[derive(Clone, Copy, Debug, PartialEq, Eq, PartialOrd, Ord)]
pub enum BuildPlace {
    /// Of those that are built for, the platform of this place in their list.
    Target(usize),
    /// The platform that builds.
    Host,
}

impl BuildPlace {
    ghost use Rattle.std.specs.Prelude.{◌≡◌};
    ghost use Rattle.guppy_builds.specs.Builds.{side_of};

    /// The side that this is.
    pub fn side(self) -> BuildPlatform
        ensures { result ≡ side_of self }
    {
        match self {
            BuildPlace::Target(_) => BuildPlatform::Target,
            BuildPlace::Host => BuildPlatform::Host,
        }
    }
}

/// How a package is built.
#[derive(Clone, Copy, Debug, PartialEq, Eq, PartialOrd, Ord)]
pub enum BuildMode {
    /// By itself.
    Build,
    /// With its dev-dependencies, for a test or an example.
    Test,
}

/// That a package is built for a platform.
#[derive(Clone, Copy, Debug, PartialEq, Eq, PartialOrd, Ord)]
pub struct Build {
    /// The position of the package.
    pub position: usize,
    /// The platform.
    pub place: BuildPlace,
    /// How it is built.
    pub mode: BuildMode,
}

impl Spread for Build {
    fn spread(&self) -> usize {
        let place = match self.place {
            BuildPlace::Target(place) => place.wrapping_add(1),
            BuildPlace::Host => 0,
        };
        let package = self.position.wrapping_mul(PLATFORMS).wrapping_add(place);
        let mode = match self.mode {
            BuildMode::Build => 0,
            BuildMode::Test => 1,
        };
        package.wrapping_mul(2).wrapping_add(mode)
    }
}

impl Build {
    ghost use Rattle.std.specs.Prelude.{◌≡◌};
    ghost use Rattle.guppy_builds.specs.Builds.{built, tested};

    /// A target of the package is built for the platform.
    pub fn built(position: usize, place: BuildPlace) -> Self
        ensures { result ≡ built position place }
    {
        Build {
            position,
            place,
            mode: BuildMode::Build,
        }
    }

    /// One is built with the package's dev-dependencies.
    pub fn tested(position: usize, place: BuildPlace) -> Self
        ensures { result ≡ tested position place }
    {
        Build {
            position,
            place,
            mode: BuildMode::Test,
        }
    }
}
