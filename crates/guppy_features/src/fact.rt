//! What may hold of a package.
use guppy_closure::Spread;

// More features than most packages have.
const PLACES: usize = 4096;

/// The side that a package is built for: that of build scripts and procedural macros with what these need, or that of
/// all else. With resolver 1 there is one side, `Target`.
#[derive(Clone, Copy, Debug, PartialEq, Eq, PartialOrd, Ord)]
pub enum BuildPlatform {
    /// The platform that is built for.
    Target,
    /// The platform that builds.
    Host,
}

/// What a fact says of its package.
#[derive(Clone, Copy, Debug, PartialEq, Eq, PartialOrd, Ord)]
pub enum FactKind {
    /// The package takes part on the side. Its place is 0.
    Part,
    /// There, the package's optional dependency of the place is switched on.
    Switched,
    /// There, the package's named feature of the place is on.
    Feature,
}

/// What may hold of a package on a side. A place is one in the package's record: of an optional dependency in
/// `optional_deps`, of a feature in `named_features`.
#[derive(Clone, Copy, Debug, PartialEq, Eq, PartialOrd, Ord)]
pub struct Fact {
    /// The position of the package.
    pub position: usize,
    /// The side.
    pub side: BuildPlatform,
    /// What is said.
    pub kind: FactKind,
    /// The place of the optional dependency or of the feature, from 0.
    pub place: usize,
}

impl Spread for Fact {
    fn spread(&self) -> usize {
        let package = self.position.wrapping_mul(PLACES).wrapping_add(self.place);
        package.wrapping_mul(6).wrapping_add(self.said())
    }
}

impl Fact {
    ghost use Rattle.std.specs.Prelude.{◌≡◌};
    ghost use Rattle.guppy_features.specs.Facts.{part, switched, feature};

    /// The package takes part on the side.
    pub fn part(position: usize, side: BuildPlatform) -> Self
        ensures { result ≡ part position side }
    {
        Fact {
            position,
            side,
            kind: FactKind::Part,
            place: 0,
        }
    }

    /// On the side, the package's optional dependency of the place is switched on.
    pub fn switched(position: usize, side: BuildPlatform, place: usize) -> Self
        ensures { result ≡ switched position side place }
    {
        Fact {
            position,
            side,
            kind: FactKind::Switched,
            place,
        }
    }

    /// On the side, the package's named feature of the place is on.
    pub fn feature(position: usize, side: BuildPlatform, place: usize) -> Self
        ensures { result ≡ feature position side place }
    {
        Fact {
            position,
            side,
            kind: FactKind::Feature,
            place,
        }
    }

    // A number for what is said of which side.
    fn said(&self) -> usize {
        match (self.side, self.kind) {
            (BuildPlatform::Target, FactKind::Part) => 0,
            (BuildPlatform::Target, FactKind::Switched) => 1,
            (BuildPlatform::Target, FactKind::Feature) => 2,
            (BuildPlatform::Host, FactKind::Part) => 3,
            (BuildPlatform::Host, FactKind::Switched) => 4,
            (BuildPlatform::Host, FactKind::Feature) => 5,
        }
    }
}
