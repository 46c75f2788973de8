ghost use Rattle.std.specs.Prelude.{◌≡◌, ℕ, ◌<◌, ◌^◌};

use std::fmt;

/// A position of a graph, as a number of a type of its own.
pub trait IndexType: Copy {
    // The position.
    ghost index_of: { Self → ℕ };

    /// The index of the position, which is below 2^32.
    fn new(position: usize) -> Self
        requires { position < 2 ^ 32 }
        ensures { index_of result ≡ position };

    /// The position.
    fn index(self) -> usize
        ensures position { result ≡ index_of self }
        ensures small { index_of self < 2 ^ 32 };
}

/// The position of a package. It prints its number.
#[derive(Clone, Copy, Debug, PartialEq, Eq, PartialOrd, Ord, Hash)]
pub struct PackageIx(u32);

impl IndexType for PackageIx {
    ghost index_of = { λ a. a.0 };

    fn new(position: usize) -> Self {
        PackageIx(position as u32)
    }

    fn index(self) -> usize {
        self.0 as usize
    }
}

impl fmt::Display for PackageIx {
    ghost use Rattle.std.specs.Prelude.{Some};
    ghost use Rattle.std.specs.Fmt.{decimal};

    ghost output = { λ p. Some (decimal p.0) };

    fn fmt<W: fmt::Write>(&self, f: &mut fmt::Formatter<W>) -> fmt::Result {
        write!(f, "{}", self.0)
    }
}

/// The types of a graph: what its nodes and its links hold, and its index type.
pub trait GraphSpec {
    /// What a node holds.
    type Node: Drop;

    /// What a link holds.
    type Edge: Drop;

    /// The positions of nodes.
    type Ix: IndexType;
}
