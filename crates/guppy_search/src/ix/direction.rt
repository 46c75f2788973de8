ghost use Rattle.std.specs.Prelude.{◌≡◌};

/// The direction in which a query follows links.
#[derive(Clone, Copy, Debug, PartialEq, Eq)]
pub enum DependencyDirection {
    /// From dependents to their dependencies.
    Forward,
    /// From dependencies to their dependents.
    Reverse,
}

impl DependencyDirection {
    ghost use Rattle.guppy_search.specs.Links.{opposite};

    /// The other direction.
    pub fn opposite(self) -> Self
        ensures { result ≡ opposite self }
    {
        match self {
            DependencyDirection::Forward => DependencyDirection::Reverse,
            DependencyDirection::Reverse => DependencyDirection::Forward,
        }
    }
}
