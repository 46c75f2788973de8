use std::fmt;

/// The section of a manifest that asks for a dependency.
#[derive(Clone, Copy, Debug, PartialEq, Eq, Hash)]
pub enum DependencyKind {
    /// Asked for wherever the package is built.
    Normal,
    /// Asked for by tests, benchmarks and examples.
    Development,
    /// Asked for by the build script.
    Build,
}

impl DependencyKind {
    ghost use Rattle.std.specs.Prelude.{◌≡◌};
    ghost use Rattle.guppy_data.specs.Texts.{dependency_kind_text};

    /// Each kind once, in the order of their declaration.
    pub const VALUES: &'static [DependencyKind; 3] = &[
        DependencyKind::Normal,
        DependencyKind::Development,
        DependencyKind::Build,
    ];

    /// `normal`, `dev` or `build`.
    pub fn to_str(self) -> &'static str
        ensures { result.now ≡ dependency_kind_text self }
    {
        match self {
            DependencyKind::Normal => "normal",
            DependencyKind::Development => "dev",
            DependencyKind::Build => "build",
        }
    }
}

impl fmt::Display for DependencyKind {
    ghost use Rattle.std.specs.Prelude.{Some};
    ghost use Rattle.guppy_data.specs.Texts.{dependency_kind_text};

    ghost output = { λ k. Some (dependency_kind_text k) };

    fn fmt<W: fmt::Write>(&self, f: &mut fmt::Formatter<W>) -> fmt::Result {
        f.write_str(self.to_str())
    }
}
