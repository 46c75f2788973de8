//! Which optional dependencies are resolved.
ghost use Rattle.std.specs.Prelude.{◌≡◌};
ghost use Rattle.std.specs.List.{list_any};
ghost use Rattle.guppy_features.specs.Dependencies.{seen_dependency};
ghost use Rattle.guppy_features.specs.Resolved.{is_optional_called};

use crate::dependencies::Dependency;
use guppy_data::PlatformStatus;

// Whether the dependency is optional, has the name, and is there on some platform.
fn is_optional_called(dependency: &Dependency<'_>, name: &str) -> bool
    ensures { result ≡ is_optional_called name.now (seen_dependency dependency.now) }
{
    dependency.is_optional
        && dependency.name == name
        && PlatformStatus::new(&dependency.part.build_if).is_present()
}

/// Whether one of the dependencies is so.
pub(crate) fn has_optional(dependencies: &[Dependency<'_>], name: &str) -> bool
    ensures { result ≡ list_any (λ d. is_optional_called name.now (seen_dependency d)) dependencies.now }
{
    dependencies
        .iter()
        .any(|dependency| is_optional_called(dependency, name))
}
