ghost use Rattle.std.specs.Prelude.{◌≡◌, IfOk};
ghost use Rattle.guppy_data.specs.NamedFeature.{NamesDependency, IsFeature};
ghost use Rattle.guppy_data.specs.Texts.{named_feature_text};

use std::alloc::{AllocError, Global};
use std::fmt;

/// What a named feature turns on.
#[derive(Debug, Drop, PartialEq, Eq)]
pub enum NamedFeatureDep {
    /// Another named feature of the package.
    NamedFeature(String),
    /// An optional dependency.
    OptionalDependency(String),
    /// A feature of a dependency; a weak one doesn't turn the dependency on.
    DependencyNamedFeature {
        dep_name: String,
        feature: String,
        weak: bool,
    },
}

// The name of a dependency, and whether a `?` behind it says that it is a weak one.
fn without_mark(dependency: &str) -> (&str, bool)
    ensures { NamesDependency dependency.now result.0.now result.1 }
{
    match dependency.strip_suffix("?") {
        Some(name) => (name, true),
        None => (dependency, false),
    }
}

impl NamedFeatureDep {
    /// What the text of a feature switches on: `F`, `dep:x`, `x/F` or `x?/F`. The text is what is printed of it.
    ///
    /// Takes time linear in the text, and memory for a copy of its names.
    pub fn from_text(alloc: Global, text: &str) -> Result<Self, AllocError>
        ensures read { IfOk result (IsFeature text.now) }
        ensures printed { IfOk result (λ feature. named_feature_text feature ≡ text.now) }
    {
        if let Some((dependency, feature)) = text.split_once("/") {
            let (dep_name, weak) = without_mark(dependency);
            return Ok(NamedFeatureDep::DependencyNamedFeature {
                dep_name: String::from_str(alloc, dep_name)?,
                feature: String::from_str(alloc, feature)?,
                weak,
            });
        }
        match text.strip_prefix("dep:") {
            Some(dep_name) => {
                let dep_name = String::from_str(alloc, dep_name)?;
                Ok(NamedFeatureDep::OptionalDependency(dep_name))
            }
            None => {
                let feature = String::from_str(alloc, text)?;
                Ok(NamedFeatureDep::NamedFeature(feature))
            }
        }
    }
}

impl fmt::Display for NamedFeatureDep {
    ghost use Rattle.std.specs.Prelude.{Some};
    ghost use Rattle.guppy_data.specs.Texts.{named_feature_text};

    ghost output = { λ d. Some (named_feature_text d) };

    fn fmt<W: fmt::Write>(&self, f: &mut fmt::Formatter<W>) -> fmt::Result {
        match self {
            NamedFeatureDep::NamedFeature(feature) => write!(f, "{feature}"),
            NamedFeatureDep::OptionalDependency(dep_name) => write!(f, "dep:{dep_name}"),
            NamedFeatureDep::DependencyNamedFeature {
                dep_name,
                feature,
                weak: false,
            } => write!(f, "{dep_name}/{feature}"),
            NamedFeatureDep::DependencyNamedFeature {
                dep_name,
                feature,
                weak: true,
            } => write!(f, "{dep_name}?/{feature}"),
        }
    }
}
