//! Which features of a package are on.
ghost use Rattle.std.specs.Prelude.{◌≡◌, ◌↔◌, ◌<◌, IfOk, IsTrue, Some, length, map, slice_get};
ghost use Rattle.guppy_builds.specs.Places.{features_side};
ghost use Rattle.guppy_built.specs.Rows.{IsFeatureOn, feature_names};
ghost use Rattle.guppy_built.specs.Those.{AreThose};

use guppy_builds::BuildPlace;
use guppy_data::PackageRecord;
use guppy_features::{BuildPlatform, CargoSet};
use std::alloc::{AllocError, Global};

/// The side whose features what is built there has.
pub(crate) fn side_at(set: &CargoSet<'_>, place: BuildPlace) -> BuildPlatform
    ensures { result ≡ features_side set.now place }
{
    if set.asked().splits() {
        place.side()
    } else {
        BuildPlatform::Target
    }
}

/// Whether the package's feature of the name is on on the side.
pub(crate) fn is_feature_on(
    set: &CargoSet<'_>,
    position: usize,
    side: BuildPlatform,
    name: &str,
) -> bool
    requires { position < length set.now.graph.packages }
    ensures { IsTrue result ↔ IsFeatureOn set.now position side name.now }
{
    match set.asked().feature(position, side, name) {
        Some(fact) => set.contains(fact),
        None => false,
    }
}

/// The names of the package's features that are on on the side, in the record's order.
pub(crate) fn features_on<'a>(
    alloc: Global,
    set: &CargoSet<'_>,
    position: usize,
    side: BuildPlatform,
    package: &'a PackageRecord,
) -> Result<Vec<&'a str>, AllocError>
    requires { slice_get set.now.graph.packages position ≡ Some «package».now }
    ensures { IfOk result (λ names. AreThose (IsFeatureOn set.now position side)
        (feature_names «package».now) (map (λ name. name.now) names.items)) }
{
    let mut names = Vec::new(alloc);
    for name in package.named_features.keys() {
        if is_feature_on(set, position, side, name.as_str()) {
            names.push(name.as_str())?;
        }
    }
    Ok(names)
}
