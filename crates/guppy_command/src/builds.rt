//! What is said of builds.
ghost use Rattle.std.specs.Prelude.{◌≡◌, ◌++◌, OnOk};
ghost use Rattle.guppy_command.specs.Builds.{features_of, resolver_of, spaced};
ghost use Rattle.guppy_command.specs.Shown.{texts};

use guppy_features::CargoResolverVersion;
use std::alloc::AllocError;

/// The resolver that the word names. Takes constant time, and no memory.
pub fn resolver_of(word: &str) -> Option<CargoResolverVersion>
    ensures { result ≡ resolver_of word.now }
{
    if word == "1" {
        Some(CargoResolverVersion::V1)
    } else if word == "2" {
        Some(CargoResolverVersion::V2)
    } else if word == "3" {
        Some(CargoResolverVersion::V3)
    } else {
        None
    }
}

// Adds what stands between spaces, where that is anything.
fn add_spaced<'a>(features: &mut Vec<&'a str>, text: &'a str) -> Result<(), AllocError>
    ensures { OnOk result (texts features.new.items ≡ texts features.old.items ++ spaced text.now) }
{
    for word in text.split(' ') {
        if !word.is_empty() {
            features.push(word)?;
        }
    }
    Ok(())
}

/// Adds the features that the value names, parted by commas and spaces. Takes time linear in it, and memory for a
/// reference a feature.
pub fn add_features<'a>(features: &mut Vec<&'a str>, value: &'a str) -> Result<(), AllocError>
    ensures { OnOk result (texts features.new.items
        ≡ texts features.old.items ++ features_of value.now) }
{
    for text in value.split(',') {
        add_spaced(features, text)?;
    }
    Ok(())
}
