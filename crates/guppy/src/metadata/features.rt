ghost use Rattle.std.specs.Prelude.{◌≡◌, ◌↔◌, ◌+◌, ◌^◌, ◌<◌, IsTrue, length, codes, map};
ghost use Rattle.std.specs.List.{enumerate_from};
ghost use Rattle.std.specs.String.{string_bytes};
ghost use Rattle.std.specs.Slice.Iter.{iter_rest};
ghost use Rattle.indexmap.specs.IndexMap.{keys};
ghost use Rattle.guppy.specs.Features.{HasFeature, numbered_feature, numbered_dep};

use crate::metadata::PackageMetadata;
use guppy_data::NamedFeatureDep;
use indexmap::map;
use std::slice;

/// A feature of a package, by its place in the package's record.
#[derive(Clone, Copy, Debug, PartialEq, Eq)]
pub enum FeatureIndexInPackage {
    /// The package without any feature.
    Base,
    /// The optional dependency of this place, from 0.
    OptionalDependency(usize),
    /// The named feature of this place, from 0.
    Named(usize),
}

impl<'g> PackageMetadata<'g> {
    ghost use Rattle.guppy.specs.Views.{OfPackage};
    ghost use Rattle.guppy.specs.FeatureIterators.{names_left, features_left, deps_left};

    /// Whether the package has a named feature `default`. Takes constant time on average.
    pub fn has_default_feature(self) -> bool
        ensures { OfPackage self.entry (λ r. IsTrue result ↔ HasFeature r (codes "default")) }
    {
        self.record().named_features.contains_key("default")
    }

    /// The names of the named features, in the order of the record.
    pub fn named_features(self) -> NamedFeatures<'g>
        ensures { OfPackage self.entry
            (λ r. names_left result ≡ map string_bytes (keys r.named_features)) }
    {
        NamedFeatures {
            rest: self.record().named_features.keys(),
        }
    }

    /// The named features in the order of the record, each with its place, its name and what it
    /// switches on.
    pub fn named_features_full(self) -> NamedFeaturesFull<'g>
        ensures { OfPackage self.entry
            (λ r. features_left result ≡ map numbered_feature
            (enumerate_from 0 r.named_features.entries)) }
    {
        NamedFeaturesFull {
            place: 0,
            rest: self.record().named_features.iter(),
        }
    }

    /// The optional dependencies in the order of the record, each with its place and its name.
    pub fn optional_deps_full(self) -> OptionalDepsFull<'g>
        ensures { OfPackage self.entry
            (λ r. deps_left result ≡ map numbered_dep (enumerate_from 0 r.optional_deps.keys)) }
    {
        OptionalDepsFull {
            place: 0,
            rest: self.record().optional_deps.as_slice().iter(),
        }
    }
}

/// The names of named features that are still to come. Its `len` and its `size_hint` are exact.
#[derive(Drop)]
pub struct NamedFeatures<'g> {
    rest: map::Keys<'g, String, Vec<NamedFeatureDep>>,
}

impl<'g> Iterator for NamedFeatures<'g> {
    ghost use Rattle.std.specs.Prelude.{Some, IfSome};
    ghost use Rattle.std.specs.Iterator.{YieldsFirstRef, UpTo, item_count};
    ghost use Rattle.std.specs.Iterator.SizeHint.{IsWithinCount};
    ghost use Rattle.guppy.specs.FeatureIterators.{names_left};

    type Item = &'g str;

    ghost next_gives = { YieldsFirstRef names_left };

    ghost remaining = { item_count names_left };

    fn next(&mut self) -> Option<&'g str> {
        match self.rest.next() {
            Some(name) => Some(name.as_str()),
            None => None,
        }
    }

    fn size_hint(&self) -> (usize, Option<usize>)
        ensures lower { IsWithinCount result.0 (item_count names_left self.now) }
        ensures upper { IfSome result.1 (UpTo (item_count names_left self.now)) }
        ensures exact { let n = length (names_left self.now) in result ≡ (n, Some n) }
    {
        (self.len(), Some(self.len()))
    }
}

impl ExactSizeIterator for NamedFeatures<'_> {
    fn len(&self) -> usize {
        self.rest.len()
    }
}

/// The named features that are still to come, each with its place, its name and what it switches
/// on. Its `len` and its `size_hint` are exact.
#[derive(Drop)]
pub struct NamedFeaturesFull<'g> {
    place: usize,
    rest: map::Iter<'g, String, Vec<NamedFeatureDep>>,
    ghost fits: { place + length rest < 2 ^ 63 },
}

impl<'g> Iterator for NamedFeaturesFull<'g> {
    ghost use Rattle.std.specs.Prelude.{Some, IfSome};
    ghost use Rattle.std.specs.Iterator.{YieldsFirstBy, UpTo, item_count};
    ghost use Rattle.std.specs.Iterator.SizeHint.{IsWithinCount};
    ghost use Rattle.guppy.specs.FeatureIterators.{feature_seen, features_left};

    type Item = (FeatureIndexInPackage, &'g str, &'g [NamedFeatureDep]);

    ghost next_gives = { YieldsFirstBy feature_seen features_left };

    ghost remaining = { item_count features_left };

    fn next(&mut self) -> Option<(FeatureIndexInPackage, &'g str, &'g [NamedFeatureDep])> {
        match self.rest.next() {
            Some((name, deps)) => {
                let index = FeatureIndexInPackage::Named(self.place);
                self.place += 1;
                Some((index, name.as_str(), deps.as_slice()))
            }
            None => None,
        }
    }

    fn size_hint(&self) -> (usize, Option<usize>)
        ensures lower { IsWithinCount result.0 (item_count features_left self.now) }
        ensures upper { IfSome result.1 (UpTo (item_count features_left self.now)) }
        ensures exact { let n = length (features_left self.now) in result ≡ (n, Some n) }
    {
        (self.len(), Some(self.len()))
    }
}

impl ExactSizeIterator for NamedFeaturesFull<'_> {
    fn len(&self) -> usize {
        self.rest.len()
    }
}

/// The optional dependencies that are still to come, each with its place and its name. Its `len`
/// and its `size_hint` are exact.
#[derive(Drop)]
pub struct OptionalDepsFull<'g> {
    place: usize,
    rest: slice::Iter<'g, String>,
    ghost fits: { place + length (iter_rest rest) < 2 ^ 63 },
}

impl<'g> Iterator for OptionalDepsFull<'g> {
    ghost use Rattle.std.specs.Prelude.{Some, IfSome};
    ghost use Rattle.std.specs.Iterator.{YieldsFirstBy, UpTo, item_count};
    ghost use Rattle.std.specs.Iterator.SizeHint.{IsWithinCount};
    ghost use Rattle.guppy.specs.FeatureIterators.{dep_seen, deps_left};

    type Item = (FeatureIndexInPackage, &'g str);

    ghost next_gives = { YieldsFirstBy dep_seen deps_left };

    ghost remaining = { item_count deps_left };

    fn next(&mut self) -> Option<(FeatureIndexInPackage, &'g str)> {
        match self.rest.next() {
            Some(name) => {
                let index = FeatureIndexInPackage::OptionalDependency(self.place);
                self.place += 1;
                Some((index, name.as_str()))
            }
            None => None,
        }
    }

    fn size_hint(&self) -> (usize, Option<usize>)
        ensures lower { IsWithinCount result.0 (item_count deps_left self.now) }
        ensures upper { IfSome result.1 (UpTo (item_count deps_left self.now)) }
        ensures exact { let n = length (deps_left self.now) in result ≡ (n, Some n) }
    {
        (self.len(), Some(self.len()))
    }
}

impl ExactSizeIterator for OptionalDepsFull<'_> {
    fn len(&self) -> usize {
        self.rest.len()
    }
}
