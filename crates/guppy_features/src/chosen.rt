//! Which packages are asked for which features of a command line.
ghost use Rattle.std.specs.Prelude.{◌≡◌, ◌==◌, ℕ, ◌<◌, not, All, IfOk, IsTrue, MatchOption, Option, is_some, filter, length, map, option_map};
ghost use Rattle.std.specs.List.{filter_map, list_any};
ghost use Rattle.std.specs.Option.{IfSome};
ghost use Rattle.std.specs.Str.{bytes_eq};
ghost use Rattle.std.specs.String.{string_bytes};
ghost use Rattle.guppy_features.specs.Dependencies.{links_from};
ghost use Rattle.guppy_features.specs.Chosen.{AreWithin, IsRootFor, IsAnswer, IsFirstRefused, through, beside_root, chosen, chosen_of, has_dependency, has_feature, has_optional, has_slash, hides, initial, initials, is_accepted, is_accepted_at_root, is_at_root, is_beside, is_beside_with, is_hidden, is_named, is_other, seen_initial, seen_value, seen_wanted, standard_of, taken, taken_at_root, taken_by_name, taken_of};

use crate::options::{CargoResolverVersion, Initial, StandardFeatures};
use guppy_core::DependencyDirection;
use guppy_data::{NamedFeatureDep, Utf8Path};
use guppy_graph::RecordGraph;
use std::alloc::{AllocError, Global};

/// Why a command line's features are for no package.
#[derive(Clone, Copy, Debug, PartialEq, Eq)]
pub enum ChosenFault {
    /// Cargo refuses the one at this place: no chosen package has it.
    UnknownFeature(usize),
    /// Memory is wanted.
    OutOfMemory,
}

impl From<AllocError> for ChosenFault {
    ghost use Rattle.std.specs.Prelude.{◌≡◌};
    ghost use Rattle.guppy_features.specs.declared.chosen.ChosenFault.TheVariants.{OutOfMemory};

    ghost from_gives = { λ _ fault. fault ≡ OutOfMemory };

    fn from(_error: AllocError) -> Self {
        ChosenFault::OutOfMemory
    }
}

/// What each package is asked for by a command line that chooses the members at these positions, with these values of
/// `--features`, as Cargo has it that is called at the root of the workspace: what belongs into
/// [`CargoOptions::initials`](crate::CargoOptions::initials). There is one for each chosen member, in their order.
///
/// Each is asked for those of the features that it has, and for features of its dependencies, as `x/F` or `x?/F`; a
/// member that is called `x`, and has no dependency of this name, for its own feature F.
///
/// With resolver 1, in a workspace with a package at its root, that one is asked for all, and stands behind the others,
/// also where it isn't chosen. Other members are asked for features as `NAME/F` alone, and `--no-default-features` is
/// not for them.
///
/// Fails with `UnknownFeature`, with the place of the first of the features that Cargo refuses: none of these packages
/// has it, or one has an optional dependency of its name, which is used as `dep:x` alone; and `dep:x` itself, and what has
/// a second slash, as `x/F/G`. Whether a
/// dependency x has the feature F of `x/F` isn't looked at. Dependencies that the metadata lack count only if they are
/// optional. Else it fails with `OutOfMemory`, only where there is none.
///
/// Time grows with the features, for each member times the links that leave it. Takes memory for what is answered.
pub fn initials_for(
    graph: &RecordGraph,
    members: &[usize],
    features: &[NamedFeatureDep],
    standard: StandardFeatures,
    resolver: CargoResolverVersion,
) -> Result<Vec<Initial>, ChosenFault>
    requires { All (λ p. p < length graph.now.packages) members.now }
    ensures answer { (root : Option ℕ) × IsRootFor graph.now resolver root
        × IsAnswer (chosen graph.now members.now root) standard (map seen_value features.now) result }
    ensures within { IfOk result
        (λ initials. All (λ i. i.position < length graph.now.packages) initials.items) }
{
    let root = root_for(graph, resolver);
    let chosen = Chosen {
        graph,
        members,
        root,
    };
    if let Some(place) = chosen.first_refused(features) {
        return Err(ChosenFault::UnknownFeature(place));
    }
    Ok(chosen.initials(standard, features)?)
}

// With resolver 1, the position of the package at the workspace's root, if there is one.
fn root_for(graph: &RecordGraph, resolver: CargoResolverVersion) -> Option<usize>
    ensures root { IsRootFor graph.now resolver result }
    ensures within { IfSome result (λ position. position < length graph.now.packages) }
{
    match resolver {
        CargoResolverVersion::V1 => graph.position_of_path(Utf8Path::new("")),
        CargoResolverVersion::V2 | CargoResolverVersion::V3 => None,
    }
}

/// What a package takes of a value.
#[derive(Clone, Copy)]
enum Wanted<'a> {
    /// Its own feature.
    Own(&'a str),
    /// The feature of a dependency.
    Through {
        dep_name: &'a str,
        feature: &'a str,
        weak: bool,
    },
}

impl Wanted<'_> {
    // As a value.
    fn to_value(self, alloc: Global) -> Result<NamedFeatureDep, AllocError>
        ensures { IfOk result (λ value. seen_value value ≡ seen_wanted self.entry) }
    {
        match self {
            Wanted::Own(name) => Ok(NamedFeatureDep::NamedFeature(String::from_str(alloc, name)?)),
            Wanted::Through {
                dep_name,
                feature,
                weak,
            } => Ok(NamedFeatureDep::DependencyNamedFeature {
                dep_name: String::from_str(alloc, dep_name)?,
                feature: String::from_str(alloc, feature)?,
                weak,
            }),
        }
    }
}

/// The chosen members of a graph, and the package at its root where that one is asked for all.
#[derive(Clone, Copy)]
struct Chosen<'a> {
    graph: &'a RecordGraph,
    members: &'a [usize],
    root: Option<usize>,
}

impl Chosen<'_> {
    // The place of the first of the features that isn't accepted.
    fn first_refused(self, features: &[NamedFeatureDep]) -> Option<usize>
        requires { AreWithin (chosen_of self) }
        ensures { MatchOption result
            (All (λ v. IsTrue (is_accepted (chosen_of self.entry) v)) (map seen_value features.now))
            (IsFirstRefused (chosen_of self.entry) (map seen_value features.now)) }
    {
        for place in 0..features.len() {
            if !self.is_accepted(&features[place]) {
                return Some(place);
            }
        }
        None
    }

    // Whether Cargo accepts the feature.
    fn is_accepted(self, feature: &NamedFeatureDep) -> bool
        requires { AreWithin (chosen_of self) }
        ensures { result ≡ is_accepted (chosen_of self.entry) (seen_value feature.now) }
    {
        if has_slash(feature) {
            return false;
        }
        match self.root {
            Some(root) => self.is_accepted_at_root(root, feature),
            None => self.is_taken(feature) && !self.is_hidden(feature),
        }
    }

    // Whether a chosen member takes it.
    fn is_taken(self, feature: &NamedFeatureDep) -> bool
        requires { AreWithin (chosen_of self) }
        ensures { result ≡ list_any (λ p. is_some (taken self.entry.graph.now p (seen_value feature.now)))
            self.entry.members.now }
    {
        self.members
            .iter()
            .any(|position| taken(self.graph, *position, feature).is_some())
    }

    // Whether one hides it.
    fn is_hidden(self, feature: &NamedFeatureDep) -> bool
        requires { AreWithin (chosen_of self) }
        ensures { result ≡ list_any (λ p. hides self.entry.graph.now p (seen_value feature.now))
            self.entry.members.now }
    {
        self.members
            .iter()
            .any(|position| hides(self.graph, *position, feature))
    }

    // Whether Cargo accepts it where the package at the root is asked for all.
    fn is_accepted_at_root(self, root: usize, feature: &NamedFeatureDep) -> bool
        requires within { AreWithin (chosen_of self) }
        requires root { root < length self.graph.now.packages }
        ensures { result ≡ is_accepted_at_root (chosen_of self.entry) root (seen_value feature.now) }
    {
        match feature {
            NamedFeatureDep::NamedFeature(name) => has_feature(self.graph, root, name.as_str()),
            NamedFeatureDep::OptionalDependency(_) => false,
            NamedFeatureDep::DependencyNamedFeature {
                dep_name,
                feature,
                ..
            } => {
                if self.is_beside(root, dep_name.as_str()) {
                    self.is_beside_with(root, dep_name.as_str(), feature.as_str())
                } else {
                    has_dependency(self.graph, root, dep_name.as_str())
                }
            }
        }
    }

    // Whether the package is called so, and isn't the one at the root.
    fn is_other(self, root: usize, name: &str, position: usize) -> bool
        requires { position < length self.graph.now.packages }
        ensures { result ≡ is_other (chosen_of self.entry) root name.now position }
    {
        position != root && is_named(self.graph, position, name)
    }

    // Whether a chosen member beside the one at the root is called so.
    fn is_beside(self, root: usize, name: &str) -> bool
        requires { AreWithin (chosen_of self) }
        ensures { result ≡ is_beside (chosen_of self.entry) root name.now }
    {
        self.members
            .iter()
            .any(|position| self.is_other(root, name, *position))
    }

    // Whether one that is called so has the feature.
    fn is_beside_with(self, root: usize, name: &str, feature: &str) -> bool
        requires { AreWithin (chosen_of self) }
        ensures { result ≡ is_beside_with (chosen_of self.entry) root name.now feature.now }
    {
        self.members.iter().any(|position| {
            self.is_other(root, name, *position) && has_feature(self.graph, *position, feature)
        })
    }

    // The chosen members with what each is asked for, and behind them the package that is asked for all.
    fn initials(
        self,
        standard: StandardFeatures,
        features: &[NamedFeatureDep],
    ) -> Result<Vec<Initial>, AllocError>
        requires { AreWithin (chosen_of self) }
        ensures initials { IfOk result (λ answer. map seen_initial answer.items
            ≡ initials (chosen_of self.entry) standard (map seen_value features.now)) }
        ensures within { IfOk result
            (λ answer. All (λ i. i.position < length self.entry.graph.now.packages) answer.items) }
    {
        let mut initials = self.member_initials(standard, features)?;
        if let Some(root) = self.root {
            initials.push(self.initial(root, standard, features)?)?;
        }
        Ok(initials)
    }

    // The chosen members but the one that is asked for all.
    fn member_initials(
        self,
        standard: StandardFeatures,
        features: &[NamedFeatureDep],
    ) -> Result<Vec<Initial>, AllocError>
        requires { AreWithin (chosen_of self) }
        ensures initials { IfOk result (λ answer. map seen_initial answer.items
            ≡ map (initial (chosen_of self.entry) standard (map seen_value features.now))
            (filter (λ p. not (is_at_root (chosen_of self.entry) p)) self.entry.members.now)) }
        ensures within { IfOk result
            (λ answer. All (λ i. i.position < length self.entry.graph.now.packages) answer.items) }
    {
        let mut initials = Vec::new(self.graph.alloc());
        for position in self.members {
            if !self.is_at_root(*position) {
                initials.push(self.initial(*position, standard, features)?)?;
            }
        }
        Ok(initials)
    }

    // Whether the package is asked for all.
    fn is_at_root(self, position: usize) -> bool
        ensures { result ≡ is_at_root (chosen_of self.entry) position }
    {
        match self.root {
            Some(root) => position == root,
            None => false,
        }
    }

    // What the package is asked for.
    fn initial(
        self,
        position: usize,
        standard: StandardFeatures,
        features: &[NamedFeatureDep],
    ) -> Result<Initial, AllocError>
        requires within { AreWithin (chosen_of self) }
        requires position { position < length self.graph.now.packages }
        ensures { IfOk result (λ i. seen_initial i
            ≡ initial (chosen_of self.entry) standard (map seen_value features.now) position) }
    {
        Ok(Initial {
            position,
            standard: self.standard_of(position, standard),
            features: self.values_of(position, features)?,
        })
    }

    // Which standard features the package is asked for.
    fn standard_of(self, position: usize, standard: StandardFeatures) -> StandardFeatures
        ensures { result ≡ standard_of (chosen_of self.entry) position standard }
    {
        match self.root {
            Some(root) if position != root => beside_root(standard),
            _ => standard,
        }
    }

    // Which of the features the package is asked for.
    fn values_of(
        self,
        position: usize,
        features: &[NamedFeatureDep],
    ) -> Result<Vec<NamedFeatureDep>, AllocError>
        requires within { AreWithin (chosen_of self) }
        requires position { position < length self.graph.now.packages }
        ensures { IfOk result (λ values. map seen_value values.items
            ≡ filter_map (taken_of (chosen_of self.entry) position) (map seen_value features.now)) }
    {
        let mut values = Vec::new(self.graph.alloc());
        for feature in features {
            if let Some(wanted) = self.taken_of(position, feature) {
                values.push(wanted.to_value(self.graph.alloc())?)?;
            }
        }
        Ok(values)
    }

    // What the package takes of the feature.
    fn taken_of<'f>(self, position: usize, feature: &'f NamedFeatureDep) -> Option<Wanted<'f>>
        requires within { AreWithin (chosen_of self) }
        requires position { position < length self.graph.now.packages }
        ensures { option_map seen_wanted result
            ≡ taken_of (chosen_of self.entry) position (seen_value feature.now) }
    {
        match self.root {
            Some(root) => {
                if position == root {
                    self.taken_at_root(root, feature)
                } else {
                    taken_by_name(self.graph, position, feature)
                }
            }
            None => taken(self.graph, position, feature),
        }
    }

    // What the package at the root takes of it where it is asked for all: what isn't of another chosen member by its
    // name.
    fn taken_at_root<'f>(self, root: usize, feature: &'f NamedFeatureDep) -> Option<Wanted<'f>>
        requires { AreWithin (chosen_of self) }
        ensures { option_map seen_wanted result
            ≡ taken_at_root (chosen_of self.entry) root (seen_value feature.now) }
    {
        match feature {
            NamedFeatureDep::NamedFeature(name) => Some(Wanted::Own(name.as_str())),
            NamedFeatureDep::OptionalDependency(_) => None,
            NamedFeatureDep::DependencyNamedFeature {
                dep_name,
                feature,
                weak,
            } => {
                if self.is_beside(root, dep_name.as_str()) {
                    return None;
                }
                Some(Wanted::Through {
                    dep_name: dep_name.as_str(),
                    feature: feature.as_str(),
                    weak: *weak,
                })
            }
        }
    }
}

// Whether the name has a slash.
fn is_cut(name: &str) -> bool
    ensures { result ≡ list_any (λ b. b == 47) name.now }
{
    name.as_bytes().iter().any(|byte| *byte == b'/')
}

// Whether the feature of a dependency has a slash in its name.
fn has_slash(feature: &NamedFeatureDep) -> bool
    ensures { result ≡ has_slash (seen_value feature.now) }
{
    match feature {
        NamedFeatureDep::DependencyNamedFeature { feature, .. } => is_cut(feature.as_str()),
        _ => false,
    }
}

// `--no-default-features` is not for members beside the package that is asked for all.
fn beside_root(standard: StandardFeatures) -> StandardFeatures
    ensures { result ≡ beside_root standard }
{
    match standard {
        StandardFeatures::None => StandardFeatures::Default,
        standard => standard,
    }
}

// What a member takes of the feature beside the package that is asked for all: its own, behind its name.
fn taken_by_name<'f>(
    graph: &RecordGraph,
    position: usize,
    feature: &'f NamedFeatureDep,
) -> Option<Wanted<'f>>
    requires { position < length graph.now.packages }
    ensures { option_map seen_wanted result ≡ taken_by_name graph.now position (seen_value feature.now) }
{
    match feature {
        NamedFeatureDep::DependencyNamedFeature {
            dep_name,
            feature,
            ..
        } => {
            if is_named(graph, position, dep_name.as_str()) {
                Some(Wanted::Own(feature.as_str()))
            } else {
                None
            }
        }
        _ => None,
    }
}

// What the package takes of the feature where each is asked: its own, that of a dependency, and its own behind its
// name.
fn taken<'f>(
    graph: &RecordGraph,
    position: usize,
    feature: &'f NamedFeatureDep,
) -> Option<Wanted<'f>>
    requires { position < length graph.now.packages }
    ensures { option_map seen_wanted result ≡ taken graph.now position (seen_value feature.now) }
{
    match feature {
        NamedFeatureDep::NamedFeature(name) => {
            if has_feature(graph, position, name.as_str()) {
                Some(Wanted::Own(name.as_str()))
            } else {
                None
            }
        }
        NamedFeatureDep::OptionalDependency(_) => None,
        NamedFeatureDep::DependencyNamedFeature {
            dep_name,
            feature,
            weak,
        } => taken_through(graph, position, dep_name.as_str(), feature.as_str(), *weak),
    }
}

fn taken_through<'f>(
    graph: &RecordGraph,
    position: usize,
    dep_name: &'f str,
    feature: &'f str,
    weak: bool,
) -> Option<Wanted<'f>>
    requires { position < length graph.now.packages }
    ensures { option_map seen_wanted result ≡ taken graph.now position (through dep_name.now feature.now weak) }
{
    if has_dependency(graph, position, dep_name) {
        return Some(Wanted::Through {
            dep_name,
            feature,
            weak,
        });
    }
    if is_named(graph, position, dep_name) && has_feature(graph, position, feature) {
        Some(Wanted::Own(feature))
    } else {
        None
    }
}

// Whether it would take the feature but that this is hidden.
fn hides(graph: &RecordGraph, position: usize, feature: &NamedFeatureDep) -> bool
    requires { position < length graph.now.packages }
    ensures { result ≡ hides graph.now position (seen_value feature.now) }
{
    match feature {
        NamedFeatureDep::NamedFeature(name) => is_hidden(graph, position, name.as_str()),
        NamedFeatureDep::OptionalDependency(_) => false,
        NamedFeatureDep::DependencyNamedFeature {
            dep_name,
            feature,
            ..
        } => {
            !has_dependency(graph, position, dep_name.as_str())
                && is_named(graph, position, dep_name.as_str())
                && is_hidden(graph, position, feature.as_str())
        }
    }
}

// Whether the package has an optional dependency of this name, and no feature that is named so, too.
fn is_hidden(graph: &RecordGraph, position: usize, name: &str) -> bool
    requires { position < length graph.now.packages }
    ensures { result ≡ is_hidden graph.now position name.now }
{
    has_optional(graph, position, name) && !has_feature(graph, position, name)
}

fn is_named(graph: &RecordGraph, position: usize, name: &str) -> bool
    requires { position < length graph.now.packages }
    ensures { result ≡ is_named graph.now position name.now }
{
    graph.package_at(position).name.as_str() == name
}

fn has_feature(graph: &RecordGraph, position: usize, name: &str) -> bool
    requires { position < length graph.now.packages }
    ensures { result ≡ has_feature graph.now position name.now }
{
    let features = &graph.package_at(position).named_features;
    features.get_index_of(name).is_some()
}

fn has_optional(graph: &RecordGraph, position: usize, name: &str) -> bool
    requires { position < length graph.now.packages }
    ensures { result ≡ has_optional graph.now position name.now }
{
    let names = &graph.package_at(position).optional_deps;
    names.get_index_of(name).is_some()
}

// Whether the package has a dependency of this name.
fn has_dependency(graph: &RecordGraph, position: usize, name: &str) -> bool
    requires { position < length graph.now.packages }
    ensures { result ≡ has_dependency graph.now position name.now }
{
    has_optional(graph, position, name) || has_link(graph, position, name)
}

// Whether a link of this name leaves the package.
fn has_link(graph: &RecordGraph, position: usize, name: &str) -> bool
    requires { position < length graph.now.packages }
    ensures { result ≡ list_any (λ l. bytes_eq (string_bytes l.edge.dep_name) name.now)
        (links_from graph.now position) }
{
    let ix = graph.ix_at(position);
    for number in graph.dep_graph().links_of(ix, DependencyDirection::Forward) {
        if graph.link_at(*number).edge.dep_name.as_str() == name {
            return true;
        }
    }
    false
}
