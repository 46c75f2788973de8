//! What a command answers of a package graph.

use guppy::PackageId;
use guppy_built::{BuiltPackage, FeatureOn, NamedReason};
use guppy_command::Kinds;
use guppy_dot::Drawing;

/// A package to which a walk of links leads.
#[derive(Clone, Copy, Debug)]
pub struct Step<'g> {
    /// The package.
    pub id: &'g PackageId,
    /// The kinds of the sections of the link that leads to it: none at the first package.
    pub kinds: Kinds,
}

/// A link.
#[derive(Clone, Copy, Debug)]
pub struct LinkEnds<'g> {
    /// The package that it goes from.
    pub from: &'g PackageId,
    /// The package that it goes to.
    pub to: &'g PackageId,
    /// The kinds of its sections.
    pub kinds: Kinds,
}

/// What a command answers. The graph has the IDs.
#[derive(Debug, Drop)]
pub enum Answer<'g> {
    /// A set of packages.
    Set(Vec<&'g PackageId>),
    /// Packages in an order.
    List(Vec<&'g PackageId>),
    /// Links.
    Links(Vec<LinkEnds<'g>>),
    /// Packages that belong together, as those of a cycle.
    Rows(Vec<Vec<&'g PackageId>>),
    /// Packages, each with those that need it.
    Needs(Vec<Vec<&'g PackageId>>),
    /// The packages of a walk.
    Steps(Vec<Step<'g>>),
    /// What Cargo builds.
    Built(Vec<BuiltPackage<'g>>),
    /// Why a feature is on.
    Reasons(Vec<NamedReason<'g>>),
    /// The features that are on.
    Features(Vec<FeatureOn<'g>>),
    /// Whether something holds.
    Truth(bool),
    /// All is well.
    AllWell,
    /// Packages and links as they are drawn.
    Drawing(Drawing<'g>),
}
