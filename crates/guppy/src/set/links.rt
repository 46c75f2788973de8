//! The walk over the links of a set.
ghost use Rattle.std.specs.Prelude.{◌<◌, All, length, IfOk, IsOkUnless};

use crate::link::PackageLink;
use crate::package_graph::{PackageGraph, Packages};
use crate::set::PackageSet;
use guppy_core::{DependencyDirection, Links};
use guppy_data::Error;

impl<'g> PackageSet<'g> {
    ghost use Rattle.guppy.specs.Walked.{AreWalkedLinks, AreLinksInside, IsWhole, walked_left};

    /// The links inside the set, those with both ends in it, that are walked from its roots: the end
    /// that a link leaves in the direction is a root of the set in that direction, as
    /// [`root_ids`](PackageSet::root_ids) gives them, or is reached from one over links inside the
    /// set. Each comes once, also a link from a package to itself, and a link to a package that was
    /// met before. A link that leaves no root comes after one that leads to the package that it leaves.
    ///
    /// A set that holds each component that it touches has all links inside it walked. Every plain
    /// resolve gives such a set ([`laws::resolved_sets_are_whole`](crate::set::laws::resolved_sets_are_whole)).
    ///
    /// Time grows with the packages, and the links that leave packages of the set. Takes memory for
    /// some numbers a package and a link, and fails, with `OutOfMemory`, only where there is none. The
    /// iterator takes none.
    pub fn links(&self, direction: DependencyDirection) -> Result<WalkedLinks<'g>, Error>
        ensures walked { IfOk result
            (λ links. AreWalkedLinks direction self.now (walked_left links)) }
        ensures all { IfOk result (λ links. IsWhole self.now
            → AreLinksInside self.now (walked_left links)) }
        ensures error { IsOkUnless result Error.OutOfMemory }
    {
        let graph = self.graph;
        let rest = self.core.links(graph.dep_graph(), graph.sccs(), direction)?;
        Ok(WalkedLinks { graph, rest })
    }
}

/// The links of a set that are walked from its roots, those that are still to come.
#[derive(Drop)]
pub struct WalkedLinks<'g> {
    graph: &'g PackageGraph,
    rest: Links<'g, Packages>,
    ghost in_graph: { All (λ l. l.number < length graph.now.links) rest },
}

impl<'g> Iterator for WalkedLinks<'g> {
    ghost use Rattle.std.specs.Iterator.{YieldsFirstBy, item_count};
    ghost use Rattle.guppy.specs.Views.{link_data};
    ghost use Rattle.guppy.specs.Walked.{walked_left};

    type Item = PackageLink<'g>;

    ghost next_gives = { YieldsFirstBy link_data walked_left };

    ghost remaining = { item_count walked_left };

    fn next(&mut self) -> Option<PackageLink<'g>> {
        match self.rest.next() {
            Some((_, _, number)) => Some(PackageLink {
                graph: self.graph,
                number,
            }),
            None => None,
        }
    }
}
