ghost use Rattle.std.specs.Prelude.{◌≡◌, ℕ, ◌<◌, [], ◌∷◌, length, All, MatchOption, IfOk, IfErr, OnOk, IsOk};
ghost use Rattle.std.specs.Slice.Iter.{iter_rest};
ghost use Rattle.guppy_graph.specs.Ids.{IsKnown, ix_position};
ghost use Rattle.guppy_graph.specs.Refused.{NamesId, IsFirstUnknown};

use crate::link::PackageLink;
use crate::metadata::PackageMetadata;
use crate::package_graph::PackageGraph;
use guppy_core::{DependencyDirection, PackageIx};
use guppy_data::{Error, PackageId};
use std::slice;

impl<'g> PackageMetadata<'g> {
    ghost use Rattle.guppy.specs.Views.{graph_of, graph_packages, package_position};
    ghost use Rattle.guppy.specs.DirectLinks.{links_leaving, links_left, IsLinkFrom, IsLinkBetween};

    /// The links that leave this package in the direction, ascending by number: Forward those to its
    /// dependencies, Reverse those from its dependents. A link from the package to itself is among
    /// both. Takes no memory and constant time.
    pub fn direct_links_directed(self, direction: DependencyDirection) -> PackageLinks<'g>
        ensures { links_left result ≡ links_leaving self.entry direction }
    {
        PackageLinks {
            graph: self.graph,
            rest: self
                .graph
                .dep_graph()
                .links_of(self.package_ix(), direction)
                .iter(),
        }
    }

    /// The links from this package to its dependencies, ascending by number. Takes no memory and
    /// constant time.
    pub fn direct_links(self) -> PackageLinks<'g>
        ensures { links_left result ≡ links_leaving self.entry DependencyDirection.Forward }
    {
        self.direct_links_directed(DependencyDirection::Forward)
    }

    /// The links from this package's dependents to it, ascending by number. Takes no memory and
    /// constant time.
    pub fn reverse_direct_links(self) -> PackageLinks<'g>
        ensures { links_left result ≡ links_leaving self.entry DependencyDirection.Reverse }
    {
        self.direct_links_directed(DependencyDirection::Reverse)
    }

    /// The link between this package and the one with the ID, if there is one; there is at most one:
    /// Forward the link from this package to the other, Reverse the link from the other to this one.
    ///
    /// `UnknownPackageId` tells an ID that is no package's. Time grows with the logarithm of the
    /// packages, and with the links from the dependent to its dependencies. Takes memory only for that
    /// error's copy of the ID.
    pub fn link_between(
        self,
        other_id: &PackageId,
        direction: DependencyDirection,
    ) -> Result<Option<PackageLink<'g>>, Error>
        ensures known { OnOk result (IsKnown (graph_packages self.entry) other_id.now) }
        ensures found { IfOk result (IsLinkBetween self.entry direction other_id.now) }
        ensures answered { IsKnown (graph_packages self.entry) other_id.now → IsOk result }
        ensures unknown { IfErr result
            (NamesId (IsFirstUnknown (graph_packages self.entry) (other_id.now ∷ []))) }
    {
        let other = self.graph.ix_of(other_id)?;
        match self.number_between(other, direction) {
            Some(number) => Ok(Some(PackageLink {
                graph: self.graph,
                number,
            })),
            None => Ok(None),
        }
    }

    // The number of the link between this package and the other, as `link_between` says.
    fn number_between(self, other: PackageIx, direction: DependencyDirection) -> Option<usize>
        requires { ix_position other < length (graph_packages self) }
        ensures { MatchOption result
            ((n : ℕ) → ¬ IsLinkFrom (graph_of self.entry).now direction
            (package_position self.entry) (ix_position other) n)
            (IsLinkFrom (graph_of self.entry).now direction (package_position self.entry)
            (ix_position other)) }
    {
        let graph = self.graph.dep_graph();
        match direction {
            DependencyDirection::Forward => graph.find_link(self.package_ix(), other),
            DependencyDirection::Reverse => graph.find_link(other, self.package_ix()),
        }
    }

    /// The link from this package to the one with the ID, if there is one: `link_between` Forward.
    pub fn link_to(self, other_id: &PackageId) -> Result<Option<PackageLink<'g>>, Error>
        ensures known { OnOk result (IsKnown (graph_packages self.entry) other_id.now) }
        ensures found { IfOk result (IsLinkBetween self.entry DependencyDirection.Forward
            other_id.now) }
        ensures answered { IsKnown (graph_packages self.entry) other_id.now → IsOk result }
        ensures unknown { IfErr result
            (NamesId (IsFirstUnknown (graph_packages self.entry) (other_id.now ∷ []))) }
    {
        self.link_between(other_id, DependencyDirection::Forward)
    }

    /// The link from the package with the ID to this one, if there is one: `link_between` Reverse.
    pub fn link_from(self, other_id: &PackageId) -> Result<Option<PackageLink<'g>>, Error>
        ensures known { OnOk result (IsKnown (graph_packages self.entry) other_id.now) }
        ensures found { IfOk result (IsLinkBetween self.entry DependencyDirection.Reverse
            other_id.now) }
        ensures answered { IsKnown (graph_packages self.entry) other_id.now → IsOk result }
        ensures unknown { IfErr result
            (NamesId (IsFirstUnknown (graph_packages self.entry) (other_id.now ∷ []))) }
    {
        self.link_between(other_id, DependencyDirection::Reverse)
    }
}

/// Links of a graph that are still to come. Its `len` and its `size_hint` are exact.
#[derive(Drop)]
pub struct PackageLinks<'g> {
    graph: &'g PackageGraph,
    rest: slice::Iter<'g, usize>,
    ghost in_graph: { All (λ n. n < length graph.now.links) (iter_rest rest) },
}

impl<'g> Iterator for PackageLinks<'g> {
    ghost use Rattle.std.specs.Prelude.{Some, IfSome};
    ghost use Rattle.std.specs.Iterator.{YieldsFirstBy, UpTo, item_count};
    ghost use Rattle.std.specs.Iterator.SizeHint.{IsWithinCount};
    ghost use Rattle.guppy.specs.Views.{link_seen};
    ghost use Rattle.guppy.specs.DirectLinks.{links_left};

    type Item = PackageLink<'g>;

    ghost next_gives = { YieldsFirstBy link_seen links_left };

    ghost remaining = { item_count links_left };

    fn next(&mut self) -> Option<PackageLink<'g>> {
        match self.rest.next() {
            Some(number) => Some(PackageLink {
                graph: self.graph,
                number: *number,
            }),
            None => None,
        }
    }

    fn size_hint(&self) -> (usize, Option<usize>)
        ensures lower { IsWithinCount result.0 (item_count links_left self.now) }
        ensures upper { IfSome result.1 (UpTo (item_count links_left self.now)) }
        ensures exact { let n = length (links_left self.now) in result ≡ (n, Some n) }
    {
        (self.len(), Some(self.len()))
    }
}

impl ExactSizeIterator for PackageLinks<'_> {
    fn len(&self) -> usize {
        self.rest.len()
    }
}
