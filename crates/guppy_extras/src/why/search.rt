//! A breadth-first search over the links of a graph.
ghost use Rattle.std.specs.Prelude.{◌≡◌, ℕ, ◌+◌, ◌<◌, List, ◌∷◌, length, map, All, IfOk, IfSome, OnOk, IfNone, Some, slice_get};
ghost use Rattle.guppy_graph.specs.Ids.{ix_position};
ghost use Rattle.guppy.specs.Views.{graph_of, package_position, link_graph, link_number};
ghost use Rattle.guppy_extras.specs.Walk.{IsWalk, NoWalk};
ghost use Rattle.guppy_extras.specs.Nodes.{Node, AreKept};
ghost use Rattle.guppy_extras.specs.Searches.{nodes_of, links_beside, IsUnderWay, IsFollowing, IsPlaceOf};

use guppy::graph::PackageIx;
use guppy::positions::IxSet;
use guppy::{PackageLink, PackageMetadata, Packages};
use std::alloc::AllocError;

/// A package that was found, with a shortest walk to it.
#[derive(Clone, Copy)]
pub(crate) struct Found<'g> {
    metadata: PackageMetadata<'g>,
    // How many links the walk has.
    distance: usize,
    // The last of them, and the place of the package that it leaves. None at the start.
    last: Option<(PackageLink<'g>, usize)>,
}

/// A search from a package on: what it found so far, in order, and which packages these are.
#[derive(Drop)]
pub(crate) struct Search<'g> {
    start: PackageMetadata<'g>,
    found: Vec<Found<'g>>,
    seen: IxSet<Packages>,
}

impl<'g> Search<'g> {
    /// The search that found its start alone.
    pub(crate) fn new(start: PackageMetadata<'g>) -> Result<Self, AllocError>
        ensures start { IfOk result (λ s. s.start ≡ start.entry) }
        ensures under_way { IfOk result (λ s. IsUnderWay s 0) }
    {
        let graph = start.graph();
        let mut seen = IxSet::empty(graph.alloc(), graph.package_count())?;
        seen.insert(start.package_ix());
        let mut found = Vec::new(graph.alloc());
        found.push(Found {
            metadata: start,
            distance: 0,
            last: None,
        })?;
        Ok(Search { start, found, seen })
    }

    // Finds the end of the link, which leaves the package at the place, unless it was seen before.
    fn follow(&mut self, link: PackageLink<'g>, place: usize) -> Result<(), AllocError>
        requires under_way { IsUnderWay self.old place }
        requires within { place < length self.old.found.items }
        requires graph { link_graph link ≡ graph_of self.old.start }
        ensures start { self.new.start ≡ self.old.start }
        ensures kept { OnOk result (AreKept (nodes_of self.old) (nodes_of self.new)) }
        ensures followed { OnOk result ((left : List ℕ)
            → IsFollowing self.old place (link_number link.entry ∷ left)
            → IsFollowing self.new place left) }
    {
        let metadata = link.to();
        if self.seen.insert(metadata.package_ix()) {
            let distance = self.found[place].distance + 1;
            self.found.push(Found {
                metadata,
                distance,
                last: Some((link, place)),
            })?;
        }
        Ok(())
    }

    // Follows the links that leave the package at the place.
    fn follow_links(&mut self, place: usize) -> Result<(), AllocError>
        requires under_way { IsUnderWay self.old place }
        requires within { place < length self.old.found.items }
        ensures start { self.new.start ≡ self.old.start }
        ensures kept { OnOk result (AreKept (nodes_of self.old) (nodes_of self.new)) }
        ensures under_way { OnOk result (IsUnderWay self.new (place + 1)) }
    {
        let metadata = self.found[place].metadata;
        'links: for link in metadata.direct_links() {
            self.follow(link, place)?;
        }
        Ok(())
    }

    /// The place of the package at the position, if a walk leads there.
    pub(crate) fn find(&mut self, position: PackageIx) -> Result<Option<usize>, AllocError>
        requires { IsUnderWay self.old 0 }
        ensures start { self.new.start ≡ self.old.start }
        ensures place { IfOk result
            (λ place. IfSome place (IsPlaceOf self.new (ix_position position))) }
        ensures none { IfOk result (λ place. IfNone place (NoWalk (links_beside self.old.start)
            (package_position self.old.start) (ix_position position))) }
    {
        let mut place = 0;
        'places: while place < self.found.len() {
            if self.found[place].metadata.package_ix() == position {
                return Ok(Some(place));
            }
            self.follow_links(place)?;
            place += 1;
        }
        Ok(None)
    }

    /// The links of the walk to the package at the place, in order.
    pub(crate) fn walk_to(&self, place: usize) -> Result<Vec<PackageLink<'g>>, AllocError>
        requires under_way { (done : ℕ) × IsUnderWay self.now done }
        requires within { place < length self.now.found.items }
        ensures graph { IfOk result
            (λ walk. All (λ l. link_graph l ≡ graph_of self.now.start) walk.items) }
        ensures walk { IfOk result (λ walk. (n : Node)
            × (slice_get (nodes_of self.now) place ≡ Some n) × (length walk.items ≡ n.distance)
            × IsWalk (links_beside self.now.start) (package_position self.now.start) n.position
            (map link_number walk.items)) }
    {
        let mut walk = Vec::with_capacity(self.start.graph().alloc(), self.found[place].distance)?;
        let mut at = place;
        'back: while let Some((link, before)) = self.found[at].last {
            walk.push(link)?;
            at = before;
        }
        walk.reverse();
        Ok(walk)
    }
}
