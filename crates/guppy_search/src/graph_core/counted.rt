ghost use Rattle.std.specs.Prelude.{◌≡◌, ℕ, ◌<◌, ◌+◌, ◌^◌, length, Some, slice_get, slice_index};
ghost use Rattle.guppy_search.specs.declared.graph_core.link.Link.{Link};
ghost use Rattle.guppy_search.specs.Graph.{IsGraph};
ghost use Rattle.guppy_search.specs.Links.{links_at, near_end, far_end, seen_link};

use crate::graph_core::{Graph, Link};
use crate::ix::{DependencyDirection, GraphSpec, IndexType};
use std::alloc::Global;
use std::marker::Model;

/// A graph whose links are handed out one at a time, each counted as a look.
#[derive(Drop)]
pub struct CountedGraph<'a, G: GraphSpec> {
    graph: &'a Graph<G>,
    looks: u64,
}

impl<'a, G: GraphSpec> Model for CountedGraph<'a, G> {
    ghost use Rattle.guppy_search.specs.Counted.{CountedValue};

    ghost Value = { CountedValue G.Node G.Edge };

    ghost view = { λ c. record { graph = c.graph.now; looks = c.looks } };
}

impl<'a, G: GraphSpec> CountedGraph<'a, G> {
    /// The graph, with no look counted.
    pub fn new(graph: &'a Graph<G>) -> Self
        ensures graph { result.graph ≡ graph.now }
        ensures looks { result.looks ≡ 0 }
        ensures is_graph { IsGraph graph.now }
    {
        let _node_count = graph.node_count();
        CountedGraph { graph, looks: 0 }
    }

    /// How many links were handed out, each as often as it was.
    pub fn looks(&self) -> u64
        ensures { result ≡ self.now.looks }
    {
        self.looks
    }

    /// How many nodes there are.
    pub fn node_count(&self) -> usize
        ensures count { result ≡ length self.now.graph.nodes }
        ensures graph { IsGraph self.now.graph }
    {
        self.graph.node_count()
    }

    /// How many links there are. It counts no look.
    pub fn link_count(&self) -> usize
        ensures { result ≡ length self.now.graph.links }
    {
        self.graph.link_count()
    }

    /// The allocator that the graph's memory comes from.
    pub fn alloc(&self) -> Global {
        self.graph.alloc()
    }

    /// How many links leave the position in the direction. It counts no look. The position is below
    /// the node count.
    pub fn leaving(&self, position: G::Ix, direction: DependencyDirection) -> usize
        requires { G.Ix.index_of position < length self.now.graph.nodes }
        ensures count { result ≡ length
            (links_at direction self.now.graph.links (G.Ix.index_of position)) }
        ensures graph { IsGraph self.now.graph }
    {
        self.leaving_at(position.index(), direction)
    }

    /// The number, the far end and the data of one of the links that leave the position in the
    /// direction: the one at place `k` when they are in the order of their numbers. It counts as
    /// one look, kept or not.
    ///
    /// The position is below the node count, `k` below `leaving`, and `looks` below the greatest
    /// u64.
    pub fn look(
        &mut self,
        position: G::Ix,
        direction: DependencyDirection,
        k: usize,
    ) -> (usize, G::Ix, &'a G::Edge)
        requires position { G.Ix.index_of position < length self.old.graph.nodes }
        requires place { k < length (links_at direction self.old.graph.links
            (G.Ix.index_of position)) }
        requires room { self.old.looks + 1 < 2 ^ 64 }
        ensures number { result.0 ≡ slice_index
            (links_at direction self.old.graph.links (G.Ix.index_of position)) k }
        ensures link { (l : Link G.Edge) × (slice_get self.old.graph.links result.0 ≡ Some l)
            × (near_end direction l ≡ G.Ix.index_of position)
            × (far_end direction l ≡ G.Ix.index_of result.1)
            × (l.edge ≡ result.2.now) }
        ensures counted { self.new ≡ record self.old { looks = self.old.looks + 1 } }
        ensures graph { IsGraph self.new.graph }
    {
        let (number, far_end, edge) = self.look_at(position.index(), direction, k);
        (number, G::Ix::new(far_end), edge)
    }

    /// [`leaving`](CountedGraph::leaving) for a position that is a plain number, as a link's ends
    /// are.
    pub fn leaving_at(&self, position: usize, direction: DependencyDirection) -> usize
        requires { position < length self.now.graph.nodes }
        ensures count { result ≡ length (links_at direction self.now.graph.links position) }
        ensures graph { IsGraph self.now.graph }
    {
        self.graph.links_at(position, direction).len()
    }

    /// [`look`](CountedGraph::look) for a position that is a plain number, as a link's ends are. The
    /// far end that it gives is one too.
    pub fn look_at(
        &mut self,
        position: usize,
        direction: DependencyDirection,
        k: usize,
    ) -> (usize, usize, &'a G::Edge)
        requires position { position < length self.old.graph.nodes }
        requires place { k < length (links_at direction self.old.graph.links position) }
        requires room { self.old.looks + 1 < 2 ^ 64 }
        ensures number { result.0 ≡ slice_index
            (links_at direction self.old.graph.links position) k }
        ensures link { (l : Link G.Edge) × (slice_get self.old.graph.links result.0 ≡ Some l)
            × (near_end direction l ≡ position) × (far_end direction l ≡ result.1)
            × (l.edge ≡ result.2.now) }
        ensures counted { self.new ≡ record self.old { looks = self.old.looks + 1 } }
        ensures graph { IsGraph self.new.graph }
    {
        let number = self.graph.links_at(position, direction)[k];
        let far_end = self.graph.far_ends_at(position, direction)[k];
        let link = self.link(number);
        (number, far_end as usize, link.edge)
    }

    /// The link with the number. It counts as one look, kept or not.
    ///
    /// The number is below the link count, and `looks` below the greatest u64.
    pub fn link(&mut self, number: usize) -> Link<&'a G::Edge>
        requires number { number < length self.old.graph.links }
        requires room { self.old.looks + 1 < 2 ^ 64 }
        ensures link { slice_get self.old.graph.links number ≡ Some (seen_link result) }
        ensures counted { self.new ≡ record self.old { looks = self.old.looks + 1 } }
        ensures graph { IsGraph self.new.graph }
    {
        let link = self.graph.link(number);
        self.looks += 1;
        link
    }
}
