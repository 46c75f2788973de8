ghost use Rattle.std.specs.Prelude.{◌≡◌, ◌<◌, length, All, Some, slice_get, IfOk, IfErr, MatchOption};

use crate::graph_core::build::{data_alone, ends_alone, first_repeat, first_unknown, number_to};
use crate::graph_core::link::Link;
use crate::graph_core::lists::LinkLists;
use crate::ix::{DependencyDirection, GraphSpec, IndexType};
use std::alloc::{AllocError, Global};
use std::marker::Model;

/// Why parts make no graph: the first that holds, in this order. A link goes by its number.
#[derive(Clone, Copy, Debug, PartialEq, Eq)]
pub enum GraphFault {
    /// There are more than 4,294,967,295 nodes.
    TooManyNodes,
    /// There are more than 4,294,967,295 links.
    TooManyLinks,
    /// This link has an end that is no node; no link before it has.
    UnknownEnd(usize),
    /// This link has the ordered pair of ends of an earlier one; no link before it has.
    RepeatedLink(usize),
    /// There was no memory for the graph.
    OutOfMemory,
}

impl From<AllocError> for GraphFault {
    ghost use Rattle.guppy_search.specs.declared.graph_core.graph.GraphFault.TheVariants.{OutOfMemory};

    ghost from_gives = { λ _ e. e ≡ OutOfMemory };

    fn from(_error: AllocError) -> Self {
        GraphFault::OutOfMemory
    }
}

/// How many nodes, and how many links, a graph has at most.
pub const LIMIT: usize = 4_294_967_295;

/// A graph: nodes by position, links by number, and for each position the links that leave it.
/// No ordered pair of positions has two links; self-links and cycles are allowed.
#[derive(Drop)]
pub struct Graph<G: GraphSpec> {
    nodes: Vec<G::Node>,
    edges: Vec<G::Edge>,
    ends: Vec<Link<()>>,
    forward: LinkLists,
    reverse: LinkLists,
}

impl<G: GraphSpec> Model for Graph<G> {
    ghost use Rattle.guppy_search.specs.Graph.{GraphValue};

    ghost Value = { GraphValue G.Node G.Edge };

    ghost use Rattle.guppy_search.specs.Links.{links_between};

    ghost view = { λ g. record {
      nodes = g.nodes.items;
      links = links_between g.ends.items g.edges.items;
    } };

    ghost use Rattle.guppy_search.specs.Stored.{IsStored};

    ghost invariant = { λ g. IsStored g.nodes.items g.edges.items g.ends.items g.forward
        g.reverse };
}

impl<G: GraphSpec> Graph<G> {
    ghost use Rattle.guppy_search.specs.Graph.{IsGraph, NoLink, LinkIs};
    ghost use Rattle.guppy_search.specs.Fault.{IsFault};
    ghost use Rattle.guppy_search.specs.Links.{links_at, links_between, seen_link};
    ghost use Rattle.guppy_search.specs.Stored.{far_ends_at};

    /// The graph of these nodes and links, where each link's ends are positions of nodes and no
    /// ordered pair has two links. Otherwise the first fault: in the order of `GraphFault`, then
    /// the lowest link number. `OutOfMemory` comes where a growth was refused.
    ///
    /// Time grows with nodes and links. Takes memory for 40 bytes a link and three numbers a node, and
    /// for the links' data, which move into a list of their own: where these lie in one already,
    /// [`from_ends`](Graph::from_ends) leaves them there.
    pub fn from_parts(nodes: Vec<G::Node>, links: Vec<Link<G::Edge>>) -> Result<Self, GraphFault>
        ensures nodes { IfOk result (λ g. g.nodes ≡ nodes.items) }
        ensures links { IfOk result (λ g. g.links ≡ links.items) }
        ensures graph { IfOk result (λ g. IsGraph g) }
        ensures fault { IfErr result (IsFault (length nodes.items) links.items) }
    {
        let alloc = *nodes.allocator();
        let ends = ends_alone(alloc, links.as_slice())?;
        let edges = data_alone(alloc, links)?;
        Graph::from_ends(nodes, edges, ends)
    }

    /// [`from_parts`](Graph::from_parts), with the data of the links in one list and their ends in
    /// another, each by number. Both lists are as long as each other.
    ///
    /// Neither nodes nor data move. Time grows with nodes and links. Takes memory for 24 bytes a link
    /// and three numbers a node, beside the parts themselves.
    pub fn from_ends(
        nodes: Vec<G::Node>,
        edges: Vec<G::Edge>,
        ends: Vec<Link<()>>,
    ) -> Result<Self, GraphFault>
        requires { length ends.items ≡ length edges.items }
        ensures nodes { IfOk result (λ g. g.nodes ≡ nodes.items) }
        ensures links { IfOk result (λ g. g.links ≡ links_between ends.items edges.items) }
        ensures graph { IfOk result (λ g. IsGraph g) }
        ensures fault { IfErr result (IsFault (length nodes.items)
            (links_between ends.items edges.items)) }
    {
        let alloc = *nodes.allocator();
        if nodes.len() > LIMIT {
            return Err(GraphFault::TooManyNodes);
        }
        if ends.len() > LIMIT {
            return Err(GraphFault::TooManyLinks);
        }
        if let Some(number) = first_unknown(ends.as_slice(), nodes.len()) {
            return Err(GraphFault::UnknownEnd(number));
        }
        let forward = LinkLists::new(
            alloc,
            ends.as_slice(),
            nodes.len(),
            DependencyDirection::Forward,
        )?;
        if let Some(number) = first_repeat(alloc, ends.as_slice(), nodes.len(), &forward)? {
            return Err(GraphFault::RepeatedLink(number));
        }
        let reverse = LinkLists::new(
            alloc,
            ends.as_slice(),
            nodes.len(),
            DependencyDirection::Reverse,
        )?;
        Ok(Graph {
            nodes,
            edges,
            ends,
            forward,
            reverse,
        })
    }

    /// How many nodes there are.
    pub fn node_count(&self) -> usize
        ensures count { result ≡ length self.now.nodes }
        ensures graph { IsGraph self.now }
    {
        self.nodes.len()
    }

    /// How many links there are.
    pub fn link_count(&self) -> usize
        ensures { result ≡ length self.now.links }
    {
        self.ends.len()
    }

    /// The node at the position, which is below the node count.
    pub fn node(&self, ix: G::Ix) -> &G::Node
        requires { G.Ix.index_of ix < length self.now.nodes }
        ensures { slice_get self.now.nodes (G.Ix.index_of ix) ≡ Some result.now }
    {
        &self.nodes[ix.index()]
    }

    /// All nodes, by position.
    pub fn nodes(&self) -> &[G::Node]
        ensures { result.now ≡ self.now.nodes }
    {
        self.nodes.as_slice()
    }

    /// The link with the number, which is below the link count.
    pub fn link(&self, number: usize) -> Link<&G::Edge>
        requires { number < length self.now.links }
        ensures link { slice_get self.now.links number ≡ Some (seen_link result) }
        ensures graph { IsGraph self.now }
    {
        let ends = &self.ends[number];
        Link {
            from: ends.from,
            to: ends.to,
            edge: &self.edges[number],
        }
    }

    /// The numbers of the links that leave the position in the direction, ascending. The position
    /// is below the node count.
    pub fn links_of(&self, ix: G::Ix, direction: DependencyDirection) -> &[usize]
        requires { G.Ix.index_of ix < length self.now.nodes }
        ensures links { result.now ≡ links_at direction self.now.links (G.Ix.index_of ix) }
        ensures within { All (λ n. n < length self.now.links) result.now }
        ensures graph { IsGraph self.now }
    {
        self.links_at(ix.index(), direction)
    }

    /// [`links_of`](Graph::links_of) for a position that is a plain number, as a link's ends are.
    pub fn links_at(&self, position: usize, direction: DependencyDirection) -> &[usize]
        requires { position < length self.now.nodes }
        ensures links { result.now ≡ links_at direction self.now.links position }
        ensures graph { IsGraph self.now }
    {
        match direction {
            DependencyDirection::Forward => self.forward.at(position),
            DependencyDirection::Reverse => self.reverse.at(position),
        }
    }

    /// The far ends of the links that `links_at` gives, in its order.
    pub(crate) fn far_ends_at(&self, position: usize, direction: DependencyDirection) -> &[u32]
        requires { position < length self.now.nodes }
        ensures ends { result.now ≡ far_ends_at direction self.now.links position }
        ensures graph { IsGraph self.now }
    {
        match direction {
            DependencyDirection::Forward => self.forward.far_at(position),
            DependencyDirection::Reverse => self.reverse.far_at(position),
        }
    }

    /// The number of the link that leads from one position to the other, if there is one; there is
    /// at most one. `from` is below the node count.
    ///
    /// Time grows with the links that leave `from`.
    pub fn find_link(&self, from: G::Ix, to: G::Ix) -> Option<usize>
        requires { G.Ix.index_of from < length self.now.nodes }
        ensures { MatchOption result (NoLink self.now.links (G.Ix.index_of from) (G.Ix.index_of to))
            (LinkIs self.now.links (G.Ix.index_of from) (G.Ix.index_of to)) }
    {
        let from = from.index();
        let row = self.links_at(from, DependencyDirection::Forward);
        let far_ends = self.far_ends_at(from, DependencyDirection::Forward);
        number_to(row, far_ends, to.index())
    }

    /// The allocator that the graph's memory comes from.
    pub fn alloc(&self) -> Global {
        *self.nodes.allocator()
    }
}
