ghost use Rattle.std.specs.Prelude.{◌≡◌, ◌↔◌, ◌<◌, IsTrue, IfOk, length};
ghost use Rattle.guppy_search.specs.Reach.{LinkStep, Walk};

use crate::dfs::search::search;
use crate::dfs::visitor::AcceptAll;
use crate::graph_core::Graph;
use crate::ix::{DependencyDirection, GraphSpec, IndexType, IxSet};
use std::alloc::AllocError;
use std::marker::Model;

/// Room for a search, which many questions on graphs of one size can use in turn.
#[derive(Drop)]
pub struct ReachCache<G: GraphSpec> {
    initials: IxSet<G>,
    set: IxSet<G>,
    waiting: Vec<usize>,
}

impl<G: GraphSpec> Model for ReachCache<G> {
    ghost use Rattle.std.specs.Prelude.{◌≡◌, ◌≤◌, ℕ, length, vec_capacity};

    // For graphs of how many nodes there is room.
    ghost Value = { ℕ };

    ghost view = { λ c. length c.set };

    ghost invariant = { λ c. (length c.initials ≡ length c.set)
        × (length c.set ≤ vec_capacity c.waiting) };
}

impl<G: GraphSpec> ReachCache<G> {
    /// Room for questions on the graph.
    ///
    /// Takes memory: a number and two bits a node. Fails only where there is none.
    pub fn new(graph: &Graph<G>) -> Result<Self, AllocError>
        ensures { IfOk result (λ c. c ≡ length graph.now.nodes) }
    {
        Ok(ReachCache {
            initials: IxSet::empty(graph.alloc(), graph.node_count())?,
            set: IxSet::empty(graph.alloc(), graph.node_count())?,
            waiting: Vec::with_capacity(graph.alloc(), graph.node_count())?,
        })
    }

    /// Whether a walk of links in the direction leads from one position to the other, whatever was
    /// asked before. Both are below the node count of the graph, which is one of the size that the room
    /// was made for.
    ///
    /// Time grows with the nodes, and the links that leave what is reached. Takes no memory.
    pub fn reaches(
        &mut self,
        graph: &Graph<G>,
        from: G::Ix,
        to: G::Ix,
        direction: DependencyDirection,
    ) -> bool
        requires room { self.old ≡ length graph.now.nodes }
        requires from { G.Ix.index_of from < length graph.now.nodes }
        requires to { G.Ix.index_of to < length graph.now.nodes }
        ensures answer { IsTrue result
            ↔ Walk (LinkStep direction graph.now.links) (G.Ix.index_of from) (G.Ix.index_of to) }
        ensures room { self.new ≡ self.old }
    {
        self.initials.clear();
        self.initials.insert_position(from.index());
        self.set.clear();
        self.waiting.clear();
        let mut visitor = AcceptAll;
        search(
            graph,
            &self.initials,
            direction,
            &mut self.set,
            &mut self.waiting,
            &mut visitor,
        );
        self.set.contains(to)
    }
}
