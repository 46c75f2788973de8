ghost use Rattle.std.specs.Prelude.{◌≡◌, ⊤, ℕ, ◌<◌, Bool, List, [], ◌∷◌, length, Option, Some, None, IfOk, OnErr};
ghost use Rattle.guppy_search.specs.Graph.{GraphValue};
ghost use Rattle.guppy_search.specs.Buffered.{AreLinkNumbers};

use crate::graph_core::Graph;
use crate::ix::{GraphSpec, IndexType};
use std::alloc::AllocError;

/// Is asked about positions and links of a graph, and hands back the numbers of links to follow.
///
/// A link that it doesn't hand back is refused, or held back for a later question. It may hand back
/// any link of the graph, any number of times. guppy's trait of this name goes by references to
/// edges, and its calls can't fail.
pub trait BufferedEdgeFilter<G: GraphSpec> {
    // On a graph, at a state and a link: the links that may be handed back, or none where the answer
    // is an error, each with the state that it leaves.
    ghost filters: { GraphValue G.Node G.Edge → Self → ℕ → Option (List ℕ) → Self → Type 0 };

    // The same at a position.
    ghost discovers: { GraphValue G.Node G.Edge → Self → ℕ → Option (List ℕ) → Self → Type 0 };

    // Which references the filter is, from the outside in; none for a value.
    ghost place: { Self → List ℕ } = { λ _. [] };

    // Holds of a graph, a state and a link that may be asked about there; by default each may.
    ghost can_filter: { GraphValue G.Node G.Edge → Self → ℕ → Type 0 } = { λ _ _ _. ⊤ };

    // The same of a position.
    ghost can_discover: { GraphValue G.Node G.Edge → Self → ℕ → Type 0 } = { λ _ _ _. ⊤ };

    /// The links to follow, each below the link count, when the search comes to the link, which is
    /// below the link count too.
    fn filter(&mut self, graph: &Graph<G>, link: usize) -> Result<Vec<usize>, AllocError>
        requires link { link < length graph.now.links }
        requires ready { can_filter graph.now self.old link }
        ensures filters { IfOk result
            (λ handed. filters graph.now self.old link (Some handed.items) self.new) }
        ensures error { OnErr result (filters graph.now self.old link None self.new) }
        ensures links { IfOk result (λ handed. AreLinkNumbers graph.now.links handed.items) }
        ensures same_place { place self.new ≡ place self.old };

    /// The links to follow, each below the link count, when the search comes to the position, which
    /// is below the node count.
    fn discover(&mut self, graph: &Graph<G>, node: G::Ix) -> Result<Vec<usize>, AllocError>
        requires node { G.Ix.index_of node < length graph.now.nodes }
        requires ready { can_discover graph.now self.old (G.Ix.index_of node) }
        ensures discovers { IfOk result
            (λ handed. discovers graph.now self.old (G.Ix.index_of node)
            (Some handed.items) self.new) }
        ensures error { OnErr result
            (discovers graph.now self.old (G.Ix.index_of node) None self.new) }
        ensures links { IfOk result (λ handed. AreLinkNumbers graph.now.links handed.items) }
        ensures same_place { place self.new ≡ place self.old };
}

impl<G: GraphSpec, T: BufferedEdgeFilter<G>> BufferedEdgeFilter<G> for &mut T {
    ghost filters = { λ g s n answer t. T.filters g s.now n answer t.now
        × (t.ghost_name ≡ s.ghost_name) };

    ghost discovers = { λ g s p answer t. T.discovers g s.now p answer t.now
        × (t.ghost_name ≡ s.ghost_name) };

    ghost place = { λ s. s.ghost_name ∷ T.place s.now };

    ghost can_filter = { λ g s n. T.can_filter g s.now n };

    ghost can_discover = { λ g s p. T.can_discover g s.now p };

    fn filter(&mut self, graph: &Graph<G>, link: usize) -> Result<Vec<usize>, AllocError> {
        (**self).filter(graph, link)
    }

    fn discover(&mut self, graph: &Graph<G>, node: G::Ix) -> Result<Vec<usize>, AllocError> {
        (**self).discover(graph, node)
    }
}

/// Answers on a graph of the type `H` and the number of one of its links. Each closure
/// `FnMut(&H, usize) -> bool` does.
pub trait EdgeFilterFn<H> {
    // On a graph, at a state and a link: the answers that may come, each with the state that it
    // leaves.
    ghost answers: { H → Self → ℕ → Bool → Self → Type 0 };

    // Holds of a graph, a state and a link that may be asked about there.
    ghost can_answer: { H → Self → ℕ → Type 0 };

    /// Whether to follow the link.
    fn accepts(&mut self, graph: &H, link: usize) -> bool
        requires { can_answer graph.now self.old link }
        ensures { answers graph.now self.old link result self.new };
}

impl<H, F: FnMut(&H, usize) -> bool> EdgeFilterFn<H> for F {
    ghost use Rattle.guppy_search.specs.Buffered.{MayCallOn, CallsOn};

    ghost answers = { CallsOn F.step };

    ghost can_answer = { MayCallOn F.pre };

    fn accepts(&mut self, graph: &H, link: usize) -> bool {
        self(graph, link)
    }
}

/// A filter that follows the links for which the closure answers true, and hands back no other.
///
/// The closure is called with the graph and the number of a link. A link that is handed back takes
/// memory for a list of one number.
#[derive(Drop)]
pub struct SimpleEdgeFilterFn<F>(pub F);

impl<G: GraphSpec, F: EdgeFilterFn<Graph<G>>> BufferedEdgeFilter<G> for SimpleEdgeFilterFn<F> {
    ghost use Rattle.std.specs.Prelude.{◌≡◌, [], Some};
    ghost use Rattle.guppy_search.specs.Buffered.{HandsBackIf};

    ghost filters = { λ g s n answer t. HandsBackIf (F.answers g) s.0 n answer t.0 };

    ghost discovers = { λ _ s _ answer t. (answer ≡ Some []) × (t ≡ s) };

    ghost can_filter = { λ g s n. F.can_answer g s.0 n };

    fn filter(&mut self, graph: &Graph<G>, link: usize) -> Result<Vec<usize>, AllocError> {
        let mut links = Vec::new(graph.alloc());
        if self.0.accepts(graph, link) {
            links.push(link)?;
        }
        Ok(links)
    }

    fn discover(&mut self, graph: &Graph<G>, _node: G::Ix) -> Result<Vec<usize>, AllocError> {
        Ok(Vec::new(graph.alloc()))
    }
}
