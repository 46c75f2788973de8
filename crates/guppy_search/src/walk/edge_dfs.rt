ghost use Rattle.std.specs.Prelude.{◌≡◌, length, IfOk, All};
ghost use Rattle.guppy_search.specs.Graph.{LinkIs};
ghost use Rattle.guppy_search.specs.IxSet.{IsIn};
ghost use Rattle.guppy_search.specs.Walked.{AreWalked, numbers_of};

use crate::graph_core::Graph;
use crate::ix::{DependencyDirection, GraphSpec, IndexType, IxSet};
use crate::walk::inside::walked_numbers;
use std::alloc::{AllocError, Global};
use std::marker::Model;
use std::vec;

/// The links inside a set that are walked from some positions, those that are still to come: each
/// with its `from`, its `to` and its number.
#[derive(Drop)]
pub struct EdgeDfs<'g, G: GraphSpec> {
    graph: &'g Graph<G>,
    numbers: vec::IntoIter<usize, Global>,
}

impl<'g, G: GraphSpec> Model for EdgeDfs<'g, G> {
    ghost use Rattle.std.specs.Prelude.{List, ◌<◌, All, map, length};
    ghost use Rattle.std.specs.Vec.Iter.{into_iter_items};
    ghost use Rattle.guppy_search.specs.Walked.{LinkEnds, ends_at};

    ghost Value = { List LinkEnds };

    ghost view = { λ s. map (ends_at s.graph.now.links) (into_iter_items s.numbers) };

    ghost invariant = { λ s. All (λ n. n < length s.graph.now.links) (into_iter_items s.numbers) };
}

impl<'g, G: GraphSpec> EdgeDfs<'g, G> {
    /// The links inside the set whose leaving end is reached, over links inside the set in the
    /// direction, from one of the initial positions. Each comes once, also a self-link and a link to
    /// a position that was met before. One whose leaving end is no initial position comes after a
    /// link that leads to that end. Both sets are of the graph's positions; links of an initial
    /// position outside of the set are none of these.
    ///
    /// Time grows with the nodes and the links that leave what is reached. Takes memory for some
    /// numbers a node and a link, and fails only where there is none; going on takes none.
    pub fn new(
        graph: &'g Graph<G>,
        set: &IxSet<G>,
        direction: DependencyDirection,
        initials: &IxSet<G>,
    ) -> Result<Self, AllocError>
        requires set { length set.now ≡ length graph.now.nodes }
        requires initials { length initials.now ≡ length graph.now.nodes }
        ensures walked { IfOk result
            (λ left. AreWalked direction graph.now.links set.now (IsIn initials.now)
            (numbers_of left)) }
        ensures ends { IfOk result (All (λ l. LinkIs graph.now.links l.from l.to l.number)) }
    {
        let numbers = walked_numbers(graph, set, direction, initials)?;
        Ok(EdgeDfs {
            graph,
            numbers: numbers.into_iter(),
        })
    }
}

impl<G: GraphSpec> Iterator for EdgeDfs<'_, G> {
    type Item = (G::Ix, G::Ix, usize);

    ghost use Rattle.std.specs.Prelude.{◌≡◌};
    ghost use Rattle.std.specs.Iterator.{YieldsFirstBy, item_count};
    ghost use Rattle.guppy_search.specs.Walked.{LinkEnds};

    ghost next_gives = { YieldsFirstBy
        (λ l. let ends : LinkEnds = record
        { from = G.Ix.index_of l.0; to = G.Ix.index_of l.1; number = l.2 } in ends) (λ s. s) };

    ghost remaining = { item_count (λ s. s) };

    fn next(&mut self) -> Option<(G::Ix, G::Ix, usize)> {
        let number = self.numbers.next()?;
        let link = self.graph.link(number);
        Some((G::Ix::new(link.from), G::Ix::new(link.to), number))
    }
}
