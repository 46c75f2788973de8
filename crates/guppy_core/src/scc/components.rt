ghost use Rattle.std.specs.Prelude.{◌≡◌, ◌↔◌, ℕ, ◌+◌, ◌*◌, ◌<◌, ◌≤◌, ◌^◌, Bool, true, List, length, map, IfOk, OnOk};
ghost use Rattle.std.specs.List.{concat};
ghost use Rattle.guppy_search.specs.declared.ix.direction.DependencyDirection.TheVariants.{Forward};
ghost use Rattle.guppy_search.specs.Reach.{LinkStep, Step, Mutual};
ghost use Rattle.guppy_core.specs.Listing.{IsListing};
ghost use Rattle.guppy_core.specs.Topo.{LeadsOn};
ghost use Rattle.guppy_core.specs.Sccs.{AreSccs, InOneBlock, InLargeBlock, listed};
ghost use Rattle.guppy_core.specs.Order.{IsOrder};
ghost use Rattle.guppy_core.specs.Roots.{AreRoots};

use crate::scc::externals::{entered, unentered};
use crate::scc::iter::{AllSccs, NodeIter};
use crate::scc::layout::{Layout, lay_out};
use crate::scc::numbers::number_components;
use crate::topo::TopoWithCycles;
use guppy_search::{CountedGraph, DependencyDirection, Graph, GraphSpec, IndexType, IxSet};
use std::alloc::AllocError;
use std::marker::Model;

/// The components of a graph, the classes of positions that lead to one another over all links,
/// in a list: a link between two components has its `from` in the earlier one, and in a component
/// the positions ascend by the index. So links that lead to greater indexes lead on in the list.
#[derive(Drop)]
pub struct Sccs<Ix: IndexType> {
    positions: Vec<Ix>,
    bounds: Vec<usize>,
    numbers: Vec<usize>,
}

impl<Ix: IndexType> Model for Sccs<Ix> {
    ghost use Rattle.std.specs.Prelude.{List, ℕ, ◌≡◌, length, map};
    ghost use Rattle.std.specs.List.{concat};
    ghost use Rattle.guppy_core.specs.Listing.{IsListing};
    ghost use Rattle.guppy_core.specs.Sccs.{parts, IsCut, AreNumbered};

    ghost Value = { List (List ℕ) };

    ghost view = { λ s. parts s.bounds.items (map Ix.index_of s.positions.items) };

    ghost invariant = { λ s. (concat (parts s.bounds.items (map Ix.index_of s.positions.items))
        ≡ map Ix.index_of s.positions.items)
        × IsCut (map Ix.index_of s.positions.items) s.bounds.items
        × AreNumbered (parts s.bounds.items (map Ix.index_of s.positions.items)) s.numbers.items
        × IsListing (length s.numbers.items) (map Ix.index_of s.positions.items) };
}

impl<Ix: IndexType> Sccs<Ix> {
    /// The components of the graph, each ordered by the index, which is of as many nodes as the
    /// graph. `looks` plus twice the link count fits u64.
    ///
    /// Looks at each link twice; where it fails, at most twice. Takes memory for some numbers a node,
    /// and fails only where there is none.
    pub fn new<G: GraphSpec<Ix = Ix>>(
        graph: &mut CountedGraph<'_, G>,
        topo: &TopoWithCycles<Ix>,
    ) -> Result<Self, AllocError>
        requires count { length topo.now ≡ length graph.old.graph.nodes }
        requires room { graph.old.looks + 2 * length graph.old.graph.links < 2 ^ 64 }
        ensures sccs { IfOk result (λ blocks. AreSccs (LinkStep Forward graph.old.graph.links)
            (length graph.old.graph.nodes) topo.now blocks) }
        ensures order { IfOk result (λ blocks. IsOrder (LinkStep Forward graph.old.graph.links)
            (length graph.old.graph.nodes) topo.now (concat blocks)) }
        ensures leads_on { IfOk result
            (λ blocks. (keep : G.Edge → Bool)
            → LeadsOn (Step Forward keep graph.old.graph.links) topo.now
            → LeadsOn (Step Forward keep graph.old.graph.links) (concat blocks)) }
        ensures looks { graph.new.looks ≤ graph.old.looks + 2 * length graph.old.graph.links }
        ensures counted { graph.old.looks ≤ graph.new.looks }
        ensures twice { OnOk result
            (graph.new.looks ≡ graph.old.looks + 2 * length graph.old.graph.links) }
        ensures graph { graph.new.graph ≡ graph.old.graph }
    {
        let alloc = graph.alloc();
        let numbered = number_components(graph, topo.order())?;
        let numbers = numbered.numbers;
        let Layout { positions, bounds } = lay_out(
            alloc,
            topo.order(),
            numbers.as_slice(),
            numbered.count,
        )?;
        Ok(Sccs {
            positions,
            bounds,
            numbers,
        })
    }

    /// Whether the positions, which are below the node count, are in one component. A position is
    /// in one with itself.
    pub fn is_same_scc(&self, a: Ix, b: Ix) -> bool
        requires first { Ix.index_of a < length (concat self.now) }
        requires second { Ix.index_of b < length (concat self.now) }
        ensures { (result ≡ true) ↔ InOneBlock self.now (Ix.index_of a) (Ix.index_of b) }
    {
        self.numbers[a.index()] == self.numbers[b.index()]
    }

    /// Whether the position, which is below the node count, is in a component with another one.
    pub fn in_multi_scc(&self, position: Ix) -> bool
        requires { Ix.index_of position < length (concat self.now) }
        ensures { (result ≡ true) ↔ InLargeBlock self.now (Ix.index_of position) }
    {
        let number = self.numbers[position.index()];
        self.bounds[number + 1] - self.bounds[number] > 1
    }

    /// The roots of the set, ascending: its positions whose component no link inside the set, with
    /// both ends in it, enters from another one, in the direction. All positions of the set that are
    /// in such a component are roots, and links inside a component, self-links among them, don't
    /// matter. The set, the graph and the components are of as many nodes.
    ///
    /// Time grows with the nodes and the links that leave the set's positions. Takes memory for a
    /// byte a component and the list, and fails only where there is none.
    pub fn externals<G: GraphSpec<Ix = Ix>>(
        &self,
        graph: &Graph<G>,
        set: &IxSet<G>,
        direction: DependencyDirection,
    ) -> Result<Vec<Ix>, AllocError>
        requires nodes { length set.now ≡ length graph.now.nodes }
        requires sccs { length (concat self.now) ≡ length graph.now.nodes }
        ensures roots { IfOk result (λ roots. AreRoots (LinkStep direction graph.now.links)
            (InOneBlock self.now) set.now (map Ix.index_of roots.items)) }
        ensures reach { IfOk result (λ roots. (index : List ℕ)
            → AreSccs (LinkStep Forward graph.now.links) (length graph.now.nodes) index self.now →
            AreRoots (LinkStep direction graph.now.links)
            (Mutual (LinkStep Forward graph.now.links)) set.now (map Ix.index_of roots.items)) }
    {
        let numbers = self.numbers.as_slice();
        let entered = entered(graph, set, numbers, self.bounds.len(), direction)?;
        unentered(graph.alloc(), set, numbers, entered.as_slice())
    }

    /// All components, as slices of positions.
    pub fn all_sccs(&self) -> AllSccs<'_, Ix>
        ensures { result ≡ self.now }
    {
        AllSccs {
            positions: self.positions.as_slice(),
            bounds: self.bounds.as_slice(),
        }
    }

    /// All positions: Forward component after component, Reverse that list from its end.
    pub fn node_iter(&self, direction: DependencyDirection) -> NodeIter<'_, Ix>
        ensures direction { result.direction ≡ direction }
        ensures left { result.left ≡ listed direction (concat self.now) }
        ensures listing { IsListing (length (concat self.now)) (concat self.now) }
    {
        NodeIter {
            left: self.positions.as_slice(),
            direction,
        }
    }
}
