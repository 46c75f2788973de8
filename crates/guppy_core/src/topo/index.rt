ghost use Rattle.std.specs.Prelude.{◌≡◌, ℕ, ◌+◌, ◌*◌, ◌<◌, ◌≤◌, ◌^◌, Bool, length, IfOk, OnOk, Some, slice_get};
ghost use Rattle.std.specs.List.Sorted.{IsPermutation, IsNonDecreasingBy};
ghost use Rattle.guppy_search.specs.declared.ix.direction.DependencyDirection.TheVariants.{Forward};
ghost use Rattle.guppy_search.specs.Reach.{Step};
ghost use Rattle.guppy_core.specs.Cost.{AreLookedAt};
ghost use Rattle.guppy_core.specs.Kept.{OnLinks};
ghost use Rattle.guppy_core.specs.Listing.{IsListing, place_in};
ghost use Rattle.guppy_core.specs.Topo.{FromRoot, IsTopo, HasNoCycle, LeadsOn};

use crate::topo::finish::finish_order;
use crate::topo::lists::{absent, places, set_of};
use crate::topo::roots::roots;
use guppy_search::{CountedGraph, GraphSpec, IndexType, IxSet};
use std::alloc::AllocError;
use std::marker::{Model, PhantomData};

/// A topological index of a graph's positions by the links that are kept, also where these have
/// cycles: a number for each position, from 0 up to the node count.
///
/// A root is a position to which no kept link leads from another one. Where a kept link leads from
/// one position to another, roots lead to the first and the second doesn't lead to the first, the
/// first has the lesser index. The positions to which no root leads have the greatest indexes,
/// ascending by position. So where the kept links have no cycle but self-links, each other kept link
/// leads to a greater index.
#[derive(Drop)]
pub struct TopoWithCycles<Ix> {
    order: Vec<usize>,
    index: Vec<usize>,
    ix: PhantomData<Ix>,
}

impl<Ix> Model for TopoWithCycles<Ix> {
    ghost use Rattle.std.specs.Prelude.{List, ℕ, length};
    ghost use Rattle.guppy_core.specs.Listing.{IsListing, IsInverse};

    ghost Value = { List ℕ };

    ghost view = { λ t. t.order.items };

    ghost invariant = { λ t. IsListing (length t.order.items) t.order.items
        × IsInverse t.order.items t.index.items };
}

impl<Ix: IndexType> TopoWithCycles<Ix> {
    /// The index by the links that `keep` answers true for. `keep` may be called on the data of each
    /// link, and owes one answer for each of these; `looks` plus twice the link count fits u64.
    ///
    /// Looks at each link once, and once more at those that leave positions to which roots lead;
    /// where it fails, at each at most twice. Takes memory for some numbers a node and a byte a link,
    /// and fails only where there is none.
    pub fn new<G: GraphSpec<Ix = Ix>, F: Fn(&G::Edge) -> bool + Drop>(
        graph: &mut CountedGraph<'_, G>,
        keep: F,
    ) -> Result<Self, AllocError>
        ghost kept: { G.Edge → Bool }
        requires room { graph.old.looks + 2 * length graph.old.graph.links < 2 ^ 64 }
        requires callable { OnLinks graph.old.graph.links (F.pre keep) }
        requires keeps { OnLinks graph.old.graph.links
            (λ e. (b : Bool) → F.post keep e b → b ≡ kept e.now) }
        ensures topo { IfOk result (λ order. IsTopo (Step Forward kept graph.old.graph.links)
            (length graph.old.graph.nodes) order) }
        ensures acyclic { IfOk result
            (λ order. HasNoCycle (Step Forward kept graph.old.graph.links)
            → LeadsOn (Step Forward kept graph.old.graph.links) order) }
        ensures looks { graph.new.looks ≤ graph.old.looks + 2 * length graph.old.graph.links }
        ensures counted { graph.old.looks ≤ graph.new.looks }
        ensures least { OnOk result
            (graph.old.looks + length graph.old.graph.links ≤ graph.new.looks) }
        ensures looked { IfOk result (λ _. AreLookedAt Forward graph.old.graph.links
            (length graph.old.graph.nodes)
            (FromRoot (Step Forward kept graph.old.graph.links) (length graph.old.graph.nodes))
            (graph.old.looks + length graph.old.graph.links) graph.new.looks) }
        ensures graph { graph.new.graph ≡ graph.old.graph }
    {
        let alloc = graph.alloc();
        let order = topological_order(graph, &keep)?;
        let index = places(alloc, order.as_slice())?;
        Ok(TopoWithCycles {
            order,
            index,
            ix: PhantomData,
        })
    }

    /// Sorts the positions in place, ascending by their indexes. What is no position of the graph
    /// comes last.
    pub fn sort_nodes(&self, nodes: &mut [Ix])
        ensures permutation { IsPermutation nodes.old nodes.new }
        ensures ascending { IsNonDecreasingBy (λ ix. place_in self.now (Ix.index_of ix)) nodes.new }
    {
        nodes.sort_unstable_by_key(|ix| self.rank(*ix));
    }

    /// The index of the position, which is below the node count.
    pub fn topo_ix(&self, position: Ix) -> usize
        requires { Ix.index_of position < length self.now }
        ensures { slice_get self.now result ≡ Some (Ix.index_of position) }
    {
        self.index[position.index()]
    }

    /// The positions in the order of their indexes.
    pub(crate) fn order(&self) -> &[usize]
        ensures order { result.now ≡ self.now }
        ensures listing { IsListing (length self.now) self.now }
    {
        self.order.as_slice()
    }

    /// The index of the position, or the node count for what is no position.
    fn rank(&self, position: Ix) -> usize
        ensures { result ≡ place_in self.now (Ix.index_of position) }
    {
        match self.index.get(position.index()) {
            Some(index) => *index,
            None => self.index.len(),
        }
    }
}

/// The positions in a topological order: those that the roots lead to, then the others.
fn topological_order<G: GraphSpec, F: Fn(&G::Edge) -> bool>(
    graph: &mut CountedGraph<'_, G>,
    keep: &F,
) -> Result<Vec<usize>, AllocError>
    ghost kept: { G.Edge → Bool }
    requires room { graph.old.looks + 2 * length graph.old.graph.links < 2 ^ 64 }
    requires callable { OnLinks graph.old.graph.links (F.pre keep.now) }
    requires keeps { OnLinks graph.old.graph.links
        (λ e. (b : Bool) → F.post keep.now e b → b ≡ kept e.now) }
    ensures topo { IfOk result (λ order. IsTopo (Step Forward kept graph.old.graph.links)
        (length graph.old.graph.nodes) order.items) }
    ensures acyclic { IfOk result
        (λ order. HasNoCycle (Step Forward kept graph.old.graph.links)
        → LeadsOn (Step Forward kept graph.old.graph.links) order.items) }
    ensures looks { graph.new.looks ≤ graph.old.looks + 2 * length graph.old.graph.links }
    ensures counted { graph.old.looks ≤ graph.new.looks }
    ensures least { OnOk result
        (graph.old.looks + length graph.old.graph.links ≤ graph.new.looks) }
    ensures looked { IfOk result (λ _. AreLookedAt Forward graph.old.graph.links
        (length graph.old.graph.nodes)
        (FromRoot (Step Forward kept graph.old.graph.links) (length graph.old.graph.nodes))
        (graph.old.looks + length graph.old.graph.links) graph.new.looks) }
    ensures graph { graph.new.graph ≡ graph.old.graph }
{
    let alloc = graph.alloc();
    let count = graph.node_count();
    let mut notes = vec![in alloc; true; graph.link_count()]?;
    let starts = roots(graph, keep, &mut notes)?;
    let mut order = finish_order(graph, starts.as_slice(), notes.as_slice())?;
    order.reverse();
    let reached: IxSet<G> = set_of(alloc, count, order.as_slice())?;
    let rest = absent(alloc, &reached)?;
    order.extend_from_slice(rest.as_slice())?;
    Ok(order)
}
