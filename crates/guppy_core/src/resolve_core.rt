//! Sets of positions that a resolve included, over any kind of graph.
ghost use Rattle.std.specs.Prelude.{◌≡◌, ◌⊎◌, ◌↔◌, ◌==◌, ℕ, ◌<◌, Bool, true, false, List, length, map, replicate, IfOk, OnErr, All, Contains};
ghost use Rattle.std.specs.Iterator.{IsFinite, HoldsAlong, Drains};
ghost use Rattle.guppy_search.specs.IxSet.{has, IsIn, IsUnion, IsIntersection, IsDifference, IsSymmetricDifference, member_count};
ghost use Rattle.std.specs.List.{concat, filter};
ghost use Rattle.guppy_search.specs.Buffered.{Question, Answers, Asks, IsAskable, EndsInError, JudgesBuffered};
ghost use Rattle.guppy_core.specs.Listing.{Stands, IsOnce};
ghost use Rattle.guppy_core.specs.Sccs.{listed, AreSccs, InOneBlock};
ghost use Rattle.guppy_search.specs.declared.ix.direction.DependencyDirection.TheVariants.{Forward};
ghost use Rattle.guppy_search.specs.Graph.{LinkIs};
ghost use Rattle.guppy_search.specs.Reach.{IsPlainResolve, LinkStep, Mutual};
ghost use Rattle.guppy_core.specs.Roots.{IsRoot, AreRoots};
ghost use Rattle.guppy_search.specs.Walked.{AreWalked, HoldsComponents, IsLinkInside, numbers_of};
ghost use Rattle.guppy_search.specs.Resolve.{JudgesResolve, AcceptsAll, Visits, IsCallable};

use crate::scc::Sccs;
use guppy_search::{
    BufferedEdgeFilter, DependencyDirection, EdgeDfs, Graph, GraphSpec, IndexType, IxSet,
    reachable, reachable_buffered, reachable_buffered_mut, reachable_filtered, reachable_with_fn,
};
use std::alloc::{AllocError, Global};
use std::marker::Model;

mod links;
mod topo;

pub use links::Links;
pub use topo::Topo;

/// The positions that a resolve included.
#[derive(Drop)]
pub struct ResolveCore<G: GraphSpec> {
    included: IxSet<G>,
}

impl<G: GraphSpec> Model for ResolveCore<G> {
    ghost use Rattle.std.specs.Prelude.{List, Bool};

    ghost Value = { List Bool };

    ghost view = { λ s. s.included };
}

impl<G: GraphSpec> ResolveCore<G> {
    /// The positions that the initial ones lead to over links in the direction, the initial ones
    /// among them. The initial ones are a set of the graph's positions.
    ///
    /// Time grows with the nodes and the links that leave the result. Takes memory for the set and
    /// a number a node, and fails only where there is none.
    pub fn new(
        graph: &Graph<G>,
        initials: &IxSet<G>,
        direction: DependencyDirection,
    ) -> Result<Self, AllocError>
        requires { length initials.now ≡ length graph.now.nodes }
        ensures count { IfOk result (λ set. length set ≡ length graph.now.nodes) }
        ensures judged { IfOk result (λ set. (trace : List (ℕ × Bool))
            × JudgesResolve direction graph.now.links initials.now trace set × AcceptsAll trace) }
        ensures reached { IfOk result (IsPlainResolve direction graph.now.links initials.now) }
    {
        let included = reachable(graph, initials, direction)?;
        Ok(Self::from_included(included))
    }

    /// All positions of the graph.
    ///
    /// Time grows with the nodes. Takes memory for a bit a node, and fails only where there is
    /// none.
    pub fn all_nodes(graph: &Graph<G>) -> Result<Self, AllocError>
        ensures { IfOk result (λ set. set ≡ replicate (length graph.now.nodes) true) }
    {
        let count = graph.node_count();
        let mut included = IxSet::empty(graph.alloc(), count)?;
        for position in 0..count {
            included.insert_position(position);
        }
        Ok(Self::from_included(included))
    }

    /// No position, of a graph of so many nodes.
    ///
    /// Takes memory for a bit a node, and fails only where there is none.
    pub fn empty(alloc: Global, node_count: usize) -> Result<Self, AllocError>
        ensures { IfOk result (λ set. set ≡ replicate node_count false) }
    {
        let included = IxSet::empty(alloc, node_count)?;
        Ok(Self::from_included(included))
    }

    /// The positions that the initial ones lead to over the links that the filter accepts, the
    /// initial ones among them. The filter is asked by number, exactly once for each link that
    /// leaves one of these positions, after that position was included, and for no other link.
    ///
    /// The initial ones are a set of the graph's positions, and the filter takes each link that it is
    /// asked about in this way. Time grows with the nodes and the links that leave the result. Takes
    /// memory for the set and a number a node, and fails only where there is none. What the filter is
    /// like then is told by [`with_edge_filter_mut`](ResolveCore::with_edge_filter_mut).
    pub fn with_edge_filter<F: FnMut(usize) -> bool>(
        graph: &Graph<G>,
        initials: &IxSet<G>,
        direction: DependencyDirection,
        filter: F,
    ) -> Result<Self, AllocError>
        requires count { length initials.now ≡ length graph.now.nodes }
        requires callable { IsCallable F.pre F.step direction graph.now.links initials.now filter }
        ensures count { IfOk result (λ set. length set ≡ length graph.now.nodes) }
        ensures judged { IfOk result (λ set. (trace : List (ℕ × Bool)) × (last : F)
            × JudgesResolve direction graph.now.links initials.now trace set
            × Visits F.step filter trace last) }
    {
        let included = reachable_filtered(graph, initials, direction, filter)?;
        Ok(Self::from_included(included))
    }

    /// [`with_edge_filter`](ResolveCore::with_edge_filter), with a filter that is lent: at the end it
    /// is as its calls left it, and where there is no memory it is as it was.
    pub fn with_edge_filter_mut<F: FnMut(usize) -> bool>(
        graph: &Graph<G>,
        initials: &IxSet<G>,
        direction: DependencyDirection,
        filter: &mut F,
    ) -> Result<Self, AllocError>
        requires count { length initials.now ≡ length graph.now.nodes }
        requires callable { IsCallable F.pre F.step direction graph.now.links initials.now filter.old }
        ensures count { IfOk result (λ set. length set ≡ length graph.now.nodes) }
        ensures judged { IfOk result (λ set. (trace : List (ℕ × Bool))
            × JudgesResolve direction graph.now.links initials.now trace set
            × Visits F.step filter.old trace filter.new) }
        ensures not_called { OnErr result (filter.new ≡ filter.old) }
    {
        let included = reachable_with_fn(graph, initials, direction, filter)?;
        Ok(Self::from_included(included))
    }

    /// The positions that the initial ones lead to over the links that the filter hands back, the
    /// initial ones among them: those of [`reachable_buffered`].
    ///
    /// The initial ones are a set of the graph's positions, and the filter takes each question that it
    /// is asked by that search. Time grows with the nodes, the links that leave the result, and the
    /// links handed back. Takes memory for the set and a number a node. `AllocError` comes where there
    /// is none, and where the filter answers it; what the filter is like then is told by
    /// [`with_buffered_edge_filter_mut`](ResolveCore::with_buffered_edge_filter_mut).
    pub fn with_buffered_edge_filter<T: BufferedEdgeFilter<G> + Drop>(
        graph: &Graph<G>,
        initials: &IxSet<G>,
        direction: DependencyDirection,
        filter: T,
    ) -> Result<Self, AllocError>
        requires count { length initials.now ≡ length graph.now.nodes }
        requires ready { IsAskable (T.can_discover graph.now) (T.can_filter graph.now)
            (Answers (T.discovers graph.now) (T.filters graph.now)) direction graph.now.links
            initials.now filter }
        ensures count { IfOk result (λ set. length set ≡ length graph.now.nodes) }
        ensures judged { IfOk result (λ set. (trace : List (Question × List ℕ)) × (last : T)
            × JudgesBuffered direction graph.now.links initials.now trace set
            × Asks (Answers (T.discovers graph.now) (T.filters graph.now)) filter trace last) }
    {
        let included = reachable_buffered(graph, initials, direction, filter)?;
        Ok(Self::from_included(included))
    }

    /// [`with_buffered_edge_filter`](ResolveCore::with_buffered_edge_filter), with a filter that is
    /// lent: at the end it is as the questions left it. Where it answers an error, that was the last
    /// question; where there is no memory for the search itself, it is as it was.
    pub fn with_buffered_edge_filter_mut<T: BufferedEdgeFilter<G>>(
        graph: &Graph<G>,
        initials: &IxSet<G>,
        direction: DependencyDirection,
        filter: &mut T,
    ) -> Result<Self, AllocError>
        requires count { length initials.now ≡ length graph.now.nodes }
        requires ready { IsAskable (T.can_discover graph.now) (T.can_filter graph.now)
            (Answers (T.discovers graph.now) (T.filters graph.now)) direction graph.now.links
            initials.now filter.old }
        ensures count { IfOk result (λ set. length set ≡ length graph.now.nodes) }
        ensures judged { IfOk result (λ set. (trace : List (Question × List ℕ))
            × JudgesBuffered direction graph.now.links initials.now trace set
            × Asks (Answers (T.discovers graph.now)
            (T.filters graph.now)) filter.old trace filter.new) }
        ensures refused { OnErr result ((filter.new ≡ filter.old)
            ⊎ EndsInError (Answers (T.discovers graph.now)
            (T.filters graph.now)) direction graph.now.links initials.now filter.old
            filter.new) }
        ensures same_place { T.place filter.new ≡ T.place filter.old }
    {
        let included = reachable_buffered_mut(graph, initials, direction, filter)?;
        Ok(Self::from_included(included))
    }

    /// Exactly the given positions, each of the graph; repeats count once.
    ///
    /// Time grows with the nodes and the positions given. Takes memory for a bit a node, and fails
    /// only where there is none.
    pub fn from_ixs<I: Iterator<Item = G::Ix> + Drop>(
        graph: &Graph<G>,
        ixs: I,
    ) -> Result<Self, AllocError>
        requires can { I.can_next ixs }
        requires ends { IsFinite (I.remaining ixs) }
        requires below { HoldsAlong I.next_gives ixs
            (All (λ x. G.Ix.index_of x < length graph.now.nodes)) }
        ensures count { IfOk result (λ set. length set ≡ length graph.now.nodes) }
        ensures members { IfOk result (λ set. (xs : List G.Ix) × Drains I.next_gives ixs xs
            × ((p : ℕ) → IsIn set p ↔ Contains (map G.Ix.index_of xs) p)) }
    {
        let included = IxSet::from_ixs(graph.alloc(), ixs, graph.node_count())?;
        Ok(Self::from_included(included))
    }

    /// The positions of the set. Takes no memory and constant time.
    pub fn from_included(included: IxSet<G>) -> Self
        ensures { result ≡ included }
    {
        ResolveCore { included }
    }

    /// How many positions are included. Takes the same time at any set.
    pub fn len(&self) -> usize
        ensures { result ≡ member_count self.now }
    {
        self.included.len()
    }

    /// Whether no position is included.
    pub fn is_empty(&self) -> bool
        ensures { result ≡ (member_count self.now == 0) }
    {
        self.included.is_empty()
    }

    /// Whether the position, which is below the node count, is included. Takes the same time at
    /// any set.
    pub fn contains(&self, ix: G::Ix) -> bool
        requires { G.Ix.index_of ix < length self.now }
        ensures { result ≡ has self.now (G.Ix.index_of ix) }
    {
        self.included.contains(ix)
    }

    /// The included positions, each once: Forward in the order of the components, Reverse that list
    /// from its end. The components are of as many nodes as the set. Takes no memory.
    pub fn topo<'s>(&'s self, sccs: &'s Sccs<G::Ix>, direction: DependencyDirection) -> Topo<'s, G>
        requires { length self.now ≡ length (concat sccs.now) }
        ensures left { result ≡ listed direction (filter (has self.now) (concat sccs.now)) }
        ensures members { (p : ℕ) → Stands result p ↔ IsIn self.now p }
        ensures once { IsOnce result }
        ensures count { length result ≡ member_count self.now }
        ensures below { All (λ p. p < length self.now) result }
    {
        Topo::new(&self.included, sccs, direction)
    }

    /// Includes the positions of the other set too, which is of as many nodes.
    ///
    /// Time grows with the node count, 64 positions a step. Takes no memory.
    pub fn union_with(&mut self, other: &Self)
        requires { length other.now ≡ length self.old }
        ensures count { length self.new ≡ length self.old }
        ensures members { IsUnion self.old other.now self.new }
    {
        self.included.union_with(&other.included);
    }

    /// Leaves out the positions that are not in the other set, which is of as many nodes.
    ///
    /// Time grows with the node count, 64 positions a step. Takes no memory.
    pub fn intersect_with(&mut self, other: &Self)
        requires { length other.now ≡ length self.old }
        ensures count { length self.new ≡ length self.old }
        ensures members { IsIntersection self.old other.now self.new }
    {
        self.included.intersect_with(&other.included);
    }

    /// Leaves out the positions of the other set that are included, and includes its others. The
    /// other set is of as many nodes.
    ///
    /// Time grows with the node count, 64 positions a step. Takes no memory.
    pub fn symmetric_difference_with(&mut self, other: &Self)
        requires { length other.now ≡ length self.old }
        ensures count { length self.new ≡ length self.old }
        ensures members { IsSymmetricDifference self.old other.now self.new }
    {
        self.included.symmetric_difference_with(&other.included);
    }

    /// The included positions that are not in the other set, which is of as many nodes.
    ///
    /// Time grows with the node count, 64 positions a step. Takes memory for a bit a node, and
    /// fails only where there is none.
    pub fn difference(&self, other: &Self) -> Result<Self, AllocError>
        requires { length other.now ≡ length self.now }
        ensures count { IfOk result (λ rest. length rest ≡ length self.now) }
        ensures members { IfOk result (IsDifference self.now other.now) }
    {
        let rest = self.included.difference(&other.included)?;
        Ok(Self::from_included(rest))
    }

    /// The roots of the set, ascending: the included positions whose component no link between two
    /// included positions enters from another one, in the direction. All included positions of such
    /// a component are roots, and links inside a component, self-links among them, don't matter.
    /// The graph and the components are those that the set is of.
    ///
    /// Time grows with the nodes and the links that leave the included ones. Takes memory for a
    /// byte a component and the list, and fails only where there is none.
    pub fn roots(
        &self,
        graph: &Graph<G>,
        sccs: &Sccs<G::Ix>,
        direction: DependencyDirection,
    ) -> Result<Vec<G::Ix>, AllocError>
        requires nodes { length self.now ≡ length graph.now.nodes }
        requires sccs { length (concat sccs.now) ≡ length graph.now.nodes }
        ensures roots { IfOk result (λ roots. AreRoots (LinkStep direction graph.now.links)
            (InOneBlock sccs.now) self.now (map G.Ix.index_of roots.items)) }
        ensures reach { IfOk result (λ roots. (index : List ℕ)
            → AreSccs (LinkStep Forward graph.now.links) (length graph.now.nodes) index sccs.now →
            AreRoots (LinkStep direction graph.now.links)
            (Mutual (LinkStep Forward graph.now.links)) self.now
            (map G.Ix.index_of roots.items)) }
    {
        sccs.externals(graph, &self.included, direction)
    }

    /// The links inside the set whose leaving end is reached, over links inside the set in the
    /// direction, from a root of the set in that direction. Each comes once, also a self-link and a
    /// link to a position that was met before. One whose leaving end is no root comes after a link
    /// that leads to that end. Where the set holds each component that it touches, these are all
    /// links inside.
    ///
    /// Graph and components are those that the set is of. Time grows with the nodes and the links
    /// that leave the set's positions. Takes memory for some numbers a node and a link, and fails
    /// only where there is none; going on takes none.
    pub fn links<'g>(
        &self,
        graph: &'g Graph<G>,
        sccs: &Sccs<G::Ix>,
        direction: DependencyDirection,
    ) -> Result<Links<'g, G>, AllocError>
        requires nodes { length self.now ≡ length graph.now.nodes }
        requires sccs { length (concat sccs.now) ≡ length graph.now.nodes }
        ensures walked { IfOk result (λ left. AreWalked direction graph.now.links self.now
            (IsRoot (LinkStep direction graph.now.links) (InOneBlock sccs.now) self.now)
            (numbers_of left)) }
        ensures reach { IfOk result (λ left. (index : List ℕ)
            → AreSccs (LinkStep Forward graph.now.links) (length graph.now.nodes) index sccs.now →
            AreWalked direction graph.now.links self.now
            (IsRoot (LinkStep direction graph.now.links)
            (Mutual (LinkStep Forward graph.now.links)) self.now) (numbers_of left)) }
        ensures all { IfOk result (λ left. (index : List ℕ)
            → AreSccs (LinkStep Forward graph.now.links) (length graph.now.nodes) index sccs.now →
            HoldsComponents graph.now.links self.now → (n : ℕ) → Contains (numbers_of left) n
            ↔ IsLinkInside graph.now.links self.now n) }
        ensures ends { IfOk result (All (λ l. LinkIs graph.now.links l.from l.to l.number)) }
    {
        let roots = self.roots(graph, sccs, direction)?;
        let starts = set_of(graph, roots.as_slice())?;
        let edges = EdgeDfs::new(graph, &self.included, direction, &starts)?;
        Ok(Links { edges })
    }

    /// The set of the included positions.
    pub fn included(&self) -> &IxSet<G>
        ensures { result.now ≡ self.now }
    {
        &self.included
    }
}

/// The set of these positions of the graph.
fn set_of<G: GraphSpec>(graph: &Graph<G>, ixs: &[G::Ix]) -> Result<IxSet<G>, AllocError>
    requires { All (λ ix. G.Ix.index_of ix < length graph.now.nodes) ixs.now }
    ensures count { IfOk result (λ set. length set ≡ length graph.now.nodes) }
    ensures members { IfOk result
        (λ set. (p : ℕ) → IsIn set p ↔ Contains (map G.Ix.index_of ixs.now) p) }
{
    let set = IxSet::from_ixs(graph.alloc(), ixs.iter().copied(), graph.node_count())?;
    Ok(set)
}

impl<G: GraphSpec> Clone for ResolveCore<G> {
    ghost use Rattle.std.specs.Prelude.{◌≡◌};

    ghost is_clone = { λ s t. t ≡ s };

    /// The same set. Takes memory for a bit a node, and fails only where there is none.
    fn clone(&self) -> Result<Self, AllocError> {
        let included = self.included.clone()?;
        Ok(Self::from_included(included))
    }
}
