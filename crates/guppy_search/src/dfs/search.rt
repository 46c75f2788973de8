ghost use Rattle.std.specs.Prelude.{◌≡◌, ◌⊎◌, ℕ, ◌+◌, ◌<◌, ◌≤◌, ◌^◌, Bool, true, false, List, [], ◌∷◌, ◌++◌, length, IfOk, OnErr, replicate, slice_set, vec_len, vec_capacity};
ghost use Rattle.guppy_search.specs.IxSet.{IsIn, member_count};
ghost use Rattle.guppy_search.specs.Links.{links_at};
ghost use Rattle.guppy_search.specs.Reach.{IsPlainResolve};
ghost use Rattle.guppy_search.specs.Resolve.{JudgesResolve, AcceptsAll, Visits, IsCallable};
ghost use Rattle.guppy_search.specs.Searching.{Seeded, Shows, MayGoOn};

use crate::dfs::visitor::{AcceptAll, LinkVisitor};
use crate::graph_core::Graph;
use crate::ix::{DependencyDirection, GraphSpec, IndexType, IxSet};
use std::alloc::AllocError;

/// The positions that the initial ones lead to over links in the direction, the initial ones among
/// them. The set is one of the graph's positions.
///
/// Time grows with the nodes and the links that leave the result. Takes memory for the set and a
/// number a node, and fails only where there is none.
pub fn reachable<G: GraphSpec>(
    graph: &Graph<G>,
    initials: &IxSet<G>,
    direction: DependencyDirection,
) -> Result<IxSet<G>, AllocError>
    requires { length initials.now ≡ length graph.now.nodes }
    ensures count { IfOk result (λ set. length set ≡ length graph.now.nodes) }
    ensures judged { IfOk result (λ set. (trace : List (ℕ × Bool))
        × JudgesResolve direction graph.now.links initials.now trace set × AcceptsAll trace) }
    ensures reached { IfOk result (IsPlainResolve direction graph.now.links initials.now) }
{
    let mut visitor = AcceptAll;
    let set = reachable_with(graph, initials, direction, &mut visitor)?;
    Ok(set)
}

/// The positions that the initial ones lead to over the links that the visitor accepts, the initial
/// ones among them. The visitor is shown each link that leaves one of these positions exactly once,
/// after that position was included, and no other link.
///
/// Time grows with the nodes and the links that leave the result. Takes memory for the set and a
/// number a node, all of it before the first link is shown: where there is none, the visitor is as
/// it was.
pub fn reachable_with<G: GraphSpec, V: LinkVisitor>(
    graph: &Graph<G>,
    initials: &IxSet<G>,
    direction: DependencyDirection,
    visitor: &mut V,
) -> Result<IxSet<G>, AllocError>
    requires count { length initials.now ≡ length graph.now.nodes }
    requires ready { IsCallable V.can_visit V.visits direction graph.now.links initials.now visitor.old }
    ensures count { IfOk result (λ set. length set ≡ length graph.now.nodes) }
    ensures judged { IfOk result (λ set. (trace : List (ℕ × Bool))
        × JudgesResolve direction graph.now.links initials.now trace set
        × Visits V.visits visitor.old trace visitor.new) }
    ensures same_place { V.place visitor.new ≡ V.place visitor.old }
    ensures not_begun { OnErr result (visitor.new ≡ visitor.old) }
{
    let mut set = IxSet::empty(graph.alloc(), graph.node_count())?;
    let mut waiting = Vec::with_capacity(graph.alloc(), graph.node_count())?;
    search(graph, initials, direction, &mut set, &mut waiting, visitor);
    Ok(set)
}

/// The search itself, in room that was made before: an empty set, and an empty list with room for
/// every position. The list is empty again at the end.
pub(crate) fn search<G: GraphSpec, V: LinkVisitor>(
    graph: &Graph<G>,
    initials: &IxSet<G>,
    direction: DependencyDirection,
    set: &mut IxSet<G>,
    waiting: &mut Vec<usize>,
    visitor: &mut V,
)
    requires count { length initials.now ≡ length graph.now.nodes }
    requires ready { IsCallable V.can_visit V.visits direction graph.now.links initials.now visitor.old }
    requires set { set.old ≡ replicate (length graph.now.nodes) false }
    requires waiting { waiting.old.items ≡ [] }
    requires room { length graph.now.nodes ≤ vec_capacity waiting.old }
    ensures count { length set.new ≡ length graph.now.nodes }
    ensures judged { (trace : List (ℕ × Bool))
        × JudgesResolve direction graph.now.links initials.now trace set.new
        × Visits V.visits visitor.old trace visitor.new }
    ensures same_place { V.place visitor.new ≡ V.place visitor.old }
    ensures waiting { waiting.new.items ≡ [] }
    ensures room { length graph.now.nodes ≤ vec_capacity waiting.new }
{
    seed(initials, set, waiting);
    'positions: while let Some(position) = waiting.pop() {
        show_links(graph, direction, position, set, waiting, visitor);
    }
}

// Puts the initial positions into the empty set and among those that wait.
fn seed<G: GraphSpec>(initials: &IxSet<G>, set: &mut IxSet<G>, waiting: &mut Vec<usize>)
    requires set { set.old ≡ replicate (length initials.now) false }
    requires waiting { waiting.old.items ≡ [] }
    requires room { length initials.now ≤ vec_capacity waiting.old }
    ensures count { length set.new ≡ length initials.now }
    ensures seeded { Seeded initials.now set.new waiting.new.items [] }
    ensures capacity { vec_capacity waiting.new ≡ vec_capacity waiting.old }
{
    'initials: for ix in initials.ones() {
        include(set, waiting, ix.index());
    }
}

// Shows the visitor the links that leave the position, and follows those that it accepts.
fn show_links<G: GraphSpec, V: LinkVisitor>(
    graph: &Graph<G>,
    direction: DependencyDirection,
    position: usize,
    set: &mut IxSet<G>,
    waiting: &mut Vec<usize>,
    visitor: &mut V,
)
    requires position { position < length graph.now.nodes }
    requires count { length set.old ≡ length graph.now.nodes }
    requires ready { MayGoOn V.can_visit V.visits direction graph.now.links set.old
        waiting.old.items (links_at direction graph.now.links position) visitor.old }
    requires room { length waiting.old.items + length set.old ≤ vec_capacity waiting.old +
        member_count set.old }
    ensures count { length set.new ≡ length graph.now.nodes }
    ensures same_place { V.place visitor.new ≡ V.place visitor.old }
    ensures shown { (shown : List (ℕ × Bool)) × Visits V.visits visitor.old shown visitor.new
        × Shows direction graph.now.links shown set.old waiting.old.items
        (links_at direction graph.now.links position) set.new waiting.new.items [] }
    ensures balance { length waiting.new.items + member_count set.old
        ≡ length waiting.old.items + member_count set.new }
    ensures capacity { vec_capacity waiting.new ≡ vec_capacity waiting.old }
{
    let row = graph.links_at(position, direction);
    let far_ends = graph.far_ends_at(position, direction);
    'links: for (place, number) in row.iter().enumerate() {
        if !visitor.visit(*number) {
            continue;
        }
        include(set, waiting, far_ends[place] as usize);
    }
}

// Puts the position into the set and among those that wait, unless the set has it.
pub(crate) fn include<G: GraphSpec>(set: &mut IxSet<G>, waiting: &mut Vec<usize>, position: usize)
    requires in_range { position < length set.old }
    requires small { position < 2 ^ 32 }
    requires room { ¬ IsIn set.old position → vec_len waiting.old < vec_capacity waiting.old }
    ensures cases { (IsIn set.old position × (set.new ≡ set.old)
        × (waiting.new.items ≡ waiting.old.items))
        ⊎ (¬ IsIn set.old position × (set.new ≡ slice_set set.old position true)
        × (waiting.new.items ≡ waiting.old.items ++ position ∷ [])) }
    ensures capacity { vec_capacity waiting.new ≡ vec_capacity waiting.old }
{
    if set.insert_position(position) {
        waiting.push_reserved(position);
    }
}
