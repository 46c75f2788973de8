ghost use Rattle.std.specs.Prelude.{◌≡◌, ℕ, Bool, List, length, IfOk, OnErr};
ghost use Rattle.guppy_search.specs.Resolve.{JudgesResolve, Visits, IsCallable};

use crate::dfs::search::reachable_with;
use crate::dfs::visitor::LinkVisitor;
use crate::graph_core::Graph;
use crate::ix::{DependencyDirection, GraphSpec, IxSet};
use std::alloc::AllocError;

// A closure as a visitor.
#[derive(Drop)]
struct Asking<'f, F> {
    filter: &'f mut F,
}

impl<F: FnMut(usize) -> bool> LinkVisitor for Asking<'_, F> {
    ghost use Rattle.std.specs.Prelude.{◌∷◌, []};

    ghost visits = { λ s n b t. F.step s.filter.now n b t.filter.now };

    ghost place = { λ s. s.filter.ghost_name ∷ [] };

    ghost can_visit = { λ s n. F.pre s.filter.now n };

    fn visit(&mut self, link: usize) -> bool {
        (self.filter)(link)
    }
}

/// The positions that the initial ones lead to over the links that the filter accepts, the initial
/// ones among them. The filter is asked by number, exactly once for each link that leaves one of
/// these positions, after that position was included, and for no other link.
///
/// The initial ones are a set of the graph's positions, and the filter takes each link that it is
/// asked about in this way. Time grows with the nodes and the links that leave the result. Takes
/// memory for the set and a number a node, and fails only where there is none. What the filter is
/// like then is told by [`reachable_with_fn`].
pub fn reachable_filtered<G: GraphSpec, F: FnMut(usize) -> bool>(
    graph: &Graph<G>,
    initials: &IxSet<G>,
    direction: DependencyDirection,
    mut filter: F,
) -> Result<IxSet<G>, AllocError>
    requires count { length initials.now ≡ length graph.now.nodes }
    requires callable { IsCallable F.pre F.step direction graph.now.links initials.now filter }
    ensures count { IfOk result (λ set. length set ≡ length graph.now.nodes) }
    ensures judged { IfOk result (λ set. (trace : List (ℕ × Bool)) × (last : F)
        × JudgesResolve direction graph.now.links initials.now trace set
        × Visits F.step filter trace last) }
{
    let set = reachable_with_fn(graph, initials, direction, &mut filter)?;
    Ok(set)
}

/// [`reachable_filtered`], with a filter that is lent: at the end it is as its calls left it, and
/// where there is no memory it is as it was.
pub fn reachable_with_fn<G: GraphSpec, F: FnMut(usize) -> bool>(
    graph: &Graph<G>,
    initials: &IxSet<G>,
    direction: DependencyDirection,
    filter: &mut F,
) -> Result<IxSet<G>, AllocError>
    requires count { length initials.now ≡ length graph.now.nodes }
    requires callable { IsCallable F.pre F.step direction graph.now.links initials.now filter.old }
    ensures count { IfOk result (λ set. length set ≡ length graph.now.nodes) }
    ensures judged { IfOk result (λ set. (trace : List (ℕ × Bool))
        × JudgesResolve direction graph.now.links initials.now trace set
        × Visits F.step filter.old trace filter.new) }
    ensures not_called { OnErr result (filter.new ≡ filter.old) }
{
    let mut asking = Asking { filter };
    let set = reachable_with(graph, initials, direction, &mut asking)?;
    Ok(set)
}
