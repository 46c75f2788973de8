ghost use Rattle.std.specs.Prelude.{◌≡◌, ℕ, ◌<◌, ◌≤◌, ◌+◌, ◌*◌, ◌^◌, length, IfOk, OnOk, All};
ghost use Rattle.guppy_search.specs.declared.ix.direction.DependencyDirection.TheVariants.{Forward};
ghost use Rattle.guppy_core.specs.Listing.{Stands};
ghost use Rattle.guppy_search.specs.Reach.{LinkStep};
ghost use Rattle.guppy_core.specs.Components.{AreNumbers};

use crate::scc::claim::claim;
use crate::topo::{ALL_KEPT, finish_order};
use guppy_search::{CountedGraph, GraphSpec, IxSet};
use std::alloc::AllocError;

/// The number of each position's component, and how many components there are.
#[derive(Drop)]
pub(crate) struct Numbered {
    pub(crate) numbers: Vec<usize>,
    pub(crate) count: usize,
}

/// Numbers the components, dependents first. Looks at each link twice. The starts are all positions.
pub(crate) fn number_components<G: GraphSpec>(
    graph: &mut CountedGraph<'_, G>,
    starts: &[usize],
) -> Result<Numbered, AllocError>
    requires below { All (λ p. p < length graph.old.graph.nodes) starts.now }
    requires all { (p : ℕ) → p < length graph.old.graph.nodes → Stands starts.now p }
    requires room { graph.old.looks + 2 * length graph.old.graph.links < 2 ^ 64 }
    ensures numbers { IfOk result
        (λ r. AreNumbers (LinkStep Forward graph.old.graph.links)
        (length graph.old.graph.nodes) r.numbers.items r.count) }
    ensures few { IfOk result (λ r. r.count ≤ length graph.old.graph.nodes) }
    ensures small { IfOk result (λ _. length graph.old.graph.nodes < 2 ^ 32) }
    ensures looks { graph.new.looks ≤ graph.old.looks + 2 * length graph.old.graph.links }
    ensures counted { graph.old.looks ≤ graph.new.looks }
    ensures twice { OnOk result
        (graph.new.looks ≡ graph.old.looks + 2 * length graph.old.graph.links) }
    ensures graph { graph.new.graph ≡ graph.old.graph }
{
    let alloc = graph.alloc();
    let limit = graph.node_count();
    let mut order = finish_order(graph, starts, ALL_KEPT)?;
    order.reverse();
    let mut numbers = vec![in alloc; 0; limit]?;
    let mut seen = IxSet::<G>::empty(alloc, limit)?;
    let mut stack = Vec::new(alloc);
    let mut count = 0;
    for root in &order {
        if !seen.has_position(*root) {
            claim(graph, &mut seen, &mut numbers, &mut stack, *root, count)?;
            count += 1;
        }
    }
    Ok(Numbered { numbers, count })
}
