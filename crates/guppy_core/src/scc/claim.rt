ghost use Rattle.std.specs.Prelude.{◌≡◌, ◌⊎◌, ◌↔◌, ℕ, ◌<◌, ◌≤◌, ◌+◌, ◌^◌, Bool, true, false, List, [], length, OnOk};
ghost use Rattle.guppy_search.specs.declared.ix.direction.DependencyDirection.TheVariants.{Reverse};
ghost use Rattle.guppy_search.specs.IxSet.{IsIn};
ghost use Rattle.guppy_core.specs.Mark.{Marks};
ghost use Rattle.guppy_core.specs.Cost.{links_left};
ghost use Rattle.guppy_search.specs.Reach.{LinkStep, Walk};
ghost use Rattle.guppy_core.specs.Claim.{IsClosed, Numbers, Claims};

use guppy_search::{CountedGraph, DependencyDirection, GraphSpec, IxSet};
use std::alloc::AllocError;

/// Gives the number to a new position, and puts it onto the stack.
fn claim_one<G: GraphSpec>(
    seen: &mut IxSet<G>,
    numbers: &mut Vec<usize>,
    stack: &mut Vec<usize>,
    position: usize,
    number: usize,
) -> Result<(), AllocError>
    requires seen { position < length seen.old }
    requires numbers { position < length numbers.old.items }
    requires small { position < 2 ^ 32 }
    ensures marks { OnOk result (Marks position seen.old stack.old.items seen.new stack.new.items) }
    ensures numbers { OnOk result
        (Numbers position number seen.old numbers.old.items numbers.new.items) }
{
    if seen.has_position(position) {
        return Ok(());
    }
    stack.push(position)?;
    seen.insert_position(position);
    numbers[position] = number;
    Ok(())
}

/// Gives the number to the start, and to each position without a number that links lead from to
/// the start. Looks once at each link that leads to one of these. The stack is lent empty, and left
/// empty.
pub(crate) fn claim<G: GraphSpec>(
    graph: &mut CountedGraph<'_, G>,
    seen: &mut IxSet<G>,
    numbers: &mut Vec<usize>,
    stack: &mut Vec<usize>,
    start: usize,
    number: usize,
) -> Result<(), AllocError>
    requires empty { stack.old.items ≡ [] }
    requires limit { length seen.old ≡ length graph.old.graph.nodes }
    requires count { length numbers.old.items ≡ length graph.old.graph.nodes }
    requires start { start < length graph.old.graph.nodes }
    requires small { length graph.old.graph.nodes < 2 ^ 32 }
    requires closed { IsClosed (LinkStep Reverse graph.old.graph.links) seen.old }
    requires room { graph.old.looks + links_left Reverse graph.old.graph.links seen.old < 2 ^ 64 }
    ensures empty { OnOk result (stack.new.items ≡ []) }
    ensures limit { OnOk result (length seen.new ≡ length graph.old.graph.nodes) }
    ensures count { OnOk result (length numbers.new.items ≡ length graph.old.graph.nodes) }
    ensures seen { OnOk result ((q : ℕ) → IsIn seen.new q
        ↔ (IsIn seen.old q ⊎ Walk (LinkStep Reverse graph.old.graph.links) start q)) }
    ensures numbers { OnOk result
        (Claims number seen.old numbers.old.items seen.new numbers.new.items) }
    ensures paid { OnOk result (graph.new.looks + links_left Reverse graph.old.graph.links seen.new
        ≡ graph.old.looks + links_left Reverse graph.old.graph.links seen.old) }
    ensures looks { graph.new.looks ≤ graph.old.looks + links_left Reverse graph.old.graph.links
        seen.old }
    ensures counted { graph.old.looks ≤ graph.new.looks }
    ensures graph { graph.new.graph ≡ graph.old.graph }
{
    claim_one(seen, numbers, stack, start, number)?;
    while let Some(position) = stack.pop() {
        for k in 0..graph.leaving_at(position, DependencyDirection::Reverse) {
            let (_number, far, _edge) = graph.look_at(position, DependencyDirection::Reverse, k);
            claim_one(seen, numbers, stack, far, number)?;
        }
    }
    Ok(())
}
