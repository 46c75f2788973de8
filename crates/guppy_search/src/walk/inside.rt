ghost use Rattle.std.specs.Prelude.{◌≡◌, length, IfOk};
ghost use Rattle.guppy_search.specs.IxSet.{IsIn};
ghost use Rattle.guppy_search.specs.Resolve.{accepted_links};
ghost use Rattle.guppy_search.specs.Walked.{AreWalked};

use crate::dfs::{LinkVisitor, reachable_recorded};
use crate::graph_core::Graph;
use crate::ix::{DependencyDirection, GraphSpec, IxSet};
use std::alloc::{AllocError, Global};

// Follows exactly the links inside a set.
#[derive(Drop)]
struct FollowInside<'s, G: GraphSpec> {
    graph: &'s Graph<G>,
    set: &'s IxSet<G>,
}

impl<G: GraphSpec> LinkVisitor for FollowInside<'_, G> {
    ghost use Rattle.std.specs.Prelude.{◌≡◌, ◌↔◌, ◌<◌, true, Some, slice_get, length};
    ghost use Rattle.guppy_search.specs.declared.graph_core.link.Link.{Link};
    ghost use Rattle.guppy_search.specs.Walked.{IsInside};

    ghost visits = { λ s n b t. (t ≡ s)
        × ((l : Link G.Edge) → slice_get s.graph.now.links n ≡ Some l → (b ≡ true)
        ↔ IsInside s.set.now l) };

    ghost can_visit = { λ s n. (n < length s.graph.now.links)
        × (length s.set.now ≡ length s.graph.now.nodes) };

    fn visit(&mut self, link: usize) -> bool {
        let link = self.graph.link(link);
        self.set.has_position(link.from) && self.set.has_position(link.to)
    }
}

/// The numbers of the links inside the set that are walked from the initial positions.
///
/// Time grows with the nodes and the links that leave what is reached. Takes memory for some
/// numbers a node and a link, and fails only where there is none.
pub(crate) fn walked_numbers<G: GraphSpec>(
    graph: &Graph<G>,
    set: &IxSet<G>,
    direction: DependencyDirection,
    initials: &IxSet<G>,
) -> Result<Vec<usize>, AllocError>
    requires set { length set.now ≡ length graph.now.nodes }
    requires initials { length initials.now ≡ length graph.now.nodes }
    ensures { IfOk result (λ numbers. AreWalked direction graph.now.links set.now
        (IsIn initials.now) numbers.items) }
{
    let visitor = FollowInside { graph, set };
    let (_reached, recorder) = reachable_recorded(graph, initials, direction, visitor)?;
    let numbers = accepted_links(graph.alloc(), recorder.entries.as_slice())?;
    Ok(numbers)
}

/// The links of a trace that were accepted, in its order.
fn accepted_links(alloc: Global, trace: &[(usize, bool)]) -> Result<Vec<usize>, AllocError>
    ensures { IfOk result (λ numbers. numbers.items ≡ accepted_links trace.now) }
{
    trace
        .iter()
        .filter(|(_number, answer)| *answer)
        .map(|(number, _answer)| *number)
        .collect(alloc)
}
