//! A caller of a filtered search, proved from the public clauses of that call alone.
ghost use Rattle.std.specs.Prelude.{◌≡◌, ℕ, ◌<◌, Bool, false, List, length, All, IfOk, slice_index_or};
ghost use Rattle.guppy_search.specs.Resolve.{JudgesResolve};

use guppy_core::dfs::reachable_filtered;
use guppy_core::graph_core::Graph;
use guppy_core::ix::{DependencyDirection, GraphSpec, IxSet};
use std::alloc::AllocError;

/// What links lead to from the start that are open by a table: each answer is the table's.
pub fn by_table<G: GraphSpec>(
    graph: &Graph<G>,
    start: &IxSet<G>,
    is_open: &[bool],
) -> Result<IxSet<G>, AllocError>
    requires count { length start.now ≡ length graph.now.nodes }
    requires table { length is_open.now ≡ length graph.now.links }
    ensures { IfOk result (λ set. (trace : List (ℕ × Bool))
        × JudgesResolve DependencyDirection.Forward graph.now.links start.now trace set
        × All (λ entry. entry.1 ≡ slice_index_or is_open.now entry.0 false) trace) }
{
    let forward = DependencyDirection::Forward;
    let set = reachable_filtered(
        graph,
        start,
        forward,
        |link: usize| -> bool
            requires { link < length is_open.now }
            ensures { result ≡ slice_index_or is_open.entry.now link false }
        { is_open[link] },
    )?;
    Ok(set)
}
