//! Positions as numbers: sets made of a list of them, and compared with one.
ghost use Rattle.std.specs.Prelude.{◌≡◌, ◌<◌, length, All};

use guppy_core::graph_core::Graph;
use guppy_core::ix::{GraphSpec, IndexType, IxSet, PackageIx};
use std::alloc::{AllocError, Global};
use std::process::Abort;

/// Ends the test where what is asserted of the case doesn't hold.
pub(crate) fn assert_of(rt: &impl Abort, case: &str, holds: bool) {
    assert!(rt; holds, "{case}");
}

/// The set of those of the positions that the graph has.
pub(crate) fn set_of<G: GraphSpec>(
    rt: &impl Abort,
    graph: &Graph<G>,
    positions: &[usize],
) -> IxSet<G>
    ensures { length result ≡ length graph.now.nodes }
{
    let mut set = IxSet::empty(graph.alloc(), graph.node_count()).expect(rt, "a set");
    for position in positions {
        if *position < set.node_count() && *position < 4_294_967_295 {
            set.insert_position(*position);
        }
    }
    set
}

/// The indexes of those of the positions that are below the count, in their order and with repeats.
pub(crate) fn ixs_of(
    rt: &impl Abort,
    alloc: Global,
    positions: &[usize],
    count: usize,
) -> Vec<PackageIx>
    ensures { All (λ ix. ix.0 < count) result.items }
{
    let mut ixs = Vec::new(alloc);
    for position in positions {
        if *position < count && *position < 4_294_967_295 {
            ixs.push(PackageIx::new(*position)).expect(rt, "indexes");
        }
    }
    ixs
}

/// Whether the set's positions are these.
pub(crate) fn has_positions<G: GraphSpec>(set: &IxSet<G>, wanted: &[usize]) -> bool {
    let mut ones = set.ones();
    for position in wanted {
        match ones.next() {
            Some(ix) if ix.index() == *position => {}
            _ => return false,
        }
    }
    ones.next().is_none() && set.len() == wanted.len()
}

/// Whether a search found these positions, and memory.
pub(crate) fn found<G: GraphSpec>(set: Result<IxSet<G>, AllocError>, wanted: &[usize]) -> bool {
    match set {
        Ok(set) => has_positions(&set, wanted),
        Err(_) => false,
    }
}

/// Whether the indexes are those of these positions.
pub(crate) fn are_positions(ixs: &[PackageIx], wanted: &[usize]) -> bool {
    for (place, ix) in ixs.iter().enumerate() {
        if wanted.get(place) != Some(&ix.index()) {
            return false;
        }
    }
    ixs.len() == wanted.len()
}

/// Whether the indexes that were found are those of these positions.
pub(crate) fn are_found(ixs: Result<Vec<PackageIx>, AllocError>, wanted: &[usize]) -> bool {
    match ixs {
        Ok(ixs) => are_positions(ixs.as_slice(), wanted),
        Err(_) => false,
    }
}
