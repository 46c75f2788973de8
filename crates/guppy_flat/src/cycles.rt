ghost use Rattle.std.specs.Prelude.{◌≡◌, ◌≤◌, length, take, IfOk, IfErr, OnOk, IfSome, MatchOption};
ghost use Rattle.guppy_search.specs.declared.ix.direction.DependencyDirection.TheVariants.{Forward};
ghost use Rattle.guppy_core.specs.Cycle.{IsAcyclic, IsCycle};
ghost use Rattle.guppy_flat.specs.Flat.{flagged, IsFlatFault, MakeGraph};
ghost use Rattle.guppy_flat.specs.Search.{FlaggedStep};

use crate::flat::{Ends, graph_of};
use crate::ordering::write;
use guppy_core::{CountedGraph, GraphFault, find_cycle};
use std::alloc::Global;

/// Writes a cycle over flagged links to the front of the list, and tells its length: two or more
/// positions, each once, each with a flagged link to the next, and the last with one to the first. None
/// where there is no cycle. There is a flag for each link, and as many positions as places in the list.
///
/// Otherwise the first fault of the links, as `Graph::from_parts` has it, or `OutOfMemory` where a
/// growth was refused. Time grows with positions and links. Takes memory for 41 bytes a link and some
/// numbers a position.
pub fn cycle(
    alloc: Global,
    links: &[Ends],
    flags: &[bool],
    list: &mut [u32],
) -> Result<Option<usize>, GraphFault>
    requires { length flags.now ≡ length links.now }
    ensures room { IfOk result (λ found. IfSome found (λ count. count ≤ length list.new)) }
    ensures cycle { IfOk result (λ found. MatchOption found
        (IsAcyclic (FlaggedStep Forward (flagged links.now flags.now)))
        (λ count. IsCycle (FlaggedStep Forward (flagged links.now flags.now))
        (take count list.new))) }
    ensures graph { OnOk result (MakeGraph (length list.old) (flagged links.now flags.now)) }
    ensures fault { IfErr result (IsFlatFault (length list.old) (flagged links.now flags.now)) }
{
    let graph = graph_of(alloc, list.len(), links, flags)?;
    let mut counted = CountedGraph::new(&graph);
    match find_cycle(&mut counted, |flag: &bool| *flag)? {
        None => Ok(None),
        Some(positions) => {
            write(positions.as_slice(), list);
            Ok(Some(positions.len()))
        }
    }
}
