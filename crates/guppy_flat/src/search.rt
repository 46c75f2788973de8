ghost use Rattle.std.specs.Prelude.{◌≡◌, ◌<◌, ◌^◌, length, IfOk, IfErr, OnOk, OnErr};
ghost use Rattle.guppy_flat.specs.Flat.{flagged, IsFlatFault, MakeGraph};
ghost use Rattle.guppy_flat.specs.Search.{IsReached};

use crate::flat::{Ends, Flat, graph_of};
use crate::marks::{mark, set_of};
use guppy_core::{DependencyDirection, Graph, GraphFault, IxSet, LinkVisitor, reachable_with};
use std::alloc::{AllocError, Global};

// Follows the links of the graph that are flagged.
#[derive(Drop)]
struct Flagged<'a> {
    graph: &'a Graph<Flat>,
}

impl LinkVisitor for Flagged<'_> {
    ghost use Rattle.std.specs.Prelude.{◌≡◌, ◌<◌, length, Bool, Some, slice_get};
    ghost use Rattle.guppy_search.specs.declared.graph_core.link.Link.{Link};

    ghost visits = { λ s n answer t. (t ≡ s)
        × ((l : Link Bool) → slice_get s.graph.now.links n ≡ Some l → answer ≡ l.edge) };

    ghost can_visit = { λ s n. n < length s.graph.now.links };

    fn visit(&mut self, link: usize) -> bool {
        *self.graph.link(link).edge
    }
}

// The positions that flagged links lead to from the marked ones.
fn reached(
    graph: &Graph<Flat>,
    starts: &[bool],
    direction: DependencyDirection,
) -> Result<IxSet<Flat>, AllocError>
    requires starts { length starts.now ≡ length graph.now.nodes }
    requires few { length starts.now < 2 ^ 32 }
    ensures count { IfOk result (λ set. length set ≡ length starts.now) }
    ensures reached { IfOk result (IsReached direction graph.now.links starts.now) }
{
    let starts = set_of(graph.alloc(), starts)?;
    let mut visitor = Flagged { graph };
    let set = reachable_with(graph, &starts, direction, &mut visitor)?;
    Ok(set)
}

/// Marks the positions that flagged links lead to from the marked starts, in the direction, the starts
/// among them, and no other. There is a flag for each link, and a mark for each of the starts' positions.
///
/// Otherwise the first fault of the links, as `Graph::from_parts` has it, or `OutOfMemory` where a
/// growth was refused; then no mark is changed. Time grows with positions and links. Takes memory for 41
/// bytes a link and some numbers a position.
pub fn reach(
    alloc: Global,
    links: &[Ends],
    flags: &[bool],
    starts: &[bool],
    direction: DependencyDirection,
    marks: &mut [bool],
) -> Result<(), GraphFault>
    requires flags { length flags.now ≡ length links.now }
    requires marks { length marks.old ≡ length starts.now }
    ensures reached { OnOk result
        (IsReached direction (flagged links.now flags.now) starts.now marks.new) }
    ensures graph { OnOk result (MakeGraph (length starts.now) (flagged links.now flags.now)) }
    ensures fault { IfErr result (IsFlatFault (length starts.now) (flagged links.now flags.now)) }
    ensures unchanged { OnErr result (marks.new ≡ marks.old) }
{
    let graph = graph_of(alloc, starts.len(), links, flags)?;
    let set = reached(&graph, starts, direction)?;
    mark(&set, marks);
    Ok(())
}
