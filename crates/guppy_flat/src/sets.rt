ghost use Rattle.std.specs.Prelude.{◌≡◌, ◌↔◌, ℕ, ◌<◌, length, map, All, IfOk, IfErr, OnOk, OnErr};
ghost use Rattle.guppy_search.specs.IxSet.{IsIn};
ghost use Rattle.guppy_search.specs.Walked.{numbers_of};
ghost use Rattle.guppy_core.specs.Listing.{Stands};
ghost use Rattle.guppy_flat.specs.Flat.{plain, AreWithin, IsFlatFault, MakeGraph};
ghost use Rattle.guppy_flat.specs.Sets.{MarksRoots, AreSetLinks};

use crate::flat::{Ends, Flat, expect_within, graph_of};
use crate::marks::{mark, set_of};
use crate::ordering::components_of;
use guppy_core::{
    DependencyDirection, Graph, GraphFault, GraphSpec, IndexType, Links, ResolveCore,
};
use std::alloc::{AllocError, Global};

// The graph of these links, none of them flagged.
fn plain_graph_of(alloc: Global, count: usize, links: &[Ends]) -> Result<Graph<Flat>, GraphFault>
    ensures nodes { IfOk result (λ g. length g.nodes ≡ count) }
    ensures links { IfOk result (λ g. g.links ≡ plain links.now) }
    ensures within { OnOk result (AreWithin count (plain links.now)) }
    ensures made { OnOk result (MakeGraph count (plain links.now)) }
    ensures fault { IfErr result (IsFlatFault count (plain links.now)) }
{
    expect_within(count, links)?;
    let flags = vec![in alloc; false; links.len()]?;
    graph_of(alloc, count, links, flags.as_slice())
}

// Marks the positions, and no other.
fn mark_each<Ix: IndexType>(positions: &[Ix], marks: &mut [bool])
    requires { All (λ ix. Ix.index_of ix < length marks.old) positions.now }
    ensures { (p : ℕ) → IsIn marks.new p ↔ Stands (map Ix.index_of positions.now) p }
{
    marks.fill(false);
    for position in positions {
        marks[position.index()] = true;
    }
}

/// Marks the roots of the marked set in the direction, and no other position: those whose component no
/// link inside the set enters from another one. There is a mark for each of the set's positions.
///
/// Otherwise the first fault of the links, as `Graph::from_parts` has it, or `OutOfMemory` where a
/// growth was refused; then no mark is changed. Time grows with positions and links. Takes memory for 43
/// bytes a link and some numbers a position.
pub fn roots(
    alloc: Global,
    links: &[Ends],
    set: &[bool],
    direction: DependencyDirection,
    marks: &mut [bool],
) -> Result<(), GraphFault>
    requires { length marks.old ≡ length set.now }
    ensures roots { OnOk result (MarksRoots direction (plain links.now) set.now marks.new) }
    ensures graph { OnOk result (MakeGraph (length set.now) (plain links.now)) }
    ensures fault { IfErr result (IsFlatFault (length set.now) (plain links.now)) }
    ensures unchanged { OnErr result (marks.new ≡ marks.old) }
{
    let graph = plain_graph_of(alloc, set.len(), links)?;
    let components = components_of(&graph)?;
    let included = ResolveCore::from_included(set_of(alloc, set)?);
    let roots = included.roots(&graph, &components, direction)?;
    mark_each(roots.as_slice(), marks);
    Ok(())
}

// The numbers of the links.
fn numbers_of<G: GraphSpec>(alloc: Global, links: Links<'_, G>) -> Result<Vec<usize>, AllocError>
    ensures { IfOk result (λ list. list.items ≡ numbers_of links.entry) }
{
    links.map(|(_, _, number)| number).collect(alloc)
}

/// The numbers of the links inside the marked set that are walked from its roots in the direction, each
/// once, also a self-link: one whose leaving end is no root comes after a link that leads to that end. Where
/// the set holds each component that it touches, these are all links inside.
///
/// Otherwise the first fault of the links, as `Graph::from_parts` has it, or `OutOfMemory` where a
/// growth was refused. Time grows with positions and links. Takes memory for some numbers a position and a
/// link.
pub fn links(
    alloc: Global,
    links: &[Ends],
    set: &[bool],
    direction: DependencyDirection,
) -> Result<Vec<usize>, GraphFault>
    ensures links { IfOk result
        (λ list. AreSetLinks direction (plain links.now) set.now list.items) }
    ensures graph { OnOk result (MakeGraph (length set.now) (plain links.now)) }
    ensures fault { IfErr result (IsFlatFault (length set.now) (plain links.now)) }
{
    let graph = plain_graph_of(alloc, set.len(), links)?;
    let components = components_of(&graph)?;
    let included = ResolveCore::from_included(set_of(alloc, set)?);
    let walked = included.links(&graph, &components, direction)?;
    Ok(numbers_of(alloc, walked)?)
}
