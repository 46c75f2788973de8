ghost use Rattle.std.specs.Prelude.{◌≡◌, ◌↔◌, ℕ, ◌<◌, ◌≤◌, false, length, map, take, All, IfOk, IfErr, OnOk, OnErr};
ghost use Rattle.std.specs.List.{concat};
ghost use Rattle.guppy_search.specs.IxSet.{has};
ghost use Rattle.guppy_core.specs.Sccs.{InOneBlock};
ghost use Rattle.guppy_flat.specs.Flat.{flagged, IsFlatFault, MakeGraph};
ghost use Rattle.guppy_flat.specs.Ordering.{AreOrdered, IsOrdered, IsWithPrevious, MarksFirsts};

use crate::flat::{Ends, Flat, graph_of};
use guppy_core::{
    CountedGraph, DependencyDirection, Graph, GraphFault, IndexType, PackageIx, Sccs,
    TopoWithCycles,
};
use std::alloc::{AllocError, Global};

/// The components of the graph, dependents first, each in an order by the flagged links.
///
/// Looks at each link at most four times. Takes memory for some numbers a node and a byte a link, and
/// fails only where there is none.
pub fn components_of(graph: &Graph<Flat>) -> Result<Sccs<PackageIx>, AllocError>
    ensures { IfOk result (AreOrdered graph.now.links (length graph.now.nodes)) }
{
    let mut counted = CountedGraph::new(graph);
    let topo = TopoWithCycles::new(&mut counted, |flag: &bool| *flag)?;
    let sccs = Sccs::new(&mut counted, &topo)?;
    Ok(sccs)
}

// The positions of the components, end to end.
fn positions_of<Ix: IndexType>(alloc: Global, sccs: &Sccs<Ix>) -> Result<Vec<Ix>, AllocError>
    ensures { IfOk result (λ list. map Ix.index_of list.items ≡ concat sccs.now) }
{
    sccs.node_iter(DependencyDirection::Forward).collect(alloc)
}

/// Writes the positions to the front of the list, which has room for them, as numbers.
pub fn write<Ix: IndexType>(positions: &[Ix], list: &mut [u32])
    requires { length positions.now ≤ length list.old }
    ensures { take (length positions.now) list.new ≡ map Ix.index_of positions.now }
{
    for place in 0..positions.len() {
        list[place] = positions[place].index() as u32;
    }
}

/// Writes all positions, each once: components together, and of a link between two components the
/// position that it leaves first. Where the flagged links have no cycle but self-links, of each of these
/// too. There is a flag for each link, and as many positions as places in the list.
///
/// Otherwise the first fault of the links, as `Graph::from_parts` has it, or `OutOfMemory` where a
/// growth was refused; then the list is unchanged. Time grows with positions and links. Takes memory for
/// 42 bytes a link and some numbers a position.
pub fn order(
    alloc: Global,
    links: &[Ends],
    flags: &[bool],
    list: &mut [u32],
) -> Result<(), GraphFault>
    requires { length flags.now ≡ length links.now }
    ensures order { OnOk result
        (IsOrdered (flagged links.now flags.now) (length list.old) list.new) }
    ensures graph { OnOk result (MakeGraph (length list.old) (flagged links.now flags.now)) }
    ensures fault { IfErr result (IsFlatFault (length list.old) (flagged links.now flags.now)) }
    ensures unchanged { OnErr result (list.new ≡ list.old) }
{
    let graph = graph_of(alloc, list.len(), links, flags)?;
    let components = components_of(&graph)?;
    let positions = positions_of(alloc, &components)?;
    write(positions.as_slice(), list);
    Ok(())
}

// Whether a component begins at the place.
fn begins<Ix: IndexType>(sccs: &Sccs<Ix>, positions: &[Ix], place: usize) -> bool
    requires place { place < length positions.now }
    requires below { All (λ ix. Ix.index_of ix < length (concat sccs.now)) positions.now }
    ensures { (result ≡ false)
        ↔ IsWithPrevious (InOneBlock sccs.now) (map Ix.index_of positions.now) place }
{
    place == 0 || !sccs.is_same_scc(positions[place - 1], positions[place])
}

// Marks the places at which a component begins.
fn mark_firsts<Ix: IndexType>(sccs: &Sccs<Ix>, positions: &[Ix], firsts: &mut [bool])
    requires room { length positions.now ≤ length firsts.old }
    requires below { All (λ ix. Ix.index_of ix < length (concat sccs.now)) positions.now }
    ensures { (place : ℕ) → place < length positions.now → (has firsts.new place ≡ false)
        ↔ IsWithPrevious (InOneBlock sccs.now) (map Ix.index_of positions.now) place }
{
    for place in 0..positions.len() {
        firsts[place] = begins(sccs, positions, place);
    }
}

/// Writes all positions as [`order`] does, and marks the places at which a component begins. There is a
/// flag for each link, and a mark for each place of the list.
///
/// Otherwise as `order`; then no mark is changed either.
pub fn components(
    alloc: Global,
    links: &[Ends],
    flags: &[bool],
    list: &mut [u32],
    firsts: &mut [bool],
) -> Result<(), GraphFault>
    requires flags { length flags.now ≡ length links.now }
    requires firsts { length firsts.old ≡ length list.old }
    ensures order { OnOk result
        (IsOrdered (flagged links.now flags.now) (length list.old) list.new) }
    ensures firsts { OnOk result
        (MarksFirsts (flagged links.now flags.now) list.new firsts.new) }
    ensures graph { OnOk result (MakeGraph (length list.old) (flagged links.now flags.now)) }
    ensures fault { IfErr result (IsFlatFault (length list.old) (flagged links.now flags.now)) }
    ensures unchanged { OnErr result (list.new ≡ list.old) }
    ensures unmarked { OnErr result (firsts.new ≡ firsts.old) }
{
    let graph = graph_of(alloc, list.len(), links, flags)?;
    let components = components_of(&graph)?;
    let positions = positions_of(alloc, &components)?;
    write(positions.as_slice(), list);
    mark_firsts(&components, positions.as_slice(), firsts);
    Ok(())
}
