//! Lists of positions: sets that are made of them, and cycles.
ghost use Rattle.std.specs.Prelude.{◌<◌, length, All, IfOk};

use crate::positions::{DevLinks, tell_core};
use crate::told::{begin, tell_all, tell_line};
use guppy_core::{CountedGraph, Graph, IndexType, IxSet, PackageIx, ResolveCore, find_cycle};
use std::alloc::AllocError;

// Those of the positions that the graph has.
fn ixs_of(graph: &Graph<DevLinks>, positions: &[usize]) -> Result<Vec<PackageIx>, AllocError>
    ensures { IfOk result (λ ixs. All (λ ix. ix.0 < length graph.now.nodes) ixs.items) }
{
    let mut ixs = Vec::new(graph.alloc());
    for position in positions {
        if *position < graph.node_count() && *position < 4_294_967_295 {
            ixs.push(PackageIx::new(*position))?;
        }
    }
    Ok(ixs)
}

fn made(graph: &Graph<DevLinks>, ixs: &[PackageIx]) -> Result<ResolveCore<DevLinks>, AllocError>
    requires { All (λ ix. ix.0 < length graph.now.nodes) ixs.now }
{
    let set = IxSet::from_ixs(graph.alloc(), ixs.iter().copied(), graph.node_count())?;
    Ok(ResolveCore::from_included(set))
}

fn made_core(
    graph: &Graph<DevLinks>,
    ixs: &[PackageIx],
) -> Result<ResolveCore<DevLinks>, AllocError>
    requires { All (λ ix. ix.0 < length graph.now.nodes) ixs.now }
{
    ResolveCore::from_ixs(graph, ixs.iter().copied())
}

// A cycle over all links.
fn any_cycle(graph: &Graph<DevLinks>) -> Result<Option<Vec<PackageIx>>, AllocError> {
    let mut counted = CountedGraph::new(graph);
    find_cycle(&mut counted, |_is_dev_only: &bool| true)
}

// A cycle over the links that aren't dev-only.
fn firm_cycle(graph: &Graph<DevLinks>) -> Result<Option<Vec<PackageIx>>, AllocError> {
    let mut counted = CountedGraph::new(graph);
    find_cycle(&mut counted, |is_dev_only: &bool| !*is_dev_only)
}

fn ask_cycle(rt: &HostRuntime, graph: &Graph<DevLinks>, call: &str) -> Result<(), AllocError> {
    begin(rt);
    let cycle = if call == "find_cycle" {
        any_cycle(graph)
    } else {
        firm_cycle(graph)
    };
    match cycle? {
        Some(cycle) => tell_all(rt, cycle.iter().copied(), &"in this order"),
        None => tell_line(rt, &"no cycle"),
    }
    Ok(())
}

fn ask_set(
    rt: &HostRuntime,
    graph: &Graph<DevLinks>,
    ixs: &[PackageIx],
    call: &str,
) -> Result<(), AllocError>
    requires { All (λ ix. ix.0 < length graph.now.nodes) ixs.now }
{
    begin(rt);
    let core = if call == "from_ixs" {
        made(graph, ixs)
    } else {
        made_core(graph, ixs)
    };
    tell_core(rt, core)
}

pub fn ask(rt: &HostRuntime, graph: &Graph<DevLinks>, call: &str) -> Result<(), AllocError> {
    if let "find_cycle" | "find_no_cycle" = call {
        return ask_cycle(rt, graph, call);
    }
    let ixs = ixs_of(graph, &[2, 0, 2])?;
    ask_set(rt, graph, ixs.as_slice(), call)
}
