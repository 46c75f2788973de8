//! Verifying, and what stands on it: cycles over links that aren't dev-only, and the order to publish in.
use crate::told::{begin, tell_all, tell_answer, tell_line};
use crate::world::{World, graph_of, tell_graph};
use guppy::{DependencyKind, Error, PackageGraph};
use guppy_core_memory_cases::records::{Ends, id_of};
use guppy_publish::publish_order;
use std::alloc::Global;

// The packages b and c are a cycle, and a leads to it.
const TURNING: [Ends; 3] = [
    ("a", "b", Some(DependencyKind::Normal)),
    ("b", "c", Some(DependencyKind::Build)),
    ("c", "b", Some(DependencyKind::Normal)),
];

fn ask_verify(rt: &HostRuntime, graph: &PackageGraph) -> Result<(), Error> {
    begin(rt);
    let verified = graph.verify();
    tell_graph(rt, graph);
    verified?;
    tell_line(rt, &"verified");
    Ok(())
}

fn ask_order(rt: &HostRuntime, graph: &PackageGraph) -> Result<(), Error> {
    begin(rt);
    let order = publish_order(graph);
    tell_graph(rt, graph);
    tell_all(rt, order?.iter().copied(), &"in this order");
    Ok(())
}

// Asks of two packages that are a cycle, or aren't, or of which one isn't there.
fn ask_witness(
    rt: &HostRuntime,
    alloc: Global,
    graph: &PackageGraph,
    call: &str,
) -> Result<(), Error> {
    let (first, second) = match call {
        "witness" => ("b", "c"),
        "no_witness" => ("a", "b"),
        _ => ("b", "z"),
    };
    let mut ids = Vec::new(alloc);
    ids.push(id_of(alloc, first))?;
    ids.push(id_of(alloc, second))?;
    begin(rt);
    let is_witness = graph.is_cycle_witness(ids.as_slice());
    tell_graph(rt, graph);
    tell_answer(rt, is_witness)
}

fn ask_graph(
    rt: &HostRuntime,
    alloc: Global,
    graph: &PackageGraph,
    call: &str,
) -> Result<(), Error> {
    tell_graph(rt, graph);
    match call {
        "verify" | "verify_cycle" => ask_verify(rt, graph),
        "publish_order" | "publish_cycle" => ask_order(rt, graph),
        _ => ask_witness(rt, alloc, graph, call),
    }
}

pub(crate) fn ask(
    rt: &HostRuntime,
    alloc: Global,
    world: &World<'_>,
    call: &str,
) -> Result<(), Error> {
    if matches!(call, "verify" | "publish_order") {
        return ask_graph(rt, alloc, world.graph, call);
    }
    let turning = graph_of(alloc, &["a", "b", "c"], &TURNING)?;
    ask_graph(rt, alloc, &turning, call)
}
