//! The cases by group, but those that take no memory.
use crate::positions::DevLinks;
use crate::{data, ixs, positions, searches};
use guppy_core::Graph;
use std::alloc::{AllocError, Global};

// Cases that need a graph by position.
fn ask_by_position(
    rt: &HostRuntime,
    graph: &Graph<DevLinks>,
    group: &str,
    call: &str,
) -> Result<(), AllocError> {
    match group {
        "positions" => positions::ask(rt, graph, call),
        "ixs" => ixs::ask(rt, graph, call),
        _ => searches::ask(rt, graph, call),
    }
}

/// Asks for the call of a group.
pub fn ask_apart(
    rt: &HostRuntime,
    alloc: Global,
    group: &str,
    call: &str,
) -> Result<(), AllocError> {
    if group == "data" {
        return data::ask(rt, alloc, call);
    }
    if let "from_parts" | "thousand_by_sevens" = call {
        return positions::ask_for_parts(rt, alloc, call);
    }
    ask_by_position(rt, &positions::graph_of(alloc)?, group, call)
}
