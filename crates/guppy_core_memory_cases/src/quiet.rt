//! Calls that take no memory.
use crate::data::status_of;
use crate::positions::{DevLinks, graph_of, index_of, set_of, tell_positions};
use crate::told::{begin, tell, tell_all, tell_line};
use guppy_core::{Graph, IndexType, PackageIx, ResolveCore};
use guppy_data::{
    EnabledTernary, ExternalSource, PlatformSpec, PlatformStatus, PlatformStatusImpl, SortedSet,
    TargetEval, TargetSpec, Utf8Path,
};
use std::alloc::{AllocError, Global};

/// Answers nothing to each text.
pub struct KnowsNothing;

impl TargetEval for KnowsNothing {
    ghost use Rattle.std.specs.Prelude.{None};

    type Platform = ();

    ghost answer = { λ _ _ _. None };

    fn eval(&self, _spec: &TargetSpec, _platform: &()) -> Option<bool> {
        None
    }
}

fn ask_positions(rt: &HostRuntime, graph: &Graph<DevLinks>) -> Result<(), AllocError> {
    let y = set_of(graph, &[1, 2])?;
    let mut x = set_of(graph, &[0, 1])?;
    begin(rt);
    x.union_with(&y);
    tell_positions(rt, &x);
    x.symmetric_difference_with(&y);
    tell_positions(rt, &x);
    x.intersect_with(&y);
    tell_positions(rt, &x);
    Ok(())
}

// The same of the sets that resolves included.
fn ask_cores(rt: &HostRuntime, graph: &Graph<DevLinks>) -> Result<(), AllocError> {
    let y = ResolveCore::from_included(set_of(graph, &[1, 2])?);
    let mut x = ResolveCore::from_included(set_of(graph, &[0, 1])?);
    begin(rt);
    x.union_with(&y);
    tell(rt, x.len());
    x.symmetric_difference_with(&y);
    tell(rt, x.len());
    x.intersect_with(&y);
    tell_line(rt, &x.is_empty());
    Ok(())
}

// Positions are sorted by their places in an index.
fn ask_index(rt: &HostRuntime, graph: &Graph<DevLinks>) -> Result<(), AllocError> {
    let topo = index_of(graph)?;
    let mut ixs = [PackageIx::new(2), PackageIx::new(0), PackageIx::new(1)];
    begin(rt);
    topo.sort_nodes(&mut ixs);
    tell_all(rt, ixs.iter().copied(), &"in this order");
    Ok(())
}

fn ask_numbers(rt: &HostRuntime, alloc: Global, call: &str) -> Result<(), AllocError> {
    let graph = graph_of(alloc)?;
    match call {
        "index" => ask_index(rt, &graph),
        "cores" => ask_cores(rt, &graph),
        _ => ask_positions(rt, &graph),
    }
}

// Sorted sets, sources, paths and statuses.
fn tell_data(
    rt: &HostRuntime,
    items: Vec<&str>,
    status: &mut PlatformStatusImpl,
    platform: &PlatformSpec<()>,
) -> Result<(), AllocError> {
    begin(rt);
    let set = SortedSet::new(items);
    tell(rt, set.contains(&"a"));
    tell(rt, ExternalSource::new("git+u?branch=b#r").is_some());
    tell(rt, Utf8Path::new("a/./b") == Utf8Path::new("a/b"));
    let value = PlatformStatus::new(status).enabled_on(platform, &KnowsNothing);
    tell(rt, value == EnabledTernary::Unknown);
    status.add_spec(None)?;
    tell_line(rt, &status.is_never());
    Ok(())
}

fn ask_data(rt: &HostRuntime, alloc: Global) -> Result<(), AllocError> {
    let mut status = status_of(alloc, &["x", "y"])?;
    let platform = PlatformSpec::one(alloc, ())?;
    let items = vec![in alloc; "b", "a", "b"]?;
    tell_data(rt, items, &mut status, &platform)
}

/// Asks for one of these cases.
pub fn ask_quiet(rt: &HostRuntime, alloc: Global, call: &str) -> Result<(), AllocError> {
    if call == "data" {
        return ask_data(rt, alloc);
    }
    ask_numbers(rt, alloc, call)
}
