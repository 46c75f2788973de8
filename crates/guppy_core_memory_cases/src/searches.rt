//! Searches by position, with filters that count what they are asked.
ghost use Rattle.std.specs.Prelude.{◌≡◌, ◌<◌, length, All, IfOk};
ghost use Rattle.guppy_search.specs.Resolve.{IsCallable};
ghost use Rattle.guppy_search.specs.declared.ix.direction.DependencyDirection.TheVariants.{Forward};

use crate::positions::{DevLinks, set_of, tell_core, tell_positions};
use crate::told::{begin, tell, tell_calls, tell_line};
use guppy_core::{
    BufferedEdgeFilter, DependencyDirection, Graph, IndexType, IxSet, LinkVisitor, PackageIx,
    ReachCache, Recorder, ResolveCore, reachable_buffered, reachable_buffered_mut,
    reachable_filtered, reachable_recorded, reachable_with, reachable_with_fn,
};
use std::alloc::{AllocError, Global};

const FORWARD: DependencyDirection = DependencyDirection::Forward;

// Hands back each link when it is asked about it, and counts the questions. Its lists take memory.
#[derive(Drop)]
struct Handing {
    calls: usize,
    is_refused: bool,
}

impl Handing {
    fn listed(&mut self, alloc: Global, link: usize) -> Result<Vec<usize>, AllocError>
        ensures { IfOk result (λ handed. All (λ n. n ≡ link) handed.items) }
    {
        let mut handed = Vec::new(alloc);
        if handed.push(link).is_err() {
            self.is_refused = true;
            return Err(AllocError);
        }
        Ok(handed)
    }
}

impl BufferedEdgeFilter<DevLinks> for Handing {
    ghost use Rattle.std.specs.Prelude.{⊤};

    ghost filters = { λ _ _ _ _ _. ⊤ };

    ghost discovers = { λ _ _ _ _ _. ⊤ };

    fn filter(&mut self, graph: &Graph<DevLinks>, link: usize) -> Result<Vec<usize>, AllocError> {
        self.calls = self.calls.wrapping_add(1);
        self.listed(graph.alloc(), link)
    }

    fn discover(
        &mut self,
        graph: &Graph<DevLinks>,
        _node: PackageIx,
    ) -> Result<Vec<usize>, AllocError> {
        self.calls = self.calls.wrapping_add(1);
        Ok(Vec::new(graph.alloc()))
    }
}

fn with_filter(
    graph: &Graph<DevLinks>,
    start: &IxSet<DevLinks>,
    filter: &mut Handing,
    call: &str,
) -> Result<ResolveCore<DevLinks>, AllocError>
    requires { length start.now ≡ length graph.now.nodes }
{
    let set = match call {
        "reachable_buffered" => reachable_buffered(graph, start, FORWARD, filter)?,
        "reachable_buffered_mut" => reachable_buffered_mut(graph, start, FORWARD, filter)?,
        "with_buffered_edge_filter" => {
            return ResolveCore::with_buffered_edge_filter(graph, start, FORWARD, filter);
        }
        _ => return ResolveCore::with_buffered_edge_filter_mut(graph, start, FORWARD, filter),
    };
    Ok(ResolveCore::from_included(set))
}

fn ask_buffered(
    rt: &HostRuntime,
    graph: &Graph<DevLinks>,
    start: &IxSet<DevLinks>,
    call: &str,
) -> Result<(), AllocError>
    requires { length start.now ≡ length graph.now.nodes }
{
    let mut filter = Handing {
        calls: 0,
        is_refused: false,
    };
    tell_calls(rt, filter.calls);
    begin(rt);
    let set = with_filter(graph, start, &mut filter, call);
    tell_calls(rt, filter.calls);
    if filter.is_refused {
        tell_line(rt, &"its own list was refused");
    }
    tell_core(rt, set)
}

fn with_callback<F: FnMut(usize) -> bool>(
    graph: &Graph<DevLinks>,
    start: &IxSet<DevLinks>,
    mut callback: F,
    call: &str,
) -> Result<ResolveCore<DevLinks>, AllocError>
    requires count { length start.now ≡ length graph.now.nodes }
    requires callable { IsCallable F.pre F.step Forward graph.now.links start.now callback }
{
    let set = match call {
        "reachable_filtered" => reachable_filtered(graph, start, FORWARD, callback)?,
        "reachable_with_fn" => reachable_with_fn(graph, start, FORWARD, &mut callback)?,
        "with_edge_filter" => {
            return ResolveCore::with_edge_filter(graph, start, FORWARD, callback);
        }
        _ => return ResolveCore::with_edge_filter_mut(graph, start, FORWARD, &mut callback),
    };
    Ok(ResolveCore::from_included(set))
}

fn ask_closure(
    rt: &HostRuntime,
    graph: &Graph<DevLinks>,
    start: &IxSet<DevLinks>,
    call: &str,
) -> Result<(), AllocError>
    requires { length start.now ≡ length graph.now.nodes }
{
    let mut calls = 0_usize;
    tell_calls(rt, calls);
    begin(rt);
    let callback = |_link: usize| {
        calls = calls.wrapping_add(1);
        calls != 2
    };
    let set = with_callback(graph, start, callback, call);
    tell_calls(rt, calls);
    tell_core(rt, set)
}

// Refuses the second link that it is shown, and counts all.
#[derive(Drop)]
struct RefusesSecond {
    calls: usize,
}

impl LinkVisitor for RefusesSecond {
    ghost use Rattle.std.specs.Prelude.{⊤};

    ghost visits = { λ _ _ _ _. ⊤ };

    fn visit(&mut self, _link: usize) -> bool {
        self.calls = self.calls.wrapping_add(1);
        self.calls != 2
    }
}

fn tell_entries(rt: &HostRuntime, entries: &[(usize, bool)]) {
    for (number, is_accepted) in entries {
        tell(rt, *number);
        tell(rt, *is_accepted);
    }
    tell_line(rt, &"entries");
}

// The recorder is made before, and lent.
fn ask_lent(
    rt: &HostRuntime,
    graph: &Graph<DevLinks>,
    start: &IxSet<DevLinks>,
) -> Result<(), AllocError>
    requires { length start.now ≡ length graph.now.nodes }
{
    let visitor = RefusesSecond { calls: 0 };
    let mut recorder = Recorder::new(graph.alloc(), visitor, graph.link_count())?;
    tell_calls(rt, recorder.visitor.calls);
    tell_entries(rt, recorder.entries.as_slice());
    begin(rt);
    let set = reachable_with(graph, start, FORWARD, &mut recorder);
    tell_calls(rt, recorder.visitor.calls);
    tell_entries(rt, recorder.entries.as_slice());
    tell_positions(rt, &set?);
    Ok(())
}

// The set, and the entries.
fn recorded(
    graph: &Graph<DevLinks>,
    start: &IxSet<DevLinks>,
    visitor: &mut RefusesSecond,
) -> Result<(IxSet<DevLinks>, Vec<(usize, bool)>), AllocError>
    requires { length start.now ≡ length graph.now.nodes }
{
    let (set, recorder) = reachable_recorded(graph, start, FORWARD, visitor)?;
    Ok((set, recorder.entries))
}

fn ask_recorded(
    rt: &HostRuntime,
    graph: &Graph<DevLinks>,
    start: &IxSet<DevLinks>,
) -> Result<(), AllocError>
    requires { length start.now ≡ length graph.now.nodes }
{
    let mut visitor = RefusesSecond { calls: 0 };
    tell_calls(rt, visitor.calls);
    begin(rt);
    let found = recorded(graph, start, &mut visitor);
    tell_calls(rt, visitor.calls);
    let (set, entries) = found?;
    tell_entries(rt, entries.as_slice());
    tell_positions(rt, &set);
    Ok(())
}

// Room for a search, and whether one leads from the first position to the last.
fn ask_cache(rt: &HostRuntime, graph: &Graph<DevLinks>) -> Result<(), AllocError> {
    begin(rt);
    let mut cache = ReachCache::new(graph)?;
    if graph.node_count() == 4 {
        let (first, last) = (PackageIx::new(0), PackageIx::new(3));
        tell_line(rt, &cache.reaches(graph, first, last, FORWARD));
    }
    Ok(())
}

fn ask_from(
    rt: &HostRuntime,
    graph: &Graph<DevLinks>,
    start: &IxSet<DevLinks>,
    call: &str,
) -> Result<(), AllocError>
    requires { length start.now ≡ length graph.now.nodes }
{
    match call {
        "reachable_with_fn" | "reachable_filtered" | "with_edge_filter" | "with_edge_filter_mut" =>
            { ask_closure(rt, graph, start, call) }
        "reachable_with" => ask_lent(rt, graph, start),
        "reachable_recorded" => ask_recorded(rt, graph, start),
        "reach_cache" => ask_cache(rt, graph),
        _ => ask_buffered(rt, graph, start, call),
    }
}

pub fn ask(rt: &HostRuntime, graph: &Graph<DevLinks>, call: &str) -> Result<(), AllocError> {
    let start = set_of(graph, &[0])?;
    ask_from(rt, graph, &start, call)
}
