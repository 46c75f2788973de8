//! Graphs, sets, indexes and components by position.
ghost use Rattle.std.specs.Prelude.{◌≡◌, length, IfOk};
ghost use Rattle.std.specs.Iterator.{IsFinite};
ghost use Rattle.std.specs.List.{concat};

use crate::told::{begin, tell, tell_all, tell_line};
use guppy_core::{
    CountedGraph, DependencyDirection, EdgeDfs, Graph, GraphSpec, IndexType, IxSet, Link,
    PackageIx, ResolveCore, Sccs, TopoWithCycles, reachable,
};
use std::alloc::{AllocError, Global};

/// A graph whose links say whether they are dev-only.
pub enum DevLinks {}

impl GraphSpec for DevLinks {
    type Node = ();

    type Edge = bool;

    type Ix = PackageIx;
}

const FORWARD: DependencyDirection = DependencyDirection::Forward;

// Two that lead to each other, with one before them, one behind, and a link from one to itself.
const ENDS: [(usize, usize, bool); 5] = [
    (0, 1, false),
    (1, 2, false),
    (2, 1, true),
    (2, 3, true),
    (3, 3, false),
];

// Of so many nodes, each with a link to the place that is seven times its own and three more, and one to eleven
// times and five more.
const MANY: usize = 1000;

fn many_links(alloc: Global) -> Result<Vec<Link<bool>>, AllocError> {
    let mut links = Vec::new(alloc);
    for from in 0..MANY {
        for to in [(7 * from + 3) % MANY, (11 * from + 5) % MANY] {
            let edge = false;
            links.push(Link { from, to, edge })?;
        }
    }
    Ok(links)
}

fn links_of(alloc: Global) -> Result<Vec<Link<bool>>, AllocError> {
    let mut links = Vec::new(alloc);
    for (from, to, edge) in ENDS {
        links.push(Link { from, to, edge })?;
    }
    Ok(links)
}

fn made_of(nodes: Vec<()>, links: Vec<Link<bool>>) -> Result<Graph<DevLinks>, AllocError> {
    match Graph::from_parts(nodes, links) {
        Ok(graph) => Ok(graph),
        Err(_) => Err(AllocError),
    }
}

pub fn graph_of(alloc: Global) -> Result<Graph<DevLinks>, AllocError> {
    let nodes = vec![in alloc; (); 4]?;
    made_of(nodes, links_of(alloc)?)
}

/// The set of those of the positions that the graph has.
pub fn set_of(graph: &Graph<DevLinks>, positions: &[usize]) -> Result<IxSet<DevLinks>, AllocError>
    ensures { IfOk result (λ set. length set ≡ length graph.now.nodes) }
{
    let mut set = IxSet::empty(graph.alloc(), graph.node_count())?;
    for position in positions {
        if *position < graph.node_count() && *position < 4_294_967_295 {
            set.insert_position(*position);
        }
    }
    Ok(set)
}

pub fn tell_positions(rt: &HostRuntime, set: &IxSet<DevLinks>) {
    tell_all(rt, set.ones(), &"positions");
}

/// The positions of what was included, where memory was found.
pub fn tell_core(
    rt: &HostRuntime,
    core: Result<ResolveCore<DevLinks>, AllocError>,
) -> Result<(), AllocError> {
    tell_positions(rt, core?.included());
    Ok(())
}

pub fn index_of(graph: &Graph<DevLinks>) -> Result<TopoWithCycles<PackageIx>, AllocError>
    ensures { IfOk result (λ topo. length topo ≡ length graph.now.nodes) }
{
    let mut counted = CountedGraph::new(graph);
    TopoWithCycles::new(&mut counted, |is_dev_only: &bool| !*is_dev_only)
}

// The components. Their making, or that of the index, is the call where it is asked for.
fn components(
    rt: &HostRuntime,
    graph: &Graph<DevLinks>,
    call: &str,
) -> Result<Sccs<PackageIx>, AllocError>
    ensures { IfOk result (λ sccs. length (concat sccs) ≡ length graph.now.nodes) }
{
    if call == "index" {
        begin(rt);
    }
    let topo = index_of(graph)?;
    if call == "components" {
        begin(rt);
    }
    let mut counted = CountedGraph::new(graph);
    Sccs::new(&mut counted, &topo)
}

fn made_set(
    graph: &Graph<DevLinks>,
    x: &IxSet<DevLinks>,
    y: &IxSet<DevLinks>,
    call: &str,
) -> Result<IxSet<DevLinks>, AllocError>
    requires x { length x.now ≡ length graph.now.nodes }
    requires y { length y.now ≡ length graph.now.nodes }
{
    match call {
        "difference" => x.difference(y),
        "clone" => x.clone(),
        "reachable" => reachable(graph, x, FORWARD),
        _ => IxSet::empty(graph.alloc(), graph.node_count()),
    }
}

fn made(
    graph: &Graph<DevLinks>,
    x: &ResolveCore<DevLinks>,
    y: &ResolveCore<DevLinks>,
    call: &str,
) -> Result<ResolveCore<DevLinks>, AllocError>
    requires x { length x.now ≡ length graph.now.nodes }
    requires y { length y.now ≡ length graph.now.nodes }
{
    match call {
        "core_difference" => x.difference(y),
        "core_clone" => x.clone(),
        "core_new" => ResolveCore::new(graph, x.included(), FORWARD),
        "core_all_nodes" => ResolveCore::all_nodes(graph),
        "core_empty" => ResolveCore::empty(graph.alloc(), graph.node_count()),
        _ => {
            let set = made_set(graph, x.included(), y.included(), call)?;
            Ok(ResolveCore::from_included(set))
        }
    }
}

// Positions in an order: roots, or all by their components.
fn listed(
    graph: &Graph<DevLinks>,
    x: &ResolveCore<DevLinks>,
    sccs: &Sccs<PackageIx>,
    call: &str,
) -> Result<Vec<PackageIx>, AllocError>
    requires x { length x.now ≡ length graph.now.nodes }
    requires sccs { length (concat sccs.now) ≡ length graph.now.nodes }
{
    match call {
        "externals" => sccs.externals(graph, x.included(), FORWARD),
        "core_roots" => x.roots(graph, sccs, FORWARD),
        _ => sccs.node_iter(FORWARD).collect(graph.alloc()),
    }
}

fn tell_links<I: Iterator<Item = (PackageIx, PackageIx, usize)> + Drop>(rt: &HostRuntime, links: I)
    requires can { I.can_next links }
    requires ends { IsFinite (I.remaining links) }
{
    for (_, _, number) in links {
        tell(rt, number);
    }
    tell_line(rt, &"links");
}

fn ask_of_components(
    rt: &HostRuntime,
    graph: &Graph<DevLinks>,
    x: &ResolveCore<DevLinks>,
    sccs: &Sccs<PackageIx>,
    call: &str,
) -> Result<(), AllocError>
    requires x { length x.now ≡ length graph.now.nodes }
    requires sccs { length (concat sccs.now) ≡ length graph.now.nodes }
{
    if !matches!(call, "index" | "components") {
        begin(rt);
    }
    match call {
        "core_links" => tell_links(rt, x.links(graph, sccs, FORWARD)?),
        "edge_dfs" => {
            let included = x.included();
            tell_links(rt, EdgeDfs::new(graph, included, FORWARD, included)?);
        }
        _ => {
            let list = listed(graph, x, sccs, call)?;
            tell_all(rt, list.iter().copied(), &"in this order");
        }
    }
    Ok(())
}

fn ask_lists(
    rt: &HostRuntime,
    graph: &Graph<DevLinks>,
    x: &ResolveCore<DevLinks>,
    call: &str,
) -> Result<(), AllocError>
    requires x { length x.now ≡ length graph.now.nodes }
{
    let sccs = components(rt, graph, call)?;
    ask_of_components(rt, graph, x, &sccs, call)
}

fn ask_made(
    rt: &HostRuntime,
    graph: &Graph<DevLinks>,
    x: &ResolveCore<DevLinks>,
    y: &ResolveCore<DevLinks>,
    call: &str,
) -> Result<(), AllocError>
    requires x { length x.now ≡ length graph.now.nodes }
    requires y { length y.now ≡ length graph.now.nodes }
{
    begin(rt);
    let set = made(graph, x, y, call);
    tell_positions(rt, x.included());
    tell_core(rt, set)
}

fn ask_of_sets(
    rt: &HostRuntime,
    graph: &Graph<DevLinks>,
    x: &ResolveCore<DevLinks>,
    y: &ResolveCore<DevLinks>,
    call: &str,
) -> Result<(), AllocError>
    requires x { length x.now ≡ length graph.now.nodes }
    requires y { length y.now ≡ length graph.now.nodes }
{
    tell_positions(rt, x.included());
    match call {
        "index" | "components" | "externals" | "edge_dfs" | "core_roots" | "core_links" => {
            let told = ask_lists(rt, graph, x, call);
            tell_positions(rt, x.included());
            told
        }
        _ => ask_made(rt, graph, x, y, call),
    }
}

pub fn ask(rt: &HostRuntime, graph: &Graph<DevLinks>, call: &str) -> Result<(), AllocError> {
    let x = ResolveCore::from_included(set_of(graph, &[0, 1])?);
    let y = ResolveCore::from_included(set_of(graph, &[1, 2])?);
    ask_of_sets(rt, graph, &x, &y, call)
}

fn ask_parts(
    rt: &HostRuntime,
    alloc: Global,
    count: usize,
    links: Vec<Link<bool>>,
) -> Result<(), AllocError> {
    let nodes = vec![in alloc; (); count]?;
    begin(rt);
    let graph = made_of(nodes, links)?;
    tell(rt, graph.node_count());
    tell_line(rt, &graph.link_count());
    Ok(())
}

/// Makes a graph by position of its parts.
pub fn ask_for_parts(rt: &HostRuntime, alloc: Global, call: &str) -> Result<(), AllocError> {
    if call == "from_parts" {
        return ask_parts(rt, alloc, 4, links_of(alloc)?);
    }
    ask_parts(rt, alloc, MANY, many_links(alloc)?)
}
