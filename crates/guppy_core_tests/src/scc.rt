//! Indexes and components of small graphs and of large ones.
ghost use Rattle.std.specs.Prelude.{◌≡◌, length, IfOk};
ghost use Rattle.std.specs.List.{concat};

use crate::positions::{are_found, are_positions, assert_of, set_of};
use crate::walk::links_inside;
use guppy_core::graph_core::{CountedGraph, Graph, Link};
use guppy_core::ix::{DependencyDirection, GraphSpec, IndexType, PackageIx};
use guppy_core::resolve_core::ResolveCore;
use guppy_core::scc::Sccs;
use guppy_core::topo::TopoWithCycles;
use std::alloc::{AllocError, Global};
use std::process::Abort;

/// A graph whose links say whether they are dev-only.
pub(crate) enum DevLinks {}

impl GraphSpec for DevLinks {
    type Node = ();

    type Edge = bool;

    type Ix = PackageIx;
}

#[derive(Drop)]
pub(crate) struct Ordered {
    pub(crate) topo: TopoWithCycles<PackageIx>,
    pub(crate) sccs: Sccs<PackageIx>,
    looks: u64,
}

/// The index by the links that aren't dev-only, the components, and the looks for both.
pub(crate) fn make_ordered(graph: &Graph<DevLinks>) -> Result<Ordered, AllocError>
    ensures index { IfOk result (λ ordered. length ordered.topo ≡ length graph.now.nodes) }
    ensures components { IfOk result
        (λ ordered. length (concat ordered.sccs) ≡ length graph.now.nodes) }
{
    let mut counted = CountedGraph::new(graph);
    let topo = TopoWithCycles::new(&mut counted, |is_dev_only: &bool| !*is_dev_only)?;
    let sccs = Sccs::new(&mut counted, &topo)?;
    Ok(Ordered {
        topo,
        sccs,
        looks: counted.looks(),
    })
}

/// A graph with these links.
pub(crate) fn graph_of(
    rt: &impl Abort,
    alloc: Global,
    node_count: usize,
    ends: &[(usize, usize)],
) -> Graph<DevLinks>
    ensures { length result.nodes ≡ node_count }
{
    let nodes = vec![in alloc; (); node_count].expect(rt, "nodes");
    let mut links = Vec::new(alloc);
    for (from, to) in ends {
        let link = Link {
            from: *from,
            to: *to,
            edge: false,
        };
        links.push(link).expect(rt, "links");
    }
    Graph::from_parts(nodes, links).expect(rt, "a graph")
}

// Whether these are the positions at each index.
fn has_indexes(
    graph: &Graph<DevLinks>,
    topo: &TopoWithCycles<PackageIx>,
    by_index: &[usize],
) -> bool
    requires { length topo.now ≡ length graph.now.nodes }
{
    for (index, position) in by_index.iter().enumerate() {
        if *position >= graph.node_count().min(4_294_967_295) {
            return false;
        }
        if topo.topo_ix(PackageIx::new(*position)) != index {
            return false;
        }
    }
    by_index.len() == graph.node_count()
}

// The positions of a graph by their index.
struct Indexed {
    name: &'static str,
    node_count: usize,
    links: &'static [(usize, usize)],
    by_index: &'static [usize],
}

const INDEXED: &[Indexed] = &[
    Indexed {
        name: "unreached_last",
        node_count: 3,
        links: &[(0, 1), (1, 0)],
        by_index: &[2, 0, 1],
    },
    Indexed {
        name: "self_link_is_no_root_loss",
        node_count: 2,
        links: &[(1, 0), (1, 1)],
        by_index: &[1, 0],
    },
    Indexed {
        name: "sorts_by_the_index",
        node_count: 3,
        links: &[(2, 0), (0, 1)],
        by_index: &[2, 0, 1],
    },
];

// Whether all nodes, sorted, are those of the positions.
fn sorts(
    rt: &impl Abort,
    graph: &Graph<DevLinks>,
    topo: &TopoWithCycles<PackageIx>,
    by_index: &[usize],
) -> bool
    requires { length topo.now ≡ length graph.now.nodes }
{
    let set = set_of(rt, graph, &[0, 1, 2]);
    let mut ixs = set
        .ones()
        .collect::<Vec<_>>(graph.alloc())
        .expect(rt, "nodes");
    topo.sort_nodes(ixs.as_mut_slice());
    are_positions(ixs.as_slice(), by_index)
}

fn indexes_of(rt: &impl Abort, alloc: Global, indexed: &Indexed) {
    let graph = graph_of(rt, alloc, indexed.node_count, indexed.links);
    let ordered = make_ordered(&graph).expect(rt, indexed.name);
    assert_of(rt, indexed.name, ordered.looks <= 8);
    let holds = has_indexes(&graph, &ordered.topo, indexed.by_index)
        && sorts(rt, &graph, &ordered.topo, indexed.by_index);
    assert_of(rt, indexed.name, holds);
}

#[test]
fn indexes(rt: HostRuntime) {
    for indexed in INDEXED {
        indexes_of(&rt, rt.alloc(), indexed);
    }
}

// The roots of all three nodes of a graph.
struct Rooted {
    name: &'static str,
    links: &'static [(usize, usize)],
    direction: DependencyDirection,
    roots: &'static [usize],
}

const CYCLIC: [(usize, usize); 4] = [(0, 1), (1, 0), (0, 0), (0, 2)];

const SELF_LINKS: [(usize, usize); 5] = [(0, 1), (1, 2), (0, 0), (1, 1), (2, 2)];

const ROOTED: &[Rooted] = &[
    Rooted {
        name: "cyclic_roots",
        links: &CYCLIC,
        direction: DependencyDirection::Forward,
        roots: &[0, 1],
    },
    Rooted {
        name: "cyclic_roots",
        links: &CYCLIC,
        direction: DependencyDirection::Reverse,
        roots: &[2],
    },
    Rooted {
        name: "chain_with_self_links",
        links: &SELF_LINKS,
        direction: DependencyDirection::Forward,
        roots: &[0],
    },
    Rooted {
        name: "chain_with_self_links",
        links: &SELF_LINKS,
        direction: DependencyDirection::Reverse,
        roots: &[2],
    },
];

// Whether the roots are these, by each call that tells.
fn has_roots(
    rt: &impl Abort,
    graph: &Graph<DevLinks>,
    sccs: &Sccs<PackageIx>,
    rooted: &Rooted,
) -> bool
    requires { length (concat sccs.now) ≡ length graph.now.nodes }
{
    let set = ResolveCore::from_included(set_of(rt, graph, &[0, 1, 2]));
    let externals = sccs.externals(graph, set.included(), rooted.direction);
    let roots = set.roots(graph, sccs, rooted.direction);
    are_found(externals, rooted.roots) && are_found(roots, rooted.roots)
}

fn roots_of(rt: &impl Abort, alloc: Global, rooted: &Rooted) {
    let graph = graph_of(rt, alloc, 3, rooted.links);
    let ordered = make_ordered(&graph).expect(rt, rooted.name);
    assert_of(
        rt,
        rooted.name,
        has_roots(rt, &graph, &ordered.sccs, rooted),
    );
}

#[test]
fn roots(rt: HostRuntime) {
    for rooted in ROOTED {
        roots_of(&rt, rt.alloc(), rooted);
    }
}

// Whether two of the three components are the last one's node and the ring before it.
fn ends_with_a_ring(sccs: &Sccs<PackageIx>) -> bool {
    let mut components = sccs.all_sccs();
    let count = components.len();
    match (components.next_back(), components.next_back()) {
        (Some(last), Some(ring)) => {
            count == 3 && last.len() == 1 && ring.len() == 2 && components.len() == 1
        }
        _ => false,
    }
}

fn components_hold(sccs: &Sccs<PackageIx>) -> bool
    requires { length (concat sccs.now) ≡ 4 }
{
    let (first, second, last) = (PackageIx::new(1), PackageIx::new(2), PackageIx::new(3));
    let nodes = sccs.node_iter(DependencyDirection::Reverse);
    sccs.is_same_scc(first, second)
        && !sccs.is_same_scc(first, last)
        && sccs.in_multi_scc(second)
        && !sccs.in_multi_scc(last)
        && nodes.direction() == DependencyDirection::Reverse
        && ends_with_a_ring(sccs)
}

#[test]
fn components_of_a_chain_with_a_ring(rt: HostRuntime) {
    let graph = graph_of(&rt, rt.alloc(), 4, &[(0, 1), (1, 2), (2, 3), (2, 1)]);
    let ordered = make_ordered(&graph).expect(&rt, "components_of_a_chain_with_a_ring");
    assert_of(
        &rt,
        "components_of_a_chain_with_a_ring",
        components_hold(&ordered.sccs),
    );
}

// Whether there is one component, of so many nodes.
fn is_one_component(sccs: &Sccs<PackageIx>, length: usize) -> bool {
    let mut components = sccs.all_sccs();
    let count = components.len();
    match components.next() {
        Some(component) => count == 1 && component.len() == length,
        None => false,
    }
}

// Whether the nodes of the ring are one component, in their order.
fn is_ring(graph: &Graph<DevLinks>, ordered: &Ordered, positions: &[usize]) -> bool
    requires { length ordered.now.topo ≡ length graph.now.nodes }
{
    let nodes = ordered.sccs.node_iter(DependencyDirection::Forward);
    has_indexes(graph, &ordered.topo, positions)
        && are_found(nodes.collect(graph.alloc()), positions)
        && is_one_component(&ordered.sccs, positions.len())
}

fn ring_holds(rt: &impl Abort, graph: &Graph<DevLinks>, positions: &[usize]) {
    let ordered = make_ordered(graph).expect(rt, "ring_1000");
    assert_of(rt, "ring_1000", is_ring(graph, &ordered, positions));
    let forward = DependencyDirection::Forward;
    let all = links_inside(rt, graph, &ordered.sccs, positions, forward);
    assert_of(rt, "ring_1000", all.len() == 1000);
    let none = links_inside(rt, graph, &ordered.sccs, &[0, 2], forward);
    assert_of(rt, "ring_1000", none.is_empty());
}

// The ends of the links of a ring, and its positions.
fn ring_of(rt: &impl Abort, alloc: Global, count: usize) -> (Vec<(usize, usize)>, Vec<usize>) {
    let mut ends = Vec::new(alloc);
    let mut positions = Vec::new(alloc);
    for from in 0..count {
        ends.push((from, (from + 1) % count)).expect(rt, "links");
        positions.push(from).expect(rt, "positions");
    }
    (ends, positions)
}

#[test]
fn ring_1000(rt: HostRuntime) {
    let (ends, positions) = ring_of(&rt, rt.alloc(), 1000);
    let graph = graph_of(&rt, rt.alloc(), 1000, ends.as_slice());
    ring_holds(&rt, &graph, positions.as_slice());
}
