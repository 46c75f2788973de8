//! Sets of small graphs.
ghost use Rattle.std.specs.Prelude.{◌≡◌, ◌<◌, length, All, IfOk};

use crate::positions::{assert_of, has_positions, ixs_of, set_of};
use crate::scc::{DevLinks, graph_of};
use guppy_core::graph_core::Graph;
use guppy_core::ix::{DependencyDirection, IndexType, PackageIx};
use guppy_core::resolve_core::ResolveCore;
use std::alloc::{AllocError, Global};
use std::process::Abort;

const FORWARD: DependencyDirection = DependencyDirection::Forward;

// How a set is made.
#[derive(Clone, Copy)]
enum Maker {
    // what a position leads to
    Resolve(usize),
    // what a position leads to by links with an odd number
    OddLinks(usize),
    AllNodes,
    Empty,
    // a set of the positions
    Included(&'static [usize]),
    // the positions one by one
    Ixs(&'static [usize]),
}

struct Made {
    name: &'static str,
    node_count: usize,
    links: &'static [(usize, usize)],
    maker: Maker,
    included: &'static [usize],
}

const MADE: &[Made] = &[
    Made {
        name: "plain_resolve",
        node_count: 4,
        links: &[(0, 1), (1, 2), (3, 2)],
        maker: Maker::Resolve(1),
        included: &[1, 2],
    },
    Made {
        name: "odd_links_alone",
        node_count: 4,
        links: &[(0, 1), (0, 2), (1, 3), (2, 3)],
        maker: Maker::OddLinks(0),
        included: &[0, 2, 3],
    },
    Made {
        name: "all_nodes_and_none",
        node_count: 3,
        links: &[(0, 1)],
        maker: Maker::AllNodes,
        included: &[0, 1, 2],
    },
    Made {
        name: "all_nodes_and_none",
        node_count: 3,
        links: &[(0, 1)],
        maker: Maker::Empty,
        included: &[],
    },
    Made {
        name: "given_positions",
        node_count: 3,
        links: &[(0, 1)],
        maker: Maker::Included(&[2]),
        included: &[2],
    },
    Made {
        name: "given_positions",
        node_count: 3,
        links: &[(0, 1)],
        maker: Maker::Ixs(&[2, 0, 2]),
        included: &[0, 2],
    },
];

fn of_ixs(graph: &Graph<DevLinks>, ixs: &[PackageIx]) -> Result<ResolveCore<DevLinks>, AllocError>
    requires { All (λ ix. ix.0 < length graph.now.nodes) ixs.now }
    ensures { IfOk result (λ set. length set ≡ length graph.now.nodes) }
{
    ResolveCore::from_ixs(graph, ixs.iter().copied())
}

fn made_by(rt: &impl Abort, graph: &Graph<DevLinks>, maker: Maker) -> ResolveCore<DevLinks>
    ensures { length result ≡ length graph.now.nodes }
{
    let made = match maker {
        Maker::Resolve(start) => ResolveCore::new(graph, &set_of(rt, graph, &[start]), FORWARD),
        Maker::OddLinks(start) => {
            let start = set_of(rt, graph, &[start]);
            ResolveCore::with_edge_filter(graph, &start, FORWARD, |link| link % 2 == 1)
        }
        Maker::AllNodes => ResolveCore::all_nodes(graph),
        Maker::Empty => ResolveCore::empty(graph.alloc(), graph.node_count()),
        Maker::Included(positions) => Ok(ResolveCore::from_included(set_of(rt, graph, positions))),
        Maker::Ixs(positions) => {
            let ixs = ixs_of(rt, graph.alloc(), positions, graph.node_count());
            of_ixs(graph, ixs.as_slice())
        }
    };
    made.expect(rt, "a set")
}

// Whether exactly these are in the set, by each call that tells.
fn includes(graph: &Graph<DevLinks>, set: &ResolveCore<DevLinks>, wanted: &[usize]) -> bool
    requires { length set.now ≡ length graph.now.nodes }
{
    for position in 0..graph.node_count().min(256) {
        if set.contains(PackageIx::new(position)) != wanted.contains(&position) {
            return false;
        }
    }
    set.len() == wanted.len()
        && set.is_empty() == wanted.is_empty()
        && has_positions(set.included(), wanted)
}

fn has_copy(graph: &Graph<DevLinks>, set: &ResolveCore<DevLinks>, wanted: &[usize]) -> bool
    requires { length set.now ≡ length graph.now.nodes }
{
    match set.clone() {
        Ok(copy) => includes(graph, &copy, wanted),
        Err(_) => false,
    }
}

fn set_made(rt: &impl Abort, alloc: Global, made: &Made) {
    let graph = graph_of(rt, alloc, made.node_count, made.links);
    let set = made_by(rt, &graph, made.maker);
    assert_of(rt, made.name, includes(&graph, &set, made.included));
    assert_of(rt, made.name, has_copy(&graph, &set, made.included));
}

#[test]
fn sets(rt: HostRuntime) {
    for made in MADE {
        set_made(&rt, rt.alloc(), made);
    }
}

#[derive(Clone, Copy)]
enum Operation {
    Union,
    Intersection,
    Difference,
    SymmetricDifference,
}

const SET_OPERATIONS: &[(&str, Operation, &[usize])] = &[
    ("union", Operation::Union, &[0, 1, 2]),
    ("intersection", Operation::Intersection, &[1]),
    ("difference", Operation::Difference, &[0]),
    (
        "symmetric difference",
        Operation::SymmetricDifference,
        &[0, 2],
    ),
];

fn combined(
    first: &ResolveCore<DevLinks>,
    second: &ResolveCore<DevLinks>,
    operation: Operation,
) -> Result<ResolveCore<DevLinks>, AllocError>
    requires { length first.now ≡ length second.now }
    ensures { IfOk result (λ set. length set ≡ length first.now) }
{
    if let Operation::Difference = operation {
        return first.difference(second);
    }
    let mut set = first.clone()?;
    match operation {
        Operation::Union => set.union_with(second),
        Operation::Intersection => set.intersect_with(second),
        _ => set.symmetric_difference_with(second),
    }
    Ok(set)
}

fn operation_holds(
    rt: &impl Abort,
    graph: &Graph<DevLinks>,
    first: &ResolveCore<DevLinks>,
    second: &ResolveCore<DevLinks>,
    case: &(&str, Operation, &[usize]),
)
    requires sets { length first.now ≡ length second.now }
    requires graph { length first.now ≡ length graph.now.nodes }
{
    let (name, operation, wanted) = case;
    let set = combined(first, second, *operation).expect(rt, name);
    assert_of(rt, name, includes(graph, &set, wanted));
}

// What the operations make of the sets of the first two and of the last two positions.
fn operations_hold(rt: &impl Abort, graph: &Graph<DevLinks>) {
    let first = made_by(rt, graph, Maker::Ixs(&[0, 1]));
    let second = made_by(rt, graph, Maker::Ixs(&[1, 2]));
    for case in SET_OPERATIONS {
        operation_holds(rt, graph, &first, &second, case);
    }
}

#[test]
fn set_operations(rt: HostRuntime) {
    let graph = graph_of(&rt, rt.alloc(), 3, &[(0, 1)]);
    operations_hold(&rt, &graph);
}
