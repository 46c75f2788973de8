//! Walks over the links of small sets.
ghost use Rattle.std.specs.Prelude.{◌≡◌, length};
ghost use Rattle.std.specs.List.{concat};

use crate::positions::{assert_of, set_of};
use crate::scc::{DevLinks, graph_of, make_ordered};
use guppy_core::graph_core::Graph;
use guppy_core::ix::{DependencyDirection, IndexType, PackageIx};
use guppy_core::resolve_core::ResolveCore;
use guppy_core::scc::Sccs;
use guppy_core::walk::EdgeDfs;
use std::alloc::Global;
use std::process::Abort;

const FORWARD: DependencyDirection = DependencyDirection::Forward;

const REVERSE: DependencyDirection = DependencyDirection::Reverse;

// A walk inside the first three of a chain's positions, and its links by from, to and number. A
// walk with starts begins at these, and one with none at the roots of the set.
struct Walk {
    name: &'static str,
    node_count: usize,
    ends: &'static [(usize, usize)],
    direction: DependencyDirection,
    starts: Option<&'static [usize]>,
    links: &'static [(usize, usize, usize)],
}

// A start outside of the set leads nowhere.
const WALKS: &[Walk] = &[
    Walk {
        name: "walks_from_given_starts",
        node_count: 4,
        ends: &[(0, 1), (1, 2), (2, 3)],
        direction: FORWARD,
        starts: Some(&[1]),
        links: &[(1, 2, 1)],
    },
    Walk {
        name: "walks_from_given_starts",
        node_count: 4,
        ends: &[(0, 1), (1, 2), (2, 3)],
        direction: REVERSE,
        starts: Some(&[2, 3]),
        links: &[(1, 2, 1), (0, 1, 0)],
    },
    Walk {
        name: "links_of_a_chain",
        node_count: 3,
        ends: &[(0, 1), (1, 2)],
        direction: FORWARD,
        starts: None,
        links: &[(0, 1, 0), (1, 2, 1)],
    },
    Walk {
        name: "links_of_a_chain",
        node_count: 3,
        ends: &[(0, 1), (1, 2)],
        direction: REVERSE,
        starts: None,
        links: &[(1, 2, 1), (0, 1, 0)],
    },
];

type Links = Vec<(PackageIx, PackageIx, usize)>;

/// The links inside the set of these positions, from its roots.
pub(crate) fn links_inside(
    rt: &impl Abort,
    graph: &Graph<DevLinks>,
    sccs: &Sccs<PackageIx>,
    positions: &[usize],
    direction: DependencyDirection,
) -> Links
    requires { length (concat sccs.now) ≡ length graph.now.nodes }
{
    let set = ResolveCore::from_included(set_of(rt, graph, positions));
    let links = set.links(graph, sccs, direction).expect(rt, "links");
    links.collect(graph.alloc()).expect(rt, "links")
}

fn links_from_roots(
    rt: &impl Abort,
    graph: &Graph<DevLinks>,
    direction: DependencyDirection,
) -> Links {
    let ordered = make_ordered(graph).expect(rt, "components");
    links_inside(rt, graph, &ordered.sccs, &[0, 1, 2], direction)
}

fn links_from(
    rt: &impl Abort,
    graph: &Graph<DevLinks>,
    starts: &[usize],
    direction: DependencyDirection,
) -> Links {
    let set = set_of(rt, graph, &[0, 1, 2]);
    let starts = set_of(rt, graph, starts);
    let links = EdgeDfs::new(graph, &set, direction, &starts).expect(rt, "links");
    links.collect(graph.alloc()).expect(rt, "links")
}

fn are_links(found: &[(PackageIx, PackageIx, usize)], wanted: &[(usize, usize, usize)]) -> bool {
    for (place, (from, to, number)) in found.iter().enumerate() {
        if wanted.get(place) != Some(&(from.index(), to.index(), *number)) {
            return false;
        }
    }
    found.len() == wanted.len()
}

fn walk_on(rt: &impl Abort, alloc: Global, walk: &Walk) {
    let graph = graph_of(rt, alloc, walk.node_count, walk.ends);
    let links = match walk.starts {
        Some(starts) => links_from(rt, &graph, starts, walk.direction),
        None => links_from_roots(rt, &graph, walk.direction),
    };
    assert_of(rt, walk.name, are_links(links.as_slice(), walk.links));
}

#[test]
fn walks(rt: HostRuntime) {
    for walk in WALKS {
        walk_on(&rt, rt.alloc(), walk);
    }
}
