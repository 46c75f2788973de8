//! Cycles over the links that are kept.
use crate::positions::{are_positions, assert_of};
use crate::scc::DevLinks;
use guppy_core::find_cycle;
use guppy_core::graph_core::{CountedGraph, Graph, Link};
use guppy_core::ix::PackageIx;
use std::alloc::{AllocError, Global};
use std::process::Abort;

// The links of three nodes, by from, to and whether they are dev-only, and the turns of their cycle.
struct Cyclic {
    name: &'static str,
    links: &'static [(usize, usize, bool)],
    turns: &'static [&'static [usize]],
}

const CYCLIC: &[Cyclic] = &[
    Cyclic {
        name: "two_normal",
        links: &[(0, 1, false), (1, 0, false)],
        turns: &[&[0, 1], &[1, 0]],
    },
    Cyclic {
        name: "self_link_is_fine",
        links: &[(0, 0, false), (0, 1, false)],
        turns: &[],
    },
    Cyclic {
        name: "dev_back_is_fine",
        links: &[(0, 1, false), (1, 0, true)],
        turns: &[],
    },
    Cyclic {
        name: "entered_from_outside",
        links: &[(0, 1, false), (1, 2, false), (2, 1, false), (2, 0, true)],
        turns: &[&[1, 2], &[2, 1]],
    },
    Cyclic {
        name: "reached_twice",
        links: &[(0, 1, false), (0, 2, false), (1, 2, false)],
        turns: &[],
    },
];

fn graph_of(rt: &impl Abort, alloc: Global, ends: &[(usize, usize, bool)]) -> Graph<DevLinks> {
    let mut links = Vec::new(alloc);
    for (from, to, edge) in ends {
        let link = Link {
            from: *from,
            to: *to,
            edge: *edge,
        };
        links.push(link).expect(rt, "links");
    }
    let nodes = vec![in alloc; (); 3].expect(rt, "nodes");
    Graph::from_parts(nodes, links).expect(rt, "a graph")
}

fn is_turn(cycle: &[PackageIx], turns: &[&[usize]]) -> bool {
    for turn in turns {
        if are_positions(cycle, turn) {
            return true;
        }
    }
    false
}

// Whether the cycle that is found is one of the turns, and no more links are looked at than there are.
fn finds(graph: &Graph<DevLinks>, turns: &[&[usize]]) -> Result<bool, AllocError> {
    let mut counted = CountedGraph::new(graph);
    let found = find_cycle(&mut counted, |is_dev_only: &bool| !*is_dev_only)?;
    let is_right = match &found {
        Some(cycle) => is_turn(cycle.as_slice(), turns),
        None => turns.is_empty(),
    };
    Ok(is_right && counted.looks() <= graph.link_count() as u64)
}

#[test]
fn cycles(rt: HostRuntime) {
    for cyclic in CYCLIC {
        let graph = graph_of(&rt, rt.alloc(), cyclic.links);
        let holds = finds(&graph, cyclic.turns).expect(&rt, cyclic.name);
        assert_of(&rt, cyclic.name, holds);
    }
}
