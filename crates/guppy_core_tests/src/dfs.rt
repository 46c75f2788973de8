//! Searches of small graphs.
ghost use Rattle.std.specs.Prelude.{◌≡◌, ◌||◌, not, nat_lt, length};

use crate::positions::{assert_of, found, has_positions, set_of};
use crate::scc::{DevLinks, graph_of};
use crate::tables::by_table;
use guppy_core::dfs::{LinkVisitor, reachable, reachable_recorded, reachable_with_fn};
use guppy_core::graph_core::Graph;
use guppy_core::ix::{DependencyDirection, IxSet};
use std::alloc::AllocError;
use std::process::Abort;

// From a link number on, it refuses the first link that it is shown. It accepts every other.
#[derive(Drop)]
struct RefusesOnce {
    from: usize,
    has_refused: bool,
}

impl LinkVisitor for RefusesOnce {
    ghost visits = { λ s n b t. (b ≡ (s.has_refused || nat_lt n s.from))
        × (t.has_refused ≡ (s.has_refused || not b)) × (t.from ≡ s.from) };

    fn visit(&mut self, link: usize) -> bool {
        let answer = self.has_refused || link < self.from;
        self.has_refused = self.has_refused || !answer;
        answer
    }
}

const FORWARD: DependencyDirection = DependencyDirection::Forward;

const REVERSE: DependencyDirection = DependencyDirection::Reverse;

const CHAIN: [(usize, usize); 3] = [(0, 1), (1, 2), (2, 3)];

const DIAMOND: [(usize, usize); 4] = [(0, 1), (0, 2), (1, 3), (2, 3)];

// A search of a graph of four nodes from one of them, which follows each link, or those that are
// open by a table.
struct Search {
    name: &'static str,
    links: &'static [(usize, usize)],
    start: usize,
    direction: DependencyDirection,
    is_open: Option<&'static [bool]>,
    included: &'static [usize],
}

const SEARCHES: &[Search] = &[
    Search {
        name: "goes_in_the_direction",
        links: &DIAMOND,
        start: 1,
        direction: REVERSE,
        is_open: None,
        included: &[0, 1],
    },
    Search {
        name: "goes_in_the_direction",
        links: &DIAMOND,
        start: 1,
        direction: FORWARD,
        is_open: None,
        included: &[1, 3],
    },
    Search {
        name: "a_table_answers",
        links: &CHAIN,
        start: 1,
        direction: FORWARD,
        is_open: Some(&[true, true, false]),
        included: &[1, 2],
    },
];

// What the search leads to.
fn reached(
    rt: &impl Abort,
    graph: &Graph<DevLinks>,
    search: &Search,
) -> Result<IxSet<DevLinks>, AllocError> {
    let start = set_of(rt, graph, &[search.start]);
    match search.is_open {
        Some(is_open) if is_open.len() == graph.link_count() => by_table(graph, &start, is_open),
        _ => reachable(graph, &start, search.direction),
    }
}

#[test]
fn searches(rt: HostRuntime) {
    for search in SEARCHES {
        let graph = graph_of(&rt, rt.alloc(), 4, search.links);
        let set = reached(&rt, &graph, search);
        assert_of(&rt, search.name, found(set, search.included));
    }
}

// Whether the second link is shown, and refused.
fn refuses_second(graph: &Graph<DevLinks>, start: &IxSet<DevLinks>) -> bool
    requires { length start.now ≡ length graph.now.nodes }
{
    let visitor = RefusesOnce {
        from: 1,
        has_refused: false,
    };
    match reachable_recorded(graph, start, FORWARD, visitor) {
        Ok((set, recorder)) => {
            let shown = [(0, true), (1, false)];
            has_positions(&set, &[0, 1]) && recorder.entries.as_slice() == shown.as_slice()
        }
        Err(_) => false,
    }
}

#[test]
fn second_link_refused(rt: HostRuntime) {
    let graph = graph_of(&rt, rt.alloc(), 3, &[(0, 1), (1, 2)]);
    let start = set_of(&rt, &graph, &[0]);
    assert_of(&rt, "second_link_refused", refuses_second(&graph, &start));
}

// Two searches share a visitor, which accepts every second link that it is shown.
fn shares_a_visitor(graph: &Graph<DevLinks>, start: &IxSet<DevLinks>) -> bool
    requires { length start.now ≡ length graph.now.nodes }
{
    let mut calls = 0u32;
    let mut is_odd = |_link: usize| {
        calls = calls.wrapping_add(1);
        calls % 2 == 1
    };
    let first = reachable_with_fn(graph, start, REVERSE, &mut is_odd);
    let second = reachable_with_fn(graph, start, REVERSE, &mut is_odd);
    found(first, &[2, 3]) && found(second, &[2, 3]) && calls == 4
}

// The searches go against the links.
#[test]
fn counting_visitor_is_lent(rt: HostRuntime) {
    let graph = graph_of(&rt, rt.alloc(), 4, &CHAIN);
    let start = set_of(&rt, &graph, &[3]);
    let name = "counting_visitor_is_lent";
    assert_of(&rt, name, shares_a_visitor(&graph, &start));
}
