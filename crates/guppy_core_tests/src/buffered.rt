//! Searches of small graphs with filters that hand links back.
ghost use Rattle.std.specs.Prelude.{◌≡◌, ◌<◌, Some, None, All, IfNone, IfOk, OnErr, length};
ghost use Rattle.guppy_core_tests.specs.Noting.{Says};

use crate::positions::{assert_of, found, has_positions, set_of};
use guppy_core::dfs::{
    BufferedEdgeFilter, SimpleEdgeFilterFn, reachable_buffered, reachable_buffered_mut,
};
use guppy_core::graph_core::{Graph, Link};
use guppy_core::ix::{DependencyDirection, GraphSpec, IndexType, IxSet};
use guppy_core::resolve_core::ResolveCore;
use std::alloc::{AllocError, Global};
use std::process::Abort;

// A graph with letters at its nodes, and an index type of its own.
struct Stages;

impl GraphSpec for Stages {
    type Node = char;

    type Edge = u16;

    type Ix = StageIx;
}

#[derive(Clone, Copy)]
struct StageIx {
    stage: u32,
}

impl IndexType for StageIx {
    ghost index_of = { λ a. a.stage };

    fn new(position: usize) -> Self {
        StageIx {
            stage: position as u32,
        }
    }

    fn index(self) -> usize {
        self.stage as usize
    }
}

#[derive(Clone, Copy, PartialEq)]
enum Asked {
    Discover(usize),
    Filter(usize),
}

// It hands back its links, which the graph has, at one question, and none at the others. It keeps the
// questions, and answers an error to the one that has so many before it.
#[derive(Drop)]
struct Recording<'a> {
    at: Asked,
    links: &'a [usize],
    fails_after: usize,
    asked: Vec<Asked>,
}

impl Recording<'_> {
    fn answer(
        &mut self,
        alloc: Global,
        link_count: usize,
        question: Asked,
    ) -> Result<Vec<usize>, AllocError>
        ensures says { IfOk result (λ handed. Says self.old.at self.old.links.now
            self.old.fails_after self.old.asked.items question (Some handed.items)
            self.new.asked.items) }
        ensures error { OnErr result (Says self.old.at self.old.links.now
            self.old.fails_after self.old.asked.items question None self.new.asked.items) }
        ensures links { IfOk result (λ handed. All (λ n. n < link_count) handed.items) }
        ensures same { (self.new.at ≡ self.old.at) × (self.new.links ≡ self.old.links)
            × (self.new.fails_after ≡ self.old.fails_after) }
    {
        let is_last = self.asked.len() >= self.fails_after;
        self.asked.push(question)?;
        if is_last {
            return Err(AllocError);
        }
        let links = if question == self.at { self.links } else { &[] };
        copy_of(alloc, link_count, links)
    }
}

// The place of a link that isn't below the count.
fn first_unknown(links: &[usize], link_count: usize) -> Option<usize>
    ensures { IfNone result (All (λ n. n < link_count) links.now) }
{
    for (number, link) in links.iter().enumerate() {
        if *link >= link_count {
            return Some(number);
        }
    }
    None
}

// A copy of the links, all of which are below the count.
fn copy_of(alloc: Global, link_count: usize, links: &[usize]) -> Result<Vec<usize>, AllocError>
    ensures below { IfOk result (λ handed. All (λ n. n < link_count) handed.items) }
    ensures copied { IfOk result (λ handed. handed.items ≡ links.now) }
{
    match first_unknown(links, link_count) {
        None => links.to_vec(alloc),
        Some(_) => Err(AllocError),
    }
}

impl BufferedEdgeFilter<Stages> for Recording<'_> {
    ghost use Rattle.std.specs.Prelude.{◌≡◌, length};
    ghost use Rattle.guppy_core_tests.specs.Noting.{Says};
    ghost use Rattle.guppy_core_tests.specs.declared.buffered.Asked.TheVariants.{Discover, Filter};

    ghost filters = { λ g s n answer t. Says s.at s.links.now s.fails_after
        s.asked.items (Filter n) answer t.asked.items
        × (t.at ≡ s.at) × (t.links ≡ s.links) × (t.fails_after ≡ s.fails_after) };

    ghost discovers = { λ g s p answer t. Says s.at s.links.now s.fails_after
        s.asked.items (Discover p) answer t.asked.items
        × (t.at ≡ s.at) × (t.links ≡ s.links) × (t.fails_after ≡ s.fails_after) };

    fn filter(&mut self, graph: &Graph<Stages>, link: usize) -> Result<Vec<usize>, AllocError> {
        self.answer(graph.alloc(), graph.link_count(), Asked::Filter(link))
    }

    fn discover(&mut self, graph: &Graph<Stages>, node: StageIx) -> Result<Vec<usize>, AllocError> {
        let question = Asked::Discover(node.index());
        self.answer(graph.alloc(), graph.link_count(), question)
    }
}

const FORWARD: DependencyDirection = DependencyDirection::Forward;

const NEVER: usize = 4_294_967_295;

fn graph_of(
    rt: &impl Abort,
    alloc: Global,
    node_count: u8,
    ends: &[(usize, usize)],
) -> Graph<Stages> {
    let nodes = vec![in alloc; 'p'; node_count as usize].expect(rt, "nodes");
    let mut links = Vec::new(alloc);
    for (from, to) in ends {
        let link = Link {
            from: *from,
            to: *to,
            edge: 7,
        };
        links.push(link).expect(rt, "links");
    }
    Graph::from_parts(nodes, links).expect(rt, "a graph")
}

// A search from one position with a filter that hands links back at one question, and the questions
// that it is asked, or none where it is asked each of a ring of four, in any order.
struct Search {
    name: &'static str,
    node_count: u8,
    ends: &'static [(usize, usize)],
    start: usize,
    direction: DependencyDirection,
    at: Asked,
    handed: &'static [usize],
    included: &'static [usize],
    asked: Option<&'static [Asked]>,
}

const SEARCHES: &[Search] = &[
    Search {
        name: "handed_ahead",
        node_count: 4,
        ends: &[(0, 1), (2, 3)],
        start: 0,
        direction: FORWARD,
        at: Asked::Filter(0),
        handed: &[1],
        included: &[0, 3],
        asked: Some(&[Asked::Discover(0), Asked::Filter(0), Asked::Discover(3)]),
    },
    Search {
        name: "discover_hands_back",
        node_count: 3,
        ends: &[(0, 1), (1, 2)],
        start: 0,
        direction: FORWARD,
        at: Asked::Discover(0),
        handed: &[1],
        included: &[0, 2],
        asked: Some(&[Asked::Discover(0), Asked::Filter(0), Asked::Discover(2)]),
    },
    Search {
        name: "far_end_in_reverse",
        node_count: 4,
        ends: &[(0, 1), (2, 3)],
        start: 1,
        direction: DependencyDirection::Reverse,
        at: Asked::Filter(0),
        handed: &[1],
        included: &[1, 2],
        asked: Some(&[Asked::Discover(1), Asked::Filter(0), Asked::Discover(2)]),
    },
];

const RING: &[(usize, usize)] = &[(0, 1), (1, 2), (2, 3), (3, 0)];

// All of its links are handed back at the first position.
const ROUND_THE_RING: &Search = &Search {
    name: "hands_back_everything",
    node_count: 4,
    ends: RING,
    start: 0,
    direction: FORWARD,
    at: Asked::Discover(0),
    handed: &[0, 1, 2, 3],
    included: &[0, 1, 2, 3],
    asked: None,
};

fn is_each_once(asked: &[Asked]) -> bool {
    for number in 0..4 {
        if !asked.contains(&Asked::Discover(number)) || !asked.contains(&Asked::Filter(number)) {
            return false;
        }
    }
    asked.len() == 8
}

// A filter that fails isn't asked again.
fn is_asked(filter: &Recording<'_>, wanted: Option<&[Asked]>) -> bool {
    let asked = filter.asked.as_slice();
    if filter.fails_after < NEVER {
        return asked.len() == filter.fails_after + 1;
    }
    match wanted {
        Some(questions) => asked == questions,
        None => is_each_once(asked),
    }
}

fn is_found(set: Result<IxSet<Stages>, AllocError>, wanted: &[usize], fails: bool) -> bool {
    match set {
        Ok(set) => !fails && has_positions(&set, wanted),
        Err(_) => fails,
    }
}

fn search_in(rt: &impl Abort, graph: &Graph<Stages>, search: &Search, filter: &mut Recording<'_>) {
    let start = set_of(rt, graph, &[search.start]);
    let set = reachable_buffered_mut(graph, &start, search.direction, filter);
    let fails = filter.fails_after < NEVER;
    assert_of(rt, search.name, is_found(set, search.included, fails));
    assert_of(rt, search.name, is_asked(filter, search.asked));
}

// The filter hands back these links, and answers an error behind so many questions.
fn search_of(rt: &impl Abort, alloc: Global, search: &Search, links: &[usize], fails_after: usize) {
    let graph = graph_of(rt, alloc, search.node_count, search.ends);
    let mut filter = Recording {
        at: search.at,
        links,
        fails_after,
        asked: Vec::new(alloc),
    };
    search_in(rt, &graph, search, &mut filter);
}

#[test]
fn searches(rt: HostRuntime) {
    for search in SEARCHES {
        search_of(&rt, rt.alloc(), search, search.handed, NEVER);
    }
}

// Each link once, and all a thousand times.
#[test]
fn hands_back_everything(rt: HostRuntime) {
    let mut many = Vec::new(rt.alloc());
    for number in 0..4000 {
        many.push(number % 4).expect(&rt, "links");
    }
    let links = ROUND_THE_RING.handed;
    search_of(&rt, rt.alloc(), ROUND_THE_RING, links, NEVER);
    search_of(&rt, rt.alloc(), ROUND_THE_RING, many.as_slice(), NEVER);
}

#[test]
fn an_error_ends_the_search(rt: HostRuntime) {
    let links = ROUND_THE_RING.handed;
    for count in 0..8 {
        search_of(&rt, rt.alloc(), ROUND_THE_RING, links, count);
    }
}

#[test]
fn simple_filters(rt: HostRuntime) {
    let graph = graph_of(&rt, rt.alloc(), 4, &[(0, 1), (0, 2), (1, 3), (2, 3)]);
    let start = set_of(&rt, &graph, &[0]);
    let mut calls = 0_usize;
    let is_odd = SimpleEdgeFilterFn(|_graph: &Graph<Stages>, link: usize| {
        calls = calls.wrapping_add(1);
        link % 2 == 1
    });
    let set = reachable_buffered(&graph, &start, FORWARD, is_odd);
    assert_of(&rt, "simple_filters", found(set, &[0, 2, 3]));
    assert_of(&rt, "simple_filters", calls == 3);
}

fn resolved(set: Result<ResolveCore<Stages>, AllocError>, wanted: &[usize]) -> bool {
    match set {
        Ok(set) => has_positions(set.included(), wanted),
        Err(_) => false,
    }
}

fn resolve_with_recording(
    rt: &impl Abort,
    graph: &Graph<Stages>,
    start: &IxSet<Stages>,
    filter: &mut Recording<'_>,
)
    requires { length start.now ≡ length graph.now.nodes }
{
    let name = "resolves_with_filters";
    let set = ResolveCore::with_buffered_edge_filter(graph, start, FORWARD, &mut *filter);
    assert_of(rt, name, resolved(set, &[1, 2, 3]));
    assert_of(rt, name, filter.asked.len() == 6);
    let set = ResolveCore::with_buffered_edge_filter_mut(graph, start, FORWARD, filter);
    assert_of(rt, name, resolved(set, &[1, 2, 3]));
    assert_of(rt, name, filter.asked.len() == 12);
}

fn resolve_with_closures(rt: &impl Abort, graph: &Graph<Stages>, start: &IxSet<Stages>)
    requires { length start.now ≡ length graph.now.nodes }
{
    let name = "resolves_with_filters";
    let mut calls = 0_usize;
    let set = ResolveCore::with_edge_filter(graph, start, FORWARD, |link| {
        calls = calls.wrapping_add(1);
        link != 0
    });
    assert_of(rt, name, resolved(set, &[0, 2, 3]));
    assert_of(rt, name, calls == 3);
    let mut counting = |link| {
        calls = calls.wrapping_add(1);
        link != 0
    };
    let set = ResolveCore::with_edge_filter_mut(graph, start, FORWARD, &mut counting);
    assert_of(rt, name, resolved(set, &[0, 2, 3]));
    assert_of(rt, name, calls == 6);
}

#[test]
fn resolves_with_filters(rt: HostRuntime) {
    let graph = graph_of(&rt, rt.alloc(), 4, RING);
    let start = set_of(&rt, &graph, &[2]);
    resolve_with_closures(&rt, &graph, &start);
    let mut filter = Recording {
        at: Asked::Filter(2),
        links: &[2, 0],
        fails_after: NEVER,
        asked: Vec::new(rt.alloc()),
    };
    resolve_with_recording(&rt, &graph, &start, &mut filter);
}
