//! Sets of positions and small graphs.
ghost use Rattle.std.specs.Prelude.{◌≡◌, ◌<◌, length, All, IfOk};

use crate::positions::{assert_of, ixs_of};
use guppy_core::graph_core::{Graph, GraphFault, Link};
use guppy_core::ix::{DependencyDirection, GraphSpec, IndexType, IxSet, PackageIx};
use std::alloc::{AllocError, Global};
use std::process::Abort;

/// A graph with numbers at its nodes and letters at its links.
enum Letters {}

impl GraphSpec for Letters {
    type Node = u16;

    type Edge = char;

    type Ix = PackageIx;
}

fn of_ixs(alloc: Global, ixs: &[PackageIx], count: usize) -> Result<IxSet<Letters>, AllocError>
    requires { All (λ ix. ix.0 < count) ixs.now }
    ensures { IfOk result (λ set. length set ≡ count) }
{
    IxSet::from_ixs(alloc, ixs.iter().copied(), count)
}

fn set_of(rt: &impl Abort, alloc: Global, positions: &[usize], count: usize) -> IxSet<Letters>
    ensures { length result ≡ count }
{
    let ixs = ixs_of(rt, alloc, positions, count);
    of_ixs(alloc, ixs.as_slice(), count).expect(rt, "a set")
}

// Whether exactly these are in the set, by each call that tells, and those that are left count down.
fn has_members(set: &IxSet<Letters>, count: u16, members: &[usize]) -> bool
    requires { length set.now ≡ count }
{
    let mut ones = set.ones();
    for (place, position) in members.iter().enumerate() {
        let is_counted = ones.len() == members.len() - place;
        match ones.next() {
            Some(ix) if is_counted && ix.index() == *position => {}
            _ => return false,
        }
    }
    for position in 0..count as usize {
        if set.contains(PackageIx::new(position)) != members.contains(&position) {
            return false;
        }
    }
    let is_at_end = ones.size_hint() == (0, Some(0)) && ones.next().is_none();
    is_at_end && set.len() == members.len() && set.is_empty() == members.is_empty()
}

// A set made of a list of positions below a count.
struct Made {
    name: &'static str,
    count: u16,
    positions: &'static [usize],
    members: &'static [usize],
}

const MADE: &[Made] = &[
    Made {
        name: "set_from_repeats",
        count: 5,
        positions: &[1, 3, 1, 2, 3],
        members: &[1, 2, 3],
    },
    Made {
        name: "ones_count_down",
        count: 6,
        positions: &[0, 2, 4],
        members: &[0, 2, 4],
    },
    Made {
        name: "an_empty_set",
        count: 130,
        positions: &[],
        members: &[],
    },
];

fn set_made(rt: &impl Abort, alloc: Global, made: &Made) {
    let set = set_of(rt, alloc, made.positions, made.count as usize);
    assert_of(rt, made.name, has_members(&set, made.count, made.members));
}

#[test]
fn sets_of_positions(rt: HostRuntime) {
    for made in MADE {
        set_made(&rt, rt.alloc(), made);
    }
    let empty = IxSet::empty(rt.alloc(), 130).expect(&rt, "an_empty_set");
    assert_of(&rt, "an_empty_set", has_members(&empty, 130, &[]));
}

// Each operation changes what the one before it left.
fn combine(rt: &impl Abort, set: &mut IxSet<Letters>, second: &IxSet<Letters>)
    requires set { length set.old ≡ 200 }
    requires second { length second.now ≡ 200 }
    ensures { length set.new ≡ 200 }
{
    let first = set.clone().expect(rt, "copy");
    set.union_with(second);
    assert_of(rt, "union", has_members(set, 200, &[0, 64, 65, 130, 199]));
    set.intersect_with(second);
    assert_of(rt, "intersection", has_members(set, 200, &[64, 65, 199]));
    set.symmetric_difference_with(&first);
    let is_right = has_members(set, 200, &[0, 65, 130, 199]);
    assert_of(rt, "symmetric difference", is_right);
}

#[test]
fn operations_over_words(rt: HostRuntime) {
    let mut set = set_of(&rt, rt.alloc(), &[0, 64, 130], 200);
    let second = set_of(&rt, rt.alloc(), &[64, 65, 199], 200);
    combine(&rt, &mut set, &second);
    let rest = set.difference(&second).expect(&rt, "difference");
    assert_of(&rt, "difference", has_members(&rest, 200, &[0, 130]));
    let is_new = set.insert(PackageIx::new(100)) && !set.insert(PackageIx::new(100));
    let is_inserted = has_members(&set, 200, &[0, 65, 100, 130, 199]);
    assert_of(&rt, "insert", is_new && is_inserted);
}

#[test]
fn an_index_prints_its_number(rt: HostRuntime) {
    let position = PackageIx::new(1042);
    let name = "an_index_prints_its_number";
    assert_of(&rt, name, position.index() == 1042);
    let text = format!(in rt.alloc(); "{position}").expect(&rt, name);
    assert_of(&rt, name, text.as_str() == "1042");
}

#[test]
fn directions(rt: HostRuntime) {
    let link = Link {
        from: 3,
        to: 8,
        edge: 'a',
    };
    let name = "directions";
    assert_of(&rt, name, FORWARD.opposite() == REVERSE);
    assert_of(&rt, name, REVERSE.opposite() == FORWARD);
    assert_of(&rt, name, link.near_end(FORWARD) == 3);
    assert_of(&rt, name, link.far_end(FORWARD) == 8);
    assert_of(&rt, name, link.near_end(REVERSE) == 8);
    assert_of(&rt, name, link.far_end(REVERSE) == 3);
}

// The graph of the numbers and of the links by from, to and letter.
fn graph_of(
    rt: &impl Abort,
    alloc: Global,
    nodes: &[u16],
    ends: &[(usize, usize, char)],
) -> Result<Graph<Letters>, GraphFault> {
    let nodes = nodes.to_vec(alloc).expect(rt, "nodes");
    let mut links = Vec::new(alloc);
    for (from, to, letter) in ends {
        let link = Link {
            from: *from,
            to: *to,
            edge: *letter,
        };
        links.push(link).expect(rt, "links");
    }
    Graph::from_parts(nodes, links)
}

// Whether the links of each position, in the direction, are these.
fn has_links(graph: &Graph<Letters>, wanted: &[(usize, DependencyDirection, &[usize])]) -> bool {
    let count = graph.node_count().min(4_294_967_295);
    for (position, direction, links) in wanted {
        if *position >= count {
            return false;
        }
        if graph.links_of(PackageIx::new(*position), *direction) != *links {
            return false;
        }
    }
    true
}

// Whether these links, or none, lead from the one position to the other.
fn finds(graph: &Graph<Letters>, wanted: &[(usize, usize, Option<usize>)]) -> bool {
    let count = graph.node_count().min(4_294_967_295);
    for (from, to, link) in wanted {
        if *from >= count || *to >= count {
            return false;
        }
        if graph.find_link(PackageIx::new(*from), PackageIx::new(*to)) != *link {
            return false;
        }
    }
    true
}

const FORWARD: DependencyDirection = DependencyDirection::Forward;

const REVERSE: DependencyDirection = DependencyDirection::Reverse;

fn small_graph_holds(graph: &Graph<Letters>) -> bool {
    let none = Vec::<u8>::new(graph.alloc());
    none.is_empty()
        && graph.node_count() == 3
        && graph.link_count() == 4
        && *graph.node(PackageIx::new(2)) == 300
        && graph.nodes() == [100, 200, 300].as_slice()
        && *graph.link(2).edge == 'c'
        && has_links(
            graph,
            &[
                (0, FORWARD, &[0, 2]),
                (2, FORWARD, &[3]),
                (2, REVERSE, &[1, 2, 3]),
            ],
        )
        && finds(graph, &[(0, 2, Some(2)), (2, 2, Some(3)), (2, 0, None)])
}

#[test]
fn a_small_graph(rt: HostRuntime) {
    let links = [(0, 1, 'a'), (1, 2, 'b'), (0, 2, 'c'), (2, 2, 'd')];
    let graph = graph_of(&rt, rt.alloc(), &[100, 200, 300], &links).expect(&rt, "a_small_graph");
    assert_of(&rt, "a_small_graph", small_graph_holds(&graph));
}

#[test]
fn repeated_link(rt: HostRuntime) {
    let name = "repeated_link";
    let links = [(0, 1, 'a'), (0, 1, 'b'), (0, 2, 'c')];
    let fault = graph_of(&rt, rt.alloc(), &[100, 200], &links[..2]).err();
    assert_of(&rt, name, fault == Some(GraphFault::RepeatedLink(1)));
    let fault = graph_of(&rt, rt.alloc(), &[100, 200], &links).err();
    assert_of(&rt, name, fault == Some(GraphFault::UnknownEnd(2)));
}

// A link from the first position to each, and one more to the eighth.
fn star(rt: &impl Abort, alloc: Global, count: usize) -> Vec<(usize, usize, char)> {
    let mut links = Vec::new(alloc);
    for to in 0..count {
        links.push((0, to, 'a')).expect(rt, "links");
    }
    links.push((0, 7, 'b')).expect(rt, "links");
    links
}

// Quadratic time would show here.
#[test]
fn a_wide_star(rt: HostRuntime) {
    let links = star(&rt, rt.alloc(), 200_000);
    let nodes = vec![in rt.alloc(); 0; 200_000].expect(&rt, "nodes");
    let fault = graph_of(&rt, rt.alloc(), nodes.as_slice(), links.as_slice()).err();
    let is_found = fault == Some(GraphFault::RepeatedLink(200_000));
    assert_of(&rt, "a_wide_star", is_found);
}

// Whether two links leave and two lead to each of a thousand positions.
fn has_two_each(graph: &Graph<Letters>) -> bool {
    for position in 0..graph.node_count().min(1000) {
        let ix = PackageIx::new(position);
        if graph.links_of(ix, FORWARD).len() != 2 || graph.links_of(ix, REVERSE).len() != 2 {
            return false;
        }
    }
    graph.node_count() == 1000
}

fn thousand_by_sevens_holds(graph: &Graph<Letters>) -> bool {
    has_two_each(graph)
        && has_links(graph, &[(0, FORWARD, &[0, 1]), (0, REVERSE, &[1091, 1142])])
        && finds(graph, &[(571, 0, Some(1142)), (0, 0, None)])
}

// From each i, links to 7 i + 3 and to 11 i + 5, in a ring of a thousand.
fn sevens(rt: &impl Abort, alloc: Global) -> Vec<(usize, usize, char)> {
    let mut links = Vec::new(alloc);
    for i in 0..1000 {
        links.push((i, (7 * i + 3) % 1000, 'a')).expect(rt, "links");
        links
            .push((i, (11 * i + 5) % 1000, 'b'))
            .expect(rt, "links");
    }
    links
}

#[test]
fn thousand_by_sevens(rt: HostRuntime) {
    let links = sevens(&rt, rt.alloc());
    let graph = graph_of(&rt, rt.alloc(), &[0; 1000], links.as_slice());
    let graph = graph.expect(&rt, "thousand_by_sevens");
    assert_of(&rt, "thousand_by_sevens", thousand_by_sevens_holds(&graph));
}
