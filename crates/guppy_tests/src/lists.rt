//! Lists of sets, cycles, the publish order, the members that changes affect, and the looks for the order.
ghost use Rattle.std.specs.Iterator.{IsFinite};

use crate::examples::{Answer, Question};
use crate::records::shape_of;
use guppy::graph::PackageIx;
use guppy::positions::{CountedGraph, Graph, GraphSpec, Link, Sccs, TopoWithCycles};
use guppy::{CycleIds, PackageGraph, PackageId};
use guppy_affected::affected;
use guppy_publish::publish_order;
use std::alloc::{AllocError, Global};
use std::process::Abort;

// How many packages each cycle has, and these, with commas between.
fn put_each_cycle<'g, I: Iterator<Item = CycleIds<'g>> + Drop>(cycles: I, out: &mut Answer)
    requires can { I.can_next cycles }
    requires ends { IsFinite (I.remaining cycles) }
{
    for cycle in cycles {
        out.put_comma();
        out.put_number(cycle.len());
        for id in cycle {
            out.put(id.repr());
        }
    }
}

pub(super) fn put_cycles(graph: &PackageGraph, is_from_back: bool, out: &mut Answer) {
    let cycles = graph.cycles().all_cycles();
    if is_from_back {
        put_each_cycle(cycles.rev(), out);
    } else {
        put_each_cycle(cycles, out);
    }
}

fn put_ids(ids: &[&PackageId], out: &mut Answer) {
    for id in ids {
        out.put(id.repr());
    }
}

pub(super) fn put_publish_order(graph: &PackageGraph, out: &mut Answer) {
    match publish_order(graph) {
        Ok(ids) => put_ids(ids.as_slice(), out),
        Err(error) => out.fail(error),
    }
}

// Copies of the words.
fn owned(alloc: Global, words: &[&str], out: &mut Answer) -> Vec<String> {
    let mut texts = Vec::new(alloc);
    for word in words {
        match String::from_str(alloc, word) {
            Ok(text) => out.note(texts.push(text).is_err()),
            Err(_) => out.note(true),
        }
    }
    texts
}

pub(super) fn put_affected(
    graph: &PackageGraph,
    paths: &[&str],
    ignored: &[&str],
    out: &mut Answer,
) {
    let paths = owned(graph.alloc(), paths, out);
    let ignored = owned(graph.alloc(), ignored, out);
    match affected(graph, paths.as_slice(), ignored.as_slice(), &[]) {
        Ok(ids) => put_ids(ids.as_slice(), out),
        Err(error) => out.fail(error),
    }
}

pub(super) const LISTS: &str = "
empty_graph | :
    list forward of all = nothing
    list reverse of all = nothing
    cycles = nothing
    cycles from-back = nothing
    counts = 0 0 0 0 0

self_links | a b: a>a a>b b>b
    cyclic a a = yes
    cyclic a b = no
    list forward of all = a b
    list reverse of all = b a
    cycles = 1 a, 1 b
    cycles from-back = 1 b, 1 a
    looks 12 = yes

unreached_last | a b c: a>b b>a
    list forward of all = a b c or c a b
    cycles = 2 a b

four_with_dev_backs | d c b a: a>b b~a b>c c>d d~c
    list forward of all = a b c d
    list reverse of all = d c b a
    cycles = 2 a b, 2 c d
    cycles from-back = 2 c d, 2 a b

few_looks | :
    looks 0 = yes
few_looks | a b c: a>b b>a
    looks 8 = yes
few_looks | d c b a: a>b b~a b>c c>d d~c
    looks 20 = yes

dev_between_components | b0 b1 a0 a1: a0>a1 a1>a0 b0>b1 b1>b0 a1~b0
    list forward of all = a0 a1 b0 b1
    list reverse of all = b1 b0 a1 a0
    cycles = 2 a0 a1, 2 b0 b1
    cycles from-back = 2 b0 b1, 2 a0 a1
    looks 20 = yes

dev_link_orders | y x: x~y
    list forward of all = x y
    list reverse of all = y x
    cycles = nothing
    cycles from-back = nothing
    looks 4 = yes

no_cycle | a b c d: a>b
    cycles = nothing
    cyclic z a = unknown package ID: z

chain_with_self_links | a b c: a>b b>c a>a b>b c>c
    list forward of all = a b c
    list reverse of all = c b a
    roots forward of all = a 1 a 0
    roots reverse of all = c 1 c 0
    cycles = 1 a, 1 b, 1 c
";

pub(super) const PUBLISHED: &str = "
publish_backs | @d @c @b @a: a>b b~a b>c c>d d~c
    publish = d c b a

publish_cycle | @a @b: a>b b>a
    publish = internal error in package graph: cycle over links that are not dev-only: a -> b -> a \
        or internal error in package graph: cycle over links that are not dev-only: b -> a -> b

publish_through | @m1 %x @m2: m1>x x>m2
    publish = m2 m1

publish_empty | :
    publish = nothing

publish_self | @a @b: a>a a>b
    publish = b a
";

pub(super) const AFFECTED: &str = "
members_are_affected_by_what_they_are_tested_with | @base @mid @mid/deep @base-more @top %outside: mid>base top~mid \
    top>outside outside~base-more
    affected base/src/lib.rs = base mid top
    affected base-more/x = base-more
    affected mid//deep/./x = mid/deep
    affected top/x mid/x = mid top
    affected = nothing

dev_links_count_from_the_member_alone | @base @mid @top @tool: mid~base top>mid tool~top
    affected base/x = base mid
    affected mid/x = mid top tool
    affected top/x = top tool

packages_of_this_machine_have_folders | @base @app $base/shared $../near %far: app>base/shared base>../near app>far
    affected base/shared/x = app
    affected base/shared = app
    affected base/x = base
    affected base/sharedx = base
    affected ../near/src/lib.rs = base
    sorted affected base/x base/shared/x = app base
    sorted affected ../nearby/x = app base
    sorted affected far/x = app base
    sorted affected .. = app base

packages_with_one_folder_share_its_paths | @app @other $shared $shared/.: app>shared other>shared/.
    sorted affected shared/x = app other

a_member_at_the_root_holds_what_its_targets_are_made_of | root=root@ @base @other: root>base
    affected src/lib.rs = root
    affected src = root
    affected src/bin/x.rs = root
    affected tests/x = root
    affected examples/x benches/x = root
    affected build.rs = root
    affected base/Cargo.toml = base root
    affected other/src/lib.rs = other
    sorted affected elsewhere/lib.rs = base other root
    sorted affected elsewhere/src/lib.rs = base other root
    sorted affected srcs/lib.rs = base other root
    sorted affected build.rs.txt = base other root
    sorted affected Cargo.toml = base other root
    sorted affected Cargo.lock = base other root
    sorted affected rust-toolchain = base other root
    sorted affected rust-toolchain.toml = base other root
    sorted affected .cargo/config.toml = base other root
    sorted affected .cargo = base other root
    sorted affected rust-toolchain.md = base other root
    sorted affected .cargo.toml = base other root

settings_are_everyone_s_wherever_they_lie | @base @other
    sorted affected base/.cargo/config.toml = base other
    sorted affected base/src/.cargo = base other
    sorted affected base/rust-toolchain = base other
    sorted affected base/src/rust-toolchain.toml = base other
    affected base/rust-toolchain.toml/x = base
    affected base/cargo/config.toml = base

a_target_elsewhere_makes_a_path_its_package_s_too | @base @other +test=t@other/../base/deep/t.rs +bin=b@other/src/b.rs @top: top>other
    sorted affected base/deep/t.rs = base other top
    sorted affected base/deep/more/x = base other top
    sorted affected base = base other top
    affected base/deeper/x = base
    affected base/src/lib.rs = base
    affected other/src/b.rs = other top

folders_hold_names_alone | root=root@ @base @other: root>base
    sorted affected ../src/lib.rs = base other root
    sorted affected .. = base other root
    sorted affected /src/lib.rs = base other root
    sorted affected / = base other root
    sorted affected ./src/lib.rs = base other root
    sorted affected src/../proto/x = base other root
    sorted affected other/../base/x = base other root
    sorted affected other/src/../../base/x = base other root
    affected other/./x = other
    sorted affected-but src src/../x = base other root
    sorted affected-but docs ../docs/x = base other root
    affected-but ../docs ../docs/x = nothing

a_path_changes_the_packages_below_it | root=root@ @a @a/in @a/in/most @a-in @user $src/vendor/x $outside/y: user>src/vendor/x \
    a-in>outside/y
    sorted affected a = a a/in a/in/most
    sorted affected a/ = a a/in a/in/most
    sorted affected a/in = a/in a/in/most
    affected a/i = a
    affected a/in/mos = a/in
    affected src/vendor/x/y = user
    affected src/vendor/x = user
    sorted affected src/vendor = root user
    sorted affected src = root user
    affected src/vend = root
    affected-but src/vendor src/vendor a/in/most = a/in/most
    sorted affected outside = a a-in a/in a/in/most root user
    affected outside/y = a-in

paths_to_leave_out_affect_nothing | root=root@ @base: root>base
    affected-but docs docs/x = nothing
    affected-but docs docs = nothing
    affected-but docs docsx/y = base root
    affected-but docs/a docs/b = base root
    affected-but src src/x base/y = base root
    affected-but base base/x src/lib.rs = root
    affected-but .cargo .cargo/config.toml = nothing
    affected-but Cargo.lock Cargo.lock = nothing
    affected-but ./ Cargo.lock = base root

all_members_are_affected_by_what_is_no_members | @base @mid @mid/deep @base-more @top %outside: mid~base top~mid \
    top~outside outside~base-more
    sorted affected base mid mid/deep base-more top = base base-more mid mid/deep top
    sorted affected elsewhere/x = base base-more mid mid/deep top
    sorted affected outside/x = base base-more mid mid/deep top
    sorted affected Cargo.toml = base base-more mid mid/deep top
    sorted affected Cargo.lock = base base-more mid mid/deep top
    sorted affected bas = base base-more mid mid/deep top
    sorted affected /base/x = base base-more mid mid/deep top
    sorted affected ../base/x = base base-more mid mid/deep top
    sorted affected-but elsewhere elsewhere/x = nothing
";

/// A graph whose links say whether they are dev-only.
pub(super) enum DevLinks {}

impl GraphSpec for DevLinks {
    type Node = ();

    type Edge = bool;

    type Ix = PackageIx;
}

// d, c, b, a as in `four_with_dev_backs`.
const BACKS: [(usize, usize, bool); 5] = [
    (3, 2, false),
    (2, 3, true),
    (2, 1, false),
    (1, 0, false),
    (0, 1, true),
];

fn counted_looks(graph: &Graph<DevLinks>) -> Result<u64, AllocError> {
    let mut counted = CountedGraph::new(graph);
    let topo = TopoWithCycles::new(&mut counted, |is_dev_only: &bool| !*is_dev_only)?;
    let _sccs = Sccs::new(&mut counted, &topo)?;
    Ok(counted.looks())
}

/// The graph of so many positions and these links.
pub(super) fn positions_graph(
    rt: &impl Abort,
    alloc: Global,
    count: usize,
    ends: &[(usize, usize, bool)],
) -> Graph<DevLinks> {
    let mut links = Vec::new(alloc);
    for (from, to, is_dev_only) in ends {
        let link = Link {
            from: *from,
            to: *to,
            edge: *is_dev_only,
        };
        links.push(link).expect(rt, "a link");
    }
    let nodes = vec![in alloc; (); count].expect(rt, "nodes");
    Graph::from_parts(nodes, links).expect(rt, "a graph")
}

// Whether the graph's looks are those for index and components of its links alone.
fn put_sum(rt: &impl Abort, graph: &PackageGraph, ends: &[(usize, usize, bool)], out: &mut Answer) {
    let by_position = positions_graph(rt, graph.alloc(), graph.package_count(), ends);
    let looks = counted_looks(&by_position).expect(rt, "looks");
    out.put_truth(graph.order_looks() == looks);
}

/// Answers whether the order took at most so many looks, or those of links alone.
pub(super) fn put_looks(
    rt: &impl Abort,
    graph: &PackageGraph,
    question: &Question<'_>,
    out: &mut Answer,
) {
    match (question.word(1), question.word(2)) {
        ("sum", "backs") => put_sum(rt, graph, &BACKS, out),
        ("sum", shape) => {
            let ends = shape_of(rt, graph.alloc(), shape, graph.package_count());
            put_sum(rt, graph, ends.as_slice(), out);
        }
        (most, _) => out.put_truth(graph.order_looks() <= most.parse().unwrap_or(0)),
    }
}
