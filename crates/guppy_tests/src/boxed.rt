//! A visitor in a box, which is handed over by value.

use crate::drawn::{Case, judge_resolve, query_of};
use crate::judge::Given;
use crate::records::{numbered_graph, numbered_ids};
use crate::visitors::Odd;
use guppy::graph::DependencyDirection;
use guppy::{PackageLinkVisitor, PackageQuery};
use std::alloc::Global;
use std::process::Abort;

// Resolves with a box of a visitor that accepts its odd calls, judges that, and tells how many links were
// shown.
fn resolved_in_a_box(
    rt: &impl Abort,
    alloc: Global,
    case: Case<'_>,
    query: PackageQuery<'_>,
) -> usize {
    let odd = Box::new(alloc, Odd { calls: 0 });
    let visitor: Box<dyn PackageLinkVisitor + Drop> = odd.expect(rt, "a box");
    judge_resolve(rt, case, query, visitor)
}

// The same of a graph of four packages, from the first one.
fn judge_boxed_on(rt: &impl Abort, alloc: Global, links: &[(usize, usize, bool)]) -> usize {
    let graph = numbered_graph(rt, alloc, 4, links);
    let ids = numbered_ids(rt, alloc, 4);
    let starts = &[true, false, false, false];
    let given = Given::new(links, DependencyDirection::Forward, starts);
    let case = Case::new(&graph, ids.as_slice(), given);
    resolved_in_a_box(rt, alloc, case, query_of(rt, case))
}

const CHAIN: [(usize, usize, bool); 3] = [(0, 1, false), (1, 2, false), (2, 3, false)];

const DIAMOND: [(usize, usize, bool); 5] = [
    (0, 1, false),
    (0, 2, false),
    (1, 3, false),
    (2, 3, false),
    (0, 0, false),
];

#[test]
fn boxed_recorder(rt: HostRuntime) {
    let shown = judge_boxed_on(&rt, rt.alloc(), &CHAIN);
    assert!(rt; shown == 2, "counting_visitor_in_a_box");
    let shown = judge_boxed_on(&rt, rt.alloc(), &DIAMOND);
    assert!(rt; shown >= 3, "boxed_recorder");
}
