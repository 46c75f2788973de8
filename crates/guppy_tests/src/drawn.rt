//! Graphs of up to eight packages that are drawn by numbers, and searches of them, each judged.
ghost use Rattle.std.specs.Prelude.{ℕ, ◌≡◌, ◌<◌, ◌++◌, ◌∷◌, length, map, All, IfOk};
ghost use Rattle.guppy.specs.Visitors.{MayVisitAt};

use crate::judge::{Event, Given, NOWHERE, has};
use crate::lists::{DevLinks, positions_graph};
use crate::reach::Reach;
use crate::records::{numbered_graph, numbered_ids};
use crate::sets::positions_of;
use crate::visitors::{ByPattern, DevOnly, First, Odd, Rising};
use guppy::graph::{DependencyDirection, IndexType, PackageIx};
use guppy::positions::{BufferedEdgeFilter, Graph, IxSet, reachable_buffered};
use guppy::{PackageGraph, PackageId, PackageLinkVisitor, PackageQuery, PackageSet, Recorder};
use std::alloc::{AllocError, Global};
use std::process::Abort;

const ASCENDING: [usize; 8] = [0, 1, 2, 3, 4, 5, 6, 7];

const DIRECTIONS: [DependencyDirection; 2] = [
    DependencyDirection::Forward,
    DependencyDirection::Reverse,
];

// A number that looks drawn, the same for the same seed.
fn mixed(seed: u64) -> u64 {
    let spread = seed.wrapping_add(1).wrapping_mul(0x9E37_79B9_7F4A_7C15);
    let once = (spread ^ (spread >> 30)).wrapping_mul(0xBF58_476D_1CE4_E5B9);
    let twice = (once ^ (once >> 27)).wrapping_mul(0x94D0_49BB_1331_11EB);
    twice ^ (twice >> 31)
}

// The lowest bits of the number, so many.
fn bits_of(rt: &impl Abort, alloc: Global, count: usize, number: u64) -> Vec<bool> {
    let mut bits = Vec::new(alloc);
    for place in 0..count.min(64) {
        bits.push((number >> place) & 1 == 1).expect(rt, "bits");
    }
    bits
}

// Links between the first positions, so many. Bit 8 a + b says whether there is one from a to b, and in
// the second number whether it is dev-only. Their numbers don't go by their ends.
fn links_of(
    rt: &impl Abort,
    alloc: Global,
    count: usize,
    pairs: u64,
    dev_only: u64,
) -> Vec<(usize, usize, bool)> {
    let mut links = Vec::new(alloc);
    for step in 0..64 {
        let pair = (step * 11 + 5) % 64;
        let (from, to) = (pair / 8, pair % 8);
        if (pairs >> pair) & 1 == 1 && from < count && to < count {
            let link = (from, to, (dev_only >> pair) & 1 == 1);
            links.push(link).expect(rt, "links");
        }
    }
    links
}

/// A graph with its IDs by position, and what a search of it is given.
#[derive(Clone, Copy)]
pub(super) struct Case<'a> {
    pub(super) graph: &'a PackageGraph,
    pub(super) ids: &'a [PackageId],
    pub(super) given: Given<'a>,
}

impl<'a> Case<'a> {
    pub(super) fn new(graph: &'a PackageGraph, ids: &'a [PackageId], given: Given<'a>) -> Self {
        Case { graph, ids, given }
    }
}

// The IDs that the search starts at.
fn starts_of<'a>(rt: &impl Abort, case: Case<'a>) -> Vec<&'a PackageId> {
    let mut starts = Vec::new(case.graph.alloc());
    for (id, is_start) in case.ids.iter().zip(case.given.starts) {
        if *is_start {
            starts.push(id).expect(rt, "starts");
        }
    }
    starts
}

/// The query that starts as the search does.
pub(super) fn query_of<'a>(rt: &impl Abort, case: Case<'a>) -> PackageQuery<'a> {
    let starts = starts_of(rt, case);
    let query = case
        .graph
        .query_directed(starts.iter().copied(), case.given.direction);
    query.expect(rt, "a query")
}

/// Which positions are in the set.
pub(super) fn members_of(rt: &impl Abort, case: Case<'_>, set: &PackageSet<'_>) -> Vec<bool> {
    let mut members = Vec::new(case.graph.alloc());
    for id in case.ids {
        let is_member = set.contains(id).expect(rt, "a known ID");
        members.push(is_member).expect(rt, "members");
    }
    members
}

// Judges a resolve that showed these links, each with the answer, and included this set.
fn judge(rt: &impl Abort, case: Case<'_>, shown: &[(usize, bool)], set: &PackageSet<'_>) {
    let members = members_of(rt, case, set);
    let broken = case.given.broken_rule(shown, members.as_slice());
    assert!(rt; broken.is_none(), "{broken:?}");
}

/// Judges a resolve with the visitor, and tells how many links it was shown.
pub(super) fn judge_resolve<V: PackageLinkVisitor + Drop>(
    rt: &impl Abort,
    case: Case<'_>,
    query: PackageQuery<'_>,
    visitor: V,
) -> usize
    requires { (n : ℕ) → n < length query.graph.links → MayVisitAt V.can_visit query visitor n }
{
    let links = case.given.links.len();
    let mut recorder = Recorder::new(case.graph.alloc(), visitor, links).expect(rt, "a recorder");
    let set = query.resolve_with(&mut recorder).expect(rt, "a resolve");
    judge(rt, case, recorder.entries.as_slice(), &set);
    recorder.entries.len()
}

fn judge_starts(rt: &impl Abort, case: Case<'_>) {
    let all = First { left: usize::MAX };
    judge_resolve(rt, case, query_of(rt, case), all);
    judge_resolve(rt, case, query_of(rt, case), First { left: 0 });
    judge_resolve(rt, case, query_of(rt, case), Odd { calls: 0 });
}

fn judge_small_graph(
    rt: &impl Abort,
    graph: &PackageGraph,
    ids: &[PackageId],
    links: &[(usize, usize, bool)],
) {
    for starts in 0..8 {
        let starts = bits_of(rt, graph.alloc(), 3, starts);
        for direction in DIRECTIONS {
            let given = Given::new(links, direction, starts.as_slice());
            judge_starts(rt, Case::new(graph, ids, given));
        }
    }
}

// All graphs of three packages. The nine bits of a number are the pairs of the first three positions.
#[test]
fn all_small_graphs(rt: HostRuntime) {
    let ids = numbered_ids(&rt, rt.alloc(), 3);
    for number in 0..512_u64 {
        let pairs = (number & 7) | ((number & 56) << 5) | ((number & 448) << 10);
        let links = links_of(&rt, rt.alloc(), 3, pairs, 0);
        let graph = numbered_graph(&rt, rt.alloc(), 3, links.as_slice());
        judge_small_graph(&rt, &graph, ids.as_slice(), links.as_slice());
    }
}

// Whether the list is the order with all but the members left out.
fn is_kept(order: &[usize], members: &[bool], list: &[usize]) -> bool {
    let mut rest = list.iter();
    for position in order {
        if has(members, *position) && rest.next() != Some(position) {
            return false;
        }
    }
    rest.next().is_none()
}

// The links, of which those that aren't between members have no ends.
fn links_inside(
    rt: &impl Abort,
    alloc: Global,
    links: &[(usize, usize, bool)],
    members: &[bool],
) -> Vec<(usize, usize, bool)> {
    let mut inside = Vec::new(alloc);
    for (from, to, is_dev_only) in links {
        let is_inside = has(members, *from) && has(members, *to);
        let (from, to) = if is_inside {
            (*from, *to)
        } else {
            (NOWHERE, NOWHERE)
        };
        inside.push((from, to, *is_dev_only)).expect(rt, "links");
    }
    inside
}

// The positions of the set's roots.
fn listed_roots(
    rt: &impl Abort,
    alloc: Global,
    set: &PackageSet<'_>,
    direction: DependencyDirection,
) -> Vec<usize> {
    positions_of(rt, alloc, set.root_packages(direction).expect(rt, "roots"))
}

fn judge_roots(rt: &impl Abort, alloc: Global, inside: Given<'_>, set: &PackageSet<'_>) {
    let roots = listed_roots(rt, alloc, set, inside.direction);
    let are_roots = is_kept(&ASCENDING, inside.starts, roots.as_slice());
    assert!(rt; are_roots, "roots");
}

// The links of the set, each as if it was accepted.
fn walked(
    rt: &impl Abort,
    alloc: Global,
    set: &PackageSet<'_>,
    direction: DependencyDirection,
) -> Vec<(usize, bool)> {
    let mut shown = Vec::new(alloc);
    for link in set.links(direction).expect(rt, "links") {
        shown.push((link.link_ix(), true)).expect(rt, "links");
    }
    shown
}

// A walk over the links of a set is a search from its roots that follows each link inside, so the same
// judge tells whether it is right.
fn judge_links(rt: &impl Abort, alloc: Global, inside: Given<'_>, set: &PackageSet<'_>) {
    let shown = walked(rt, alloc, set, inside.direction);
    let mut reached = Vec::new(alloc);
    for position in 0..inside.starts.len() {
        let is_reached = inside.is_included(shown.as_slice(), position);
        reached.push(is_reached).expect(rt, "positions");
    }
    let broken = inside.broken_rule(shown.as_slice(), reached.as_slice());
    assert!(rt; broken.is_none(), "links: {broken:?}");
}

// The set is that of the starts.
fn judge_walk(rt: &impl Abort, case: Case<'_>, reach: Reach<'_>, set: &PackageSet<'_>) {
    let alloc = case.graph.alloc();
    let (members, direction) = (case.given.starts, case.given.direction);
    let links = links_inside(rt, alloc, case.given.links, members);
    let inside = Given::new(links.as_slice(), direction, members);
    let roots = reach.roots_of(rt, alloc, inside, members);
    let inside = Given::new(links.as_slice(), direction, roots.as_slice());
    judge_roots(rt, alloc, inside, set);
    judge_links(rt, alloc, inside, set);
}

// The positions of the set's list.
fn listed(
    rt: &impl Abort,
    alloc: Global,
    set: &PackageSet<'_>,
    direction: DependencyDirection,
) -> Vec<usize> {
    positions_of(rt, alloc, set.packages(direction))
}

// The same, reversed where the direction is.
fn listed_forward(
    rt: &impl Abort,
    alloc: Global,
    set: &PackageSet<'_>,
    direction: DependencyDirection,
) -> Vec<usize> {
    let mut listed = listed(rt, alloc, set, direction);
    if direction == DependencyDirection::Reverse {
        listed.as_mut_slice().reverse();
    }
    listed
}

// The list of all packages, which is in order.
fn judged_order(rt: &impl Abort, case: Case<'_>, reach: Reach<'_>) -> Vec<usize> {
    let alloc = case.graph.alloc();
    let all = case.graph.resolve_all().expect(rt, "all packages");
    let order = listed(rt, alloc, &all, DependencyDirection::Forward);
    let broken = reach.broken_list_rule(case.ids.len(), order.as_slice());
    assert!(rt; broken.is_none(), "lists: {broken:?}");
    order
}

// The set's lists are those of its members in that order, and the same reversed.
fn judge_lists(rt: &impl Abort, case: Case<'_>, reach: Reach<'_>, set: &PackageSet<'_>) {
    let order = judged_order(rt, case, reach);
    let listed = listed_forward(rt, case.graph.alloc(), set, case.given.direction);
    let is_kept = is_kept(order.as_slice(), case.given.starts, listed.as_slice());
    assert!(rt; is_kept, "lists");
}

fn judge_sets(rt: &impl Abort, case: Case<'_>, reach: Reach<'_>) {
    let query = query_of(rt, case);
    judge_lists(rt, case, reach, query.initials());
    judge_walk(rt, case, reach, query.initials());
}

fn judge_visitors(rt: &impl Abort, case: Case<'_>, pattern: &[bool]) {
    judge_resolve(rt, case, query_of(rt, case), ByPattern { pattern });
    judge_resolve(rt, case, query_of(rt, case), First { left: 3 });
    judge_resolve(rt, case, query_of(rt, case), Odd { calls: 0 });
    judge_resolve(rt, case, query_of(rt, case), DevOnly);
    judge_resolve(rt, case, query_of(rt, case), Rising { highest: 0 });
}

// Hands back links that look drawn, and notes each question and, behind it, what it handed back.
#[derive(Drop)]
struct Drawing {
    drawn: u64,
    events: Vec<Event>,
}

// The links whose bits are set, below the count.
fn links_at(alloc: Global, link_count: usize, bits: u64) -> Result<Vec<usize>, AllocError>
    ensures { IfOk result (λ links. All (λ n. n < link_count) links.items) }
{
    let mut links = Vec::new(alloc);
    for link in 0..link_count.min(64) {
        if (bits >> link) & 1 == 1 {
            links.push(link)?;
        }
    }
    Ok(links)
}

// Adds the question, and each link that is handed back.
fn note(events: &mut Vec<Event>, question: Event, handed: &[usize]) -> Result<(), AllocError>
    ensures { IfOk result (λ _. events.new.items
        ≡ events.old.items ++ question ∷ map Event.HandBack handed.now) }
{
    events.push(question)?;
    for link in handed {
        events.push(Event::HandBack(*link))?;
    }
    Ok(())
}

impl Drawing {
    fn answer(
        &mut self,
        alloc: Global,
        link_count: usize,
        question: Event,
    ) -> Result<Vec<usize>, AllocError>
        ensures below { IfOk result (λ handed. All (λ n. n < link_count) handed.items) }
        ensures noted { IfOk result (λ handed. self.new.events.items
            ≡ self.old.events.items ++ question ∷ map Event.HandBack handed.items) }
    {
        self.drawn = mixed(self.drawn);
        let bits = self.drawn & mixed(self.drawn) & mixed(!self.drawn);
        let handed = links_at(alloc, link_count, bits)?;
        note(&mut self.events, question, handed.as_slice())?;
        Ok(handed)
    }
}

impl BufferedEdgeFilter<DevLinks> for Drawing {
    ghost use Rattle.std.specs.Prelude.{◌≡◌, ◌++◌, ◌∷◌, map, IfSome};
    ghost use Rattle.guppy_tests.specs.declared.judge.Event.TheVariants.{Discover, Filter, HandBack};

    ghost filters = { λ _ s n answer t. IfSome answer (λ handed. t.events.items
        ≡ s.events.items ++ Filter n ∷ map HandBack handed) };

    ghost discovers = { λ _ s p answer t. IfSome answer (λ handed. t.events.items
        ≡ s.events.items ++ Discover p ∷ map HandBack handed) };

    fn filter(&mut self, graph: &Graph<DevLinks>, link: usize) -> Result<Vec<usize>, AllocError> {
        self.answer(graph.alloc(), graph.link_count(), Event::Filter(link))
    }

    fn discover(
        &mut self,
        graph: &Graph<DevLinks>,
        node: PackageIx,
    ) -> Result<Vec<usize>, AllocError> {
        let question = Event::Discover(node.index());
        self.answer(graph.alloc(), graph.link_count(), question)
    }
}

fn set_of(rt: &impl Abort, graph: &Graph<DevLinks>, members: &[bool]) -> IxSet<DevLinks>
    ensures { length result ≡ length graph.now.nodes }
{
    let mut set = IxSet::empty(graph.alloc(), graph.node_count()).expect(rt, "a set");
    for (position, is_member) in members.iter().enumerate() {
        if *is_member && position < graph.node_count() && position < 4_294_967_295 {
            set.insert_position(position);
        }
    }
    set
}

fn members_by_position(rt: &impl Abort, alloc: Global, set: &IxSet<DevLinks>) -> Vec<bool> {
    let mut members = Vec::new(alloc);
    for position in 0..set.node_count() {
        let is_member = set.has_position(position);
        members.push(is_member).expect(rt, "members");
    }
    members
}

fn judge_buffered(rt: &impl Abort, graph: &Graph<DevLinks>, given: Given<'_>, drawn: u64) {
    let starts = set_of(rt, graph, given.starts);
    let events = Vec::new(graph.alloc());
    let mut filter = Drawing { drawn, events };
    let set = reachable_buffered(graph, &starts, given.direction, &mut filter);
    let members = members_by_position(rt, graph.alloc(), &set.expect(rt, "a buffered search"));
    let broken = given.broken_buffered_rule(filter.events.as_slice(), members.as_slice());
    assert!(rt; broken.is_none(), "buffered: {broken:?}");
}

// A half of the pairs, a quarter or an eighth.
fn drawn_pairs(drawn: u64) -> u64 {
    match drawn % 3 {
        0 => mixed(drawn),
        1 => mixed(drawn) & mixed(drawn ^ 1),
        _ => mixed(drawn) & mixed(drawn ^ 1) & mixed(drawn ^ 2),
    }
}

// Judges a buffered search of the same graph.
fn judge_by_position(rt: &impl Abort, case: Case<'_>, drawn: u64) {
    let (count, links) = (case.ids.len(), case.given.links);
    let graph = positions_graph(rt, case.graph.alloc(), count, links);
    judge_buffered(rt, &graph, case.given, drawn);
}

fn judge_drawn_case(rt: &impl Abort, case: Case<'_>, drawn: u64) {
    let pattern = bits_of(rt, case.graph.alloc(), 64, mixed(drawn ^ 5));
    judge_visitors(rt, case, pattern.as_slice());
    judge_sets(rt, case, Reach::new(case.given.links));
    judge_by_position(rt, case, drawn);
}

fn judge_drawn_graph(rt: &impl Abort, alloc: Global, drawn: u64) {
    let count = (drawn >> 32) as usize % 5 + 4;
    let links = links_of(rt, alloc, count, drawn_pairs(drawn), mixed(drawn ^ 3));
    let graph = numbered_graph(rt, alloc, count, links.as_slice());
    let ids = numbered_ids(rt, alloc, count);
    let starts = bits_of(rt, alloc, count, mixed(drawn ^ 4));
    for direction in DIRECTIONS {
        let given = Given::new(links.as_slice(), direction, starts.as_slice());
        judge_drawn_case(rt, Case::new(&graph, ids.as_slice(), given), drawn);
    }
}

#[test]
fn drawn_graphs(rt: HostRuntime) {
    for seed in 0..3000 {
        judge_drawn_graph(&rt, rt.alloc(), mixed(seed));
    }
}
