//! Resolves with visitors.
//!
//! A resolve is written as `resolve`, its visitor, a direction, and where it starts. The answer is the
//! set's letters and how many they are, and then each link that was shown, with `+` where it was accepted
//! and `-` where it was refused, or how often the visitor was called.
ghost use Rattle.std.specs.Prelude.{◌≡◌, ◌==◌, ◌+◌, ◌%◌, ◌^◌, IsTrue};
ghost use Rattle.guppy.specs.Visitors.{StartsFromInitial};

use crate::examples::{Answer, Question};
use crate::sets::{direction_of, put_letters};
use crate::visitors::{First, Odd, RefusesOnce, odd_calls, over_even_links};
use guppy::{
    Error, PackageGraph, PackageLink, PackageLinkContext, PackageLinkVisitor, PackageQuery,
    PackageSet,
};

// As `Odd`, but it counts in a number that it is lent: it can be read after the visitor was handed over.
#[derive(Drop)]
struct OddIn<'c> {
    calls: &'c mut usize,
}

impl PackageLinkVisitor for OddIn<'_> {
    ghost visits = { λ s _ _ answer t. (t.calls.now ≡ (s.calls.now + 1) % 2 ^ 64)
        × (answer ≡ (t.calls.now % 2 == 1)) };

    fn visit_link(&mut self, _cx: &PackageLinkContext<'_>, _link: PackageLink<'_>) -> bool {
        *self.calls = self.calls.wrapping_add(1);
        *self.calls % 2 == 1
    }
}

// Accepts links that start from an initial package, as a copy of the context says.
#[derive(Drop)]
struct FromInitials;

impl PackageLinkVisitor for FromInitials {
    ghost visits = { λ _ query link answer _. IsTrue answer → StartsFromInitial query link };

    fn visit_link(&mut self, cx: &PackageLinkContext<'_>, link: PackageLink<'_>) -> bool {
        match cx.clone() {
            Ok(copy) => copy.starts_from_initial(&link),
            Err(_) => false,
        }
    }
}

// The set, and each link that was shown, with its answer.
fn put_recorded(
    graph: &PackageGraph,
    set: &PackageSet<'_>,
    entries: &[(usize, bool)],
    out: &mut Answer,
) {
    put_letters(graph, set, out);
    for (number, is_accepted) in entries {
        out.put_number(*number);
        out.put_mark(if *is_accepted { "+" } else { "-" });
    }
}

// The set, and how often the visitor was called.
fn put_counted(
    graph: &PackageGraph,
    set: Result<PackageSet<'_>, Error>,
    calls: usize,
    out: &mut Answer,
) {
    put_set(graph, set, out);
    out.put_number(calls);
}

fn put_set(graph: &PackageGraph, set: Result<PackageSet<'_>, Error>, out: &mut Answer) {
    match set {
        Ok(set) => put_letters(graph, &set, out),
        Err(error) => out.fail(error),
    }
}

fn ask_first(graph: &PackageGraph, query: PackageQuery<'_>, accepted: usize, out: &mut Answer) {
    match query.resolve_recorded(First { left: accepted }) {
        Ok((set, recorder)) => put_recorded(graph, &set, recorder.entries.as_slice(), out),
        Err(error) => out.fail(error),
    }
}

// The links in the order of their numbers, whichever was shown first.
fn ask_refuses_once(graph: &PackageGraph, query: PackageQuery<'_>, out: &mut Answer) {
    match query.resolve_recorded(RefusesOnce { has_refused: false }) {
        Ok((set, mut recorder)) => {
            recorder.entries.sort_unstable();
            put_recorded(graph, &set, recorder.entries.as_slice(), out);
        }
        Err(error) => out.fail(error),
    }
}

fn ask_odd_moved(graph: &PackageGraph, query: PackageQuery<'_>, out: &mut Answer) {
    let mut calls = 0;
    let set = query.resolve_with(OddIn { calls: &mut calls });
    put_counted(graph, set, calls, out);
}

fn ask_odd_lent(graph: &PackageGraph, query: PackageQuery<'_>, out: &mut Answer) {
    let mut counter = Odd { calls: 0 };
    let set = query.resolve_with(&mut counter);
    put_counted(graph, set, counter.calls, out);
}

fn ask_odd_behind_dyn(graph: &PackageGraph, query: PackageQuery<'_>, out: &mut Answer) {
    let mut counter = Odd { calls: 0 };
    let visitor: &mut dyn PackageLinkVisitor = &mut counter;
    let set = query.resolve_with(visitor);
    put_counted(graph, set, counter.calls, out);
}

fn ask_odd_closure(graph: &PackageGraph, query: PackageQuery<'_>, out: &mut Answer) {
    let mut calls = 0_usize;
    let set = query.resolve_with_fn(|_cx, _link| {
        calls = calls.wrapping_add(1);
        calls % 2 == 1
    });
    put_counted(graph, set, calls, out);
}

// How many calls the visitor accepts, if it accepts its first ones. An unknown one accepts none.
fn first_accepted(visitor: &str) -> usize {
    match visitor {
        "all" => usize::MAX,
        "first" => 1,
        _ => 0,
    }
}

fn ask_resolve(graph: &PackageGraph, query: PackageQuery<'_>, visitor: &str, out: &mut Answer) {
    match visitor {
        "refuses-once" => ask_refuses_once(graph, query, out),
        "even-links" => put_set(graph, over_even_links(query), out),
        "from-initials" => put_set(graph, query.resolve_with(FromInitials), out),
        "odd-lent" => ask_odd_lent(graph, query, out),
        "odd-moved" => ask_odd_moved(graph, query, out),
        "odd-behind-dyn" => ask_odd_behind_dyn(graph, query, out),
        "odd-closure" => ask_odd_closure(graph, query, out),
        "odd-calls" => out.put_count(odd_calls(query)),
        _ => ask_first(graph, query, first_accepted(visitor), out),
    }
}

/// Answers what a resolve with a visitor gives.
pub(super) fn ask_query(graph: &PackageGraph, question: &Question<'_>, out: &mut Answer) {
    let direction = direction_of(question.word(2));
    match graph.query_directed(question.ids_from(3).iter(), direction) {
        Ok(query) => ask_resolve(graph, query, question.word(1), out),
        Err(error) => out.fail(error),
    }
}

pub(super) const QUERIES: &str = "
second_link_refused | a b c d: a>b b>c
    resolve first forward a = ab 2 0+ 1-

self_link_shown | a b c d: a>a
    resolve none forward a = a 1 0-

reverse_recorder | a b c d: a>b b>c
    resolve all reverse c = abc 3 1+ 0+

diamond_with_refusal | a b c d: a>b a>c b>d c>d
    resolve refuses-once forward a = abcd 4 0+ 1+ 2- 3+ or abcd 4 0+ 1+ 2+ 3-

counting_visitor | a b c d: a>b b>c c>d
    resolve odd-lent forward a = ab 2 2
    resolve odd-moved forward a = ab 2 2
    resolve odd-calls forward a = 2

counting_visitor_behind_dyn | a b c d: a>b b>c c>d
    resolve odd-behind-dyn forward a = ab 2 2

counting_closure | a b c d: a>b b>c c>d
    resolve odd-closure forward a = ab 2 2

closure_that_relies_on_included_ends | a b c d: a>b a>c b>d c>d d>a
    resolve even-links forward a = abd 3
    resolve even-links reverse d = abd 3
    resolve even-links forward c = c 1

empty_start | a b c d: a>b b>c c>d
    resolve all forward = 0 empty

two_initial_starts | a b c d: a>b c>b d>c
    resolve from-initials reverse b = abc 3

first_unknown_name | a b c d: a>b b>c c>d
    resolve all reverse a z y = unknown package ID: z
";
