//! Resolves, plain and with visitors that count what they are shown.
ghost use Rattle.std.specs.Prelude.{◌≡◌, ◌==◌, ℕ, ◌+◌, ◌%◌, ◌^◌, ◌<◌, length, not};
ghost use Rattle.guppy.specs.Visitors.{MayVisitAt};

use crate::told::{begin, tell, tell_calls, tell_line, tell_made, tell_set};
use crate::world::{World, graph_of};
use guppy::graph::DependencyDirection;
use guppy::{
    DependencyKind, Error, PackageGraph, PackageLink, PackageLinkContext, PackageLinkVisitor,
    PackageQuery, PackageSet,
};
use guppy_core_memory_cases::records::Ends;
use std::alloc::Global;

const FORWARD: DependencyDirection = DependencyDirection::Forward;

const DIAMOND: [Ends; 4] = [
    ("a", "b", Some(DependencyKind::Normal)),
    ("a", "c", Some(DependencyKind::Normal)),
    ("b", "d", Some(DependencyKind::Normal)),
    ("c", "d", Some(DependencyKind::Normal)),
];

// Refuses the call of one number, and counts all.
#[derive(Drop)]
struct RefusesOne {
    calls: usize,
    refused: usize,
}

impl PackageLinkVisitor for RefusesOne {
    ghost visits = { λ s _ _ answer t. (t.calls ≡ (s.calls + 1) % 2 ^ 64)
        × (answer ≡ not (t.calls == s.refused)) × (t.refused ≡ s.refused) };

    fn visit_link(&mut self, _cx: &PackageLinkContext<'_>, _link: PackageLink<'_>) -> bool {
        self.calls = self.calls.wrapping_add(1);
        self.calls != self.refused
    }
}

const REFUSES_SECOND: RefusesOne = RefusesOne {
    calls: 0,
    refused: 2,
};

fn resolved_with<'g, V: PackageLinkVisitor + Drop>(
    query: PackageQuery<'g>,
    visitor: V,
) -> Result<PackageSet<'g>, Error>
    requires { (n : ℕ) → n < length query.graph.links → MayVisitAt V.can_visit query visitor n }
{
    query.resolve_with(visitor)
}

// The visitor is lent, or handed over as a reference or behind a `dyn`.
fn ask_counted(
    rt: &HostRuntime,
    query: PackageQuery<'_>,
    call: &str,
    refused: usize,
) -> Result<(), Error> {
    let mut counter = RefusesOne { calls: 0, refused };
    tell_calls(rt, counter.calls);
    begin(rt);
    let set = match call {
        "resolve_with_mut" | "diamond_under_refusals" => query.resolve_with_mut(&mut counter),
        "resolve_with_dyn" => {
            let visitor: &mut dyn PackageLinkVisitor = &mut counter;
            resolved_with(query, visitor)
        }
        _ => resolved_with(query, &mut counter),
    };
    tell_calls(rt, counter.calls);
    tell_made(rt, set)
}

fn ask_closure(rt: &HostRuntime, query: PackageQuery<'_>, call: &str) -> Result<(), Error> {
    let mut calls = 0_usize;
    tell_calls(rt, calls);
    begin(rt);
    let mut visitor = |_cx: &PackageLinkContext<'_>, _link: PackageLink<'_>| {
        calls = calls.wrapping_add(1);
        calls != 2
    };
    let set = if call == "resolve_with_fn_mut" {
        query.resolve_with_fn_mut(&mut visitor)
    } else {
        query.resolve_with_fn(visitor)
    };
    tell_calls(rt, calls);
    tell_made(rt, set)
}

fn ask_recorded(rt: &HostRuntime, query: PackageQuery<'_>) -> Result<(), Error> {
    begin(rt);
    let (set, recorder) = query.resolve_recorded(REFUSES_SECOND)?;
    for (number, is_accepted) in &recorder.entries {
        tell(rt, *number);
        tell(rt, *is_accepted);
    }
    tell_set(rt, &set);
    Ok(())
}

fn resolved_in_a_box<'g>(alloc: Global, query: PackageQuery<'g>) -> Result<PackageSet<'g>, Error> {
    let visitor: Box<dyn PackageLinkVisitor + Drop> = Box::new(alloc, REFUSES_SECOND)?;
    resolved_with(query, visitor)
}

// What is told of no visitor.
fn ask_set(
    rt: &HostRuntime,
    alloc: Global,
    query: PackageQuery<'_>,
    call: &str,
) -> Result<(), Error> {
    begin(rt);
    let set = if call == "resolve" {
        query.resolve()
    } else {
        resolved_in_a_box(alloc, query)
    };
    tell_made(rt, set)
}

// Forward from the package a, where the third call shows the first link to the package d.
fn ask_from_first(rt: &HostRuntime, graph: &PackageGraph, call: &str) -> Result<(), Error> {
    let first = graph.workspace().member_by_name("a")?;
    let query = first.to_package_query(FORWARD)?;
    ask_counted(rt, query, call, 3)
}

fn ask_diamond(rt: &HostRuntime, alloc: Global, call: &str) -> Result<(), Error> {
    let graph = graph_of(alloc, &["a", "b", "c", "d"], &DIAMOND)?;
    ask_from_first(rt, &graph, call)
}

// Copies the context at its first call, and keeps whether that was refused.
fn ask_context(rt: &HostRuntime, query: PackageQuery<'_>) -> Result<(), Error> {
    let mut is_refused = false;
    let mut is_told = false;
    query.resolve_with_fn(|cx, link| {
        if !is_told {
            is_told = true;
            begin(rt);
            match cx.clone() {
                Ok(copy) => tell_line(rt, &copy.starts_from_initial(&link)),
                Err(_) => is_refused = true,
            }
        }
        true
    })?;
    if is_refused {
        return Err(Error::OutOfMemory);
    }
    Ok(())
}

fn ask_of_query(
    rt: &HostRuntime,
    alloc: Global,
    query: PackageQuery<'_>,
    call: &str,
) -> Result<(), Error> {
    match call {
        "resolve" | "resolve_with_box" => ask_set(rt, alloc, query, call),
        "resolve_recorded" => ask_recorded(rt, query),
        "resolve_with_fn" | "resolve_with_fn_mut" => ask_closure(rt, query, call),
        "context_clone" => ask_context(rt, query),
        _ => ask_counted(rt, query, call, 2),
    }
}

pub(crate) fn ask(
    rt: &HostRuntime,
    alloc: Global,
    world: &World<'_>,
    call: &str,
) -> Result<(), Error> {
    if call == "diamond_under_refusals" {
        return ask_diamond(rt, alloc, call);
    }
    ask_of_query(rt, alloc, world.query.clone()?, call)
}
