//! Cases for a run in which a request for memory is refused.
//!
//! Each argument is a case: a call, named behind the group of its kind, with all that it needs made
//! before. The call itself stands between the lines `call` and `done`, and that is where
//! `.ci/refusals.py` refuses a request. Before and after it the case tells what must be as it was where the
//! call is refused. A call that answers want of memory is done again, and then answers in full.
#![tactic(auto)]

mod filters;
mod lists;
mod look_ups;
mod queries;
mod quiet;
mod resolves;
mod sets;
mod told;
mod verifying;
mod world;

use crate::world::{World, graph_of, member, tell_world, world_of};
use guppy::{DependencyKind, Error, IntoGraph, PackageGraph};
use guppy_core_memory_cases::ask_apart;
use guppy_core_memory_cases::records::{Ends, records_of};
use std::alloc::Global;
use std::process::ExitCode;
use std::{env, io};

const NAMES: [&str; 5] = ["a", "b", "c", "d", "e"];

const ENDS: [Ends; 6] = [
    ("a", "b", Some(DependencyKind::Normal)),
    ("b", "c", Some(DependencyKind::Build)),
    ("c", "b", Some(DependencyKind::Development)),
    ("a", "d", Some(DependencyKind::Development)),
    ("d", "d", Some(DependencyKind::Normal)),
    ("d", "c", Some(DependencyKind::Normal)),
];

// Makes the graph once more, of records that are given up.
fn ask_from_records(rt: &HostRuntime, alloc: Global) -> Result<(), Error> {
    let records = records_of(alloc, &NAMES, &ENDS)?;
    told::begin(rt);
    let graph = records.into_graph()?;
    world::tell_graph(rt, &graph);
    Ok(())
}

fn ask(
    rt: &HostRuntime,
    alloc: Global,
    world: &World<'_>,
    group: &str,
    call: &str,
) -> Result<(), Error> {
    match group {
        "sets" => sets::ask(rt, world, call),
        "queries" => queries::ask(rt, world, call),
        "resolves" => resolves::ask(rt, alloc, world, call),
        "filters" => filters::ask(rt, world, call),
        "lists" => lists::ask(rt, world, call),
        "look_ups" => look_ups::ask(rt, world, call),
        "verifying" => verifying::ask(rt, alloc, world, call),
        "quiet" => quiet::ask(rt, alloc, world, call),
        "data" | "positions" | "ixs" | "searches" => Ok(ask_apart(rt, alloc, group, call)?),
        _ => ask_from_records(rt, alloc),
    }
}

// Tells what was answered, and whether memory was refused.
fn tell_done(rt: &HostRuntime, asked: &Result<(), Error>) -> bool {
    told::tell_line(rt, &"done");
    if let Err(error) = asked {
        told::tell_line(rt, error);
    }
    matches!(asked, Err(Error::OutOfMemory))
}

// Tells whether memory was refused.
fn try_once(rt: &HostRuntime, alloc: Global, world: &World<'_>, group: &str, call: &str) -> bool {
    tell_world(rt, world);
    tell_done(rt, &ask(rt, alloc, world, group, call))
}

// Does the case, and where it is refused once more.
fn try_case(rt: &HostRuntime, alloc: Global, world: &World<'_>, case: &str) {
    let (group, call) = case.split_once('.').unwrap_or((case, ""));
    if try_once(rt, alloc, world, group, call) {
        try_once(rt, alloc, world, group, call);
    }
    tell_world(rt, world);
}

fn try_in(rt: &HostRuntime, alloc: Global, graph: &PackageGraph, case: &str) -> Result<(), Error> {
    let a = member(graph, "a");
    let b = member(graph, "b");
    let c = member(graph, "c");
    if let (Some(a), Some(b), Some(c)) = (a, b, c) {
        let world = world_of(alloc, graph, a, b, c)?;
        try_case(rt, alloc, &world, case);
    }
    Ok(())
}

fn run_case(rt: &HostRuntime, alloc: Global, case: &str) -> Result<(), Error> {
    let graph = graph_of(alloc, &NAMES, &ENDS)?;
    try_in(rt, alloc, &graph, case)
}

fn run_cases(rt: &HostRuntime) -> io::Result<()> {
    let mut words = env::args(rt)?;
    words.next();
    for case in words {
        told::tell_line(rt, &case);
        if let Err(error) = run_case(rt, rt.alloc(), case.as_str()) {
            told::tell_line(rt, &error);
        }
    }
    Ok(())
}

fn main(rt: HostRuntime) -> ExitCode {
    match run_cases(&rt) {
        Ok(()) => ExitCode::SUCCESS,
        Err(_) => ExitCode::FAILURE,
    }
}
