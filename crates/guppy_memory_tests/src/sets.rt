//! Sets that are made of names or of sets.
use crate::told::{begin, tell_made};
use crate::world::{World, names_of, paths_of};
use guppy::{Error, PackageSet};

// Sets of two graphs aren't combined.
fn made_of_sets<'g>(world: &World<'g>, call: &str) -> Result<PackageSet<'g>, Error> {
    if !world.x.same_packages(&world.y) {
        return world.graph.resolve_none();
    }
    match call {
        "union" => world.x.union(&world.y),
        "intersection" => world.x.intersection(&world.y),
        "difference" => world.x.difference(&world.y),
        _ => world.x.symmetric_difference(&world.y),
    }
}

// Of packages that are listed, or else of sets.
fn made_of_list<'g>(world: &World<'g>, call: &str) -> Result<PackageSet<'g>, Error> {
    let graph = world.graph;
    match call {
        "resolve_ids" => graph.resolve_ids([world.c, world.a].into_iter()),
        "resolve_workspace_names" | "unknown_name" => {
            graph.resolve_workspace_names(names_of(call).into_iter())
        }
        "resolve_workspace_paths" | "unknown_path" => {
            graph.resolve_workspace_paths(paths_of(call).into_iter())
        }
        _ => made_of_sets(world, call),
    }
}

fn made<'g>(world: &World<'g>, call: &str) -> Result<PackageSet<'g>, Error> {
    match call {
        "resolve_all" => world.graph.resolve_all(),
        "resolve_none" => world.graph.resolve_none(),
        "resolve_workspace" => world.graph.resolve_workspace(),
        "resolve_package_name" => world.graph.resolve_package_name("b"),
        "to_package_set" => world.graph.metadata(world.b)?.to_package_set(),
        "clone" => Ok(world.x.clone()?),
        _ => made_of_list(world, call),
    }
}

pub(crate) fn ask(rt: &HostRuntime, world: &World<'_>, call: &str) -> Result<(), Error> {
    begin(rt);
    tell_made(rt, made(world, call))
}
