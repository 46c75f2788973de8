//! Queries.
use crate::told::begin;
use crate::world::{World, names_of, paths_of, tell_query};
use guppy::graph::DependencyDirection;
use guppy::{Error, PackageQuery};

const REVERSE: DependencyDirection = DependencyDirection::Reverse;

fn made_of_ids<'g>(world: &World<'g>, call: &str) -> Result<PackageQuery<'g>, Error> {
    let ids = [world.c, world.a].into_iter();
    match call {
        "query_directed" => world.graph.query_directed(ids, REVERSE),
        "query_reverse" => world.graph.query_reverse(ids),
        _ => world.graph.query_forward(ids),
    }
}

// Of members, or of packages that are listed by their IDs.
fn made_of_list<'g>(world: &World<'g>, call: &str) -> Result<PackageQuery<'g>, Error> {
    match call {
        "query_workspace_paths" | "unknown_path" => {
            world
                .graph
                .query_workspace_paths(paths_of(call).into_iter())
        }
        "query_workspace_names" | "unknown_name" => {
            world
                .graph
                .query_workspace_names(names_of(call).into_iter())
        }
        _ => made_of_ids(world, call),
    }
}

fn made<'g>(world: &World<'g>, call: &str) -> Result<PackageQuery<'g>, Error> {
    match call {
        "query_workspace" => world.graph.query_workspace(),
        "set_to_package_query" => world.x.to_package_query(REVERSE),
        "package_to_package_query" => world.graph.metadata(world.b)?.to_package_query(REVERSE),
        "clone" => Ok(world.query.clone()?),
        _ => made_of_list(world, call),
    }
}

/// The query that was made, where it was.
pub(crate) fn tell_made(
    rt: &HostRuntime,
    made: Result<PackageQuery<'_>, Error>,
) -> Result<(), Error> {
    tell_query(rt, &made?);
    Ok(())
}

pub(crate) fn ask(rt: &HostRuntime, world: &World<'_>, call: &str) -> Result<(), Error> {
    begin(rt);
    tell_made(rt, made(world, call))
}
