//! Questions about packages by their IDs, paths and names, of which some are unknown: the error then has a
//! copy of the text.
use crate::queries;
use crate::told::{begin, tell_answer, tell_line, tell_made};
use crate::world::World;
use guppy::graph::DependencyDirection;
use guppy::{DependsCache, Error, PackageId, Utf8Path};

/// Whether the first package depends on the second one. Takes no memory.
pub(crate) fn tell_depends(
    rt: &HostRuntime,
    cache: &mut DependsCache<'_>,
    first: &PackageId,
    second: &PackageId,
) {
    match cache.depends_on(first, second) {
        Ok(depends) => tell_line(rt, &depends),
        Err(error) => tell_line(rt, &error),
    }
}

// Whether c depends on a, and a on c.
fn tell_cache(rt: &HostRuntime, world: &World<'_>, cache: &mut DependsCache<'_>) {
    tell_depends(rt, cache, world.c, world.a);
    tell_depends(rt, cache, world.a, world.c);
}

fn ask_new_cache(rt: &HostRuntime, world: &World<'_>, call: &str) -> Result<(), Error> {
    begin(rt);
    let cache = if call == "new_depends_cache" {
        world.graph.new_depends_cache()
    } else {
        DependsCache::new(world.graph)
    };
    tell_cache(rt, world, &mut cache?);
    Ok(())
}

// Asks a cache of an unknown package, and tells what it answers before and after that.
fn ask_cache(rt: &HostRuntime, world: &World<'_>) -> Result<(), Error> {
    let mut cache = world.graph.new_depends_cache()?;
    tell_cache(rt, world, &mut cache);
    begin(rt);
    let asked = cache.depends_on(world.a, &world.z);
    tell_cache(rt, world, &mut cache);
    tell_answer(rt, asked)
}

fn ask_of_two(
    rt: &HostRuntime,
    world: &World<'_>,
    call: &str,
    from: &PackageId,
    to: &PackageId,
) -> Result<(), Error> {
    let graph = world.graph;
    begin(rt);
    let holds = match call {
        "directly_depends_on" => graph.directly_depends_on(from, to),
        "is_cyclic" => graph.cycles().is_cyclic(from, to),
        "contains" => world.x.contains(to),
        _ => graph.depends_on(from, to),
    };
    tell_answer(rt, holds)
}

// Looks up a package that isn't there.
fn ask_for_unknown(rt: &HostRuntime, world: &World<'_>, call: &str) -> Result<(), Error> {
    begin(rt);
    let package = match call {
        "member_by_path" => world.graph.workspace().member_by_path(Utf8Path::new("z")),
        "member_by_name" => world.graph.workspace().member_by_name("z"),
        _ => world.graph.metadata(&world.z),
    };
    tell_line(rt, &package?.name());
    Ok(())
}

fn ask_link(rt: &HostRuntime, world: &World<'_>) -> Result<(), Error> {
    let package = world.graph.metadata(world.a)?;
    begin(rt);
    let link = package.link_between(&world.z, DependencyDirection::Forward)?;
    tell_line(rt, &link.is_some());
    Ok(())
}

// A set or a query of packages, of which one isn't there.
fn ask_of_list(
    rt: &HostRuntime,
    world: &World<'_>,
    call: &str,
    unknown: &PackageId,
) -> Result<(), Error> {
    let ids = [world.a, unknown].into_iter();
    begin(rt);
    if call == "query_forward" {
        queries::tell_made(rt, world.graph.query_forward(ids))
    } else {
        tell_made(rt, world.graph.resolve_ids(ids))
    }
}

pub(crate) fn ask(rt: &HostRuntime, world: &World<'_>, call: &str) -> Result<(), Error> {
    match call {
        "depends_on" => ask_of_two(rt, world, call, world.a, world.c),
        "new" | "new_depends_cache" => ask_new_cache(rt, world, call),
        "cache" => ask_cache(rt, world),
        "depends_on_unknown" | "directly_depends_on" | "is_cyclic" | "contains" => {
            ask_of_two(rt, world, call, world.a, &world.z)
        }
        "link_between" => ask_link(rt, world),
        "query_forward" | "resolve_ids" => ask_of_list(rt, world, call, &world.z),
        _ => ask_for_unknown(rt, world, call),
    }
}
