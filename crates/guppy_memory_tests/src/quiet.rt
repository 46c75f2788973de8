//! Calls that take no memory.
ghost use Rattle.std.specs.Iterator.{IsFinite};

use crate::lists;
use crate::look_ups::tell_depends;
use crate::told::{begin, tell, tell_all, tell_line, tell_names, tell_set};
use crate::world::{World, graph_of, tell_graph};
use guppy::graph::DependencyDirection;
use guppy::platform::{EnabledTernary, PlatformSpec};
use guppy::{
    CycleIds, DependsCache, Error, PackageId, PackageLink, PackageMetadata, PackageSet, Utf8Path,
};
use guppy_core_memory_cases::{KnowsNothing, ask_quiet};
use std::alloc::Global;
use std::fmt::Display;

const FORWARD: DependencyDirection = DependencyDirection::Forward;

const REVERSE: DependencyDirection = DependencyDirection::Reverse;

fn tell_links(
    rt: &HostRuntime,
    package: PackageMetadata<'_>,
    other: &PackageId,
) -> Result<(), Error> {
    tell(rt, package.link_between(other, FORWARD)?.is_some());
    tell(rt, package.link_to(other)?.is_some());
    tell_line(rt, &package.link_from(other)?.is_some());
    Ok(())
}

fn ask_look_ups(rt: &HostRuntime, world: &World<'_>) -> Result<(), Error> {
    let graph = world.graph;
    begin(rt);
    let package = graph.metadata(world.a)?;
    tell(rt, package.name());
    tell(rt, graph.directly_depends_on(world.a, world.b)?);
    tell(rt, world.x.contains(world.c)?);
    tell(rt, graph.cycles().is_cyclic(world.b, world.c)?);
    tell_links(rt, package, world.b)
}

// What members are listed by.
fn tell_keys<'g, K: Display + Drop, I: Iterator<Item = (K, PackageMetadata<'g>)> + Drop>(
    rt: &HostRuntime,
    members: I,
)
    requires can { I.can_next members }
    requires ends { IsFinite (I.remaining members) }
{
    for (key, _) in members {
        tell(rt, key);
    }
}

fn ask_members(rt: &HostRuntime, world: &World<'_>) -> Result<(), Error> {
    let workspace = world.graph.workspace();
    begin(rt);
    tell(rt, workspace.member_by_path(Utf8Path::new("b/."))?.name());
    tell(rt, workspace.member_by_name("c")?.name());
    tell_keys(rt, workspace.iter_by_path());
    tell_keys(rt, workspace.iter_by_name());
    tell(rt, workspace.default_member_ids().len());
    tell_line(rt, &workspace.member_count());
    Ok(())
}

fn tell_link(rt: &HostRuntime, link: PackageLink<'_>) {
    let status = link.normal().status();
    let value = status.required_on(&PlatformSpec::Always, &KnowsNothing);
    tell(rt, link.dep_name());
    tell(rt, value == EnabledTernary::Enabled);
}

// One of the fields that are texts, lists and statuses.
fn tell_fields(rt: &HostRuntime, package: PackageMetadata<'_>) {
    tell(rt, package.id());
    tell(rt, package.in_workspace());
    tell(rt, package.edition());
    tell(rt, package.version());
    tell(rt, package.source());
    tell(rt, package.reverse_direct_links().len());
    tell(rt, package.build_targets().len());
    for link in package.direct_links() {
        tell_link(rt, link);
    }
    tell_line(rt, &"fields");
}

fn ask_fields(rt: &HostRuntime, world: &World<'_>) -> Result<(), Error> {
    begin(rt);
    for package in world.graph.packages() {
        tell_fields(rt, package);
    }
    Ok(())
}

// No cycle is looked for, since the only link has no section.
fn ask_verify(rt: &HostRuntime, alloc: Global) -> Result<(), Error> {
    let graph = graph_of(alloc, &["a", "b"], &[("a", "b", None)])?;
    begin(rt);
    graph.verify()
}

fn tell_cycles<'g, I: Iterator<Item = CycleIds<'g>> + Drop>(rt: &HostRuntime, cycles: I)
    requires can { I.can_next cycles }
    requires ends { IsFinite (I.remaining cycles) }
{
    for cycle in cycles {
        tell_all(rt, cycle, &"cycle");
    }
}

fn ask_lists(rt: &HostRuntime, world: &World<'_>) -> Result<(), Error> {
    begin(rt);
    tell_graph(rt, world.graph);
    tell_cycles(rt, world.graph.cycles().all_cycles());
    tell_cycles(rt, world.graph.cycles().all_cycles().rev());
    for package in world.x.packages(REVERSE) {
        tell(rt, package.name());
    }
    tell(rt, world.x == world.y);
    tell(rt, world.x.same_packages(&world.y));
    tell_set(rt, &world.x);
    Ok(())
}

// The iterators are made before.
fn ask_iterators(rt: &HostRuntime, all: &PackageSet<'_>) -> Result<(), Error> {
    let links = all.links(FORWARD)?;
    let ids = all.root_ids(FORWARD)?;
    let packages = all.root_packages(REVERSE)?;
    begin(rt);
    lists::tell_links(rt, links);
    tell_all(rt, ids, &"roots");
    tell_names(rt, packages, &"roots");
    Ok(())
}

fn ask_cache(rt: &HostRuntime, world: &World<'_>) -> Result<(), Error> {
    let mut cache = DependsCache::new(world.graph)?;
    begin(rt);
    tell_depends(rt, &mut cache, world.a, world.c);
    tell_depends(rt, &mut cache, world.c, world.a);
    tell_depends(rt, &mut cache, world.c, world.b);
    Ok(())
}

pub(crate) fn ask(
    rt: &HostRuntime,
    alloc: Global,
    world: &World<'_>,
    call: &str,
) -> Result<(), Error> {
    match call {
        "look_ups" => ask_look_ups(rt, world),
        "members" => ask_members(rt, world),
        "iterators" => ask_iterators(rt, &world.all),
        "cache" => ask_cache(rt, world),
        "verify" => ask_verify(rt, alloc),
        "data" | "index" | "cores" | "positions" => Ok(ask_quiet(rt, alloc, call)?),
        "fields" => ask_fields(rt, world),
        _ => ask_lists(rt, world),
    }
}
