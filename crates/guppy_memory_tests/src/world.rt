//! What stands before a case begins: a graph, sets and a query of it.
use crate::told::{tell, tell_line, tell_set};
use guppy::graph::DependencyDirection;
use guppy::{Error, IntoGraph, PackageGraph, PackageId, PackageQuery, PackageSet, Utf8Path};
use guppy_core_memory_cases::records::{Ends, id_of, records_of};
use std::alloc::Global;

/// The graph of packages with these names, and of links with these ends.
pub(crate) fn graph_of(
    alloc: Global,
    names: &[&str],
    ends: &[Ends],
) -> Result<PackageGraph, Error> {
    records_of(alloc, names, ends)?.into_graph()
}

/// A graph, and what was made of it.
#[derive(Drop)]
pub(crate) struct World<'g> {
    pub(crate) graph: &'g PackageGraph,
    pub(crate) a: &'g PackageId,
    pub(crate) b: &'g PackageId,
    pub(crate) c: &'g PackageId,
    /// Of no package
    pub(crate) z: PackageId,
    /// a and b
    pub(crate) x: PackageSet<'g>,
    /// b and c
    pub(crate) y: PackageSet<'g>,
    /// All packages
    pub(crate) all: PackageSet<'g>,
    /// Forward from a
    pub(crate) query: PackageQuery<'g>,
}

/// Makes the sets and the query.
pub(crate) fn world_of<'g>(
    alloc: Global,
    graph: &'g PackageGraph,
    a: &'g PackageId,
    b: &'g PackageId,
    c: &'g PackageId,
) -> Result<World<'g>, Error> {
    let x = graph.resolve_ids([a, b].into_iter())?;
    let y = graph.resolve_ids([b, c].into_iter())?;
    let all = graph.resolve_all()?;
    let query = graph.query_forward([a].into_iter())?;
    Ok(World {
        graph,
        a,
        b,
        c,
        z: id_of(alloc, "z"),
        x,
        y,
        all,
        query,
    })
}

/// The ID of a member.
pub(crate) fn member<'g>(graph: &'g PackageGraph, name: &str) -> Option<&'g PackageId> {
    match graph.workspace().member_by_name(name) {
        Ok(package) => Some(package.id()),
        Err(_) => None,
    }
}

/// The paths of the members c and a, or in the place of the first one that is no member's.
pub(crate) fn paths_of(call: &str) -> [Utf8Path<'static>; 2] {
    let first = if call == "unknown_path" { "z" } else { "c/." };
    [Utf8Path::new(first), Utf8Path::new("a")]
}

/// The names of the members c and a, or in the place of the last one that is no member's.
pub(crate) fn names_of(call: &str) -> [&'static str; 2] {
    ["c", if call == "unknown_name" { "z" } else { "a" }]
}

fn tell_links(rt: &HostRuntime, graph: &PackageGraph, id: &PackageId) {
    if let Ok(package) = graph.metadata(id) {
        for link in package.direct_links() {
            tell(rt, if link.dev_only() { "~" } else { ">" });
            tell(rt, link.to().name());
        }
    }
}

/// Each package, in the order of the workspace, with the links that leave it.
pub(crate) fn tell_graph(rt: &HostRuntime, graph: &PackageGraph) {
    for id in graph.workspace().member_ids() {
        tell(rt, id.repr());
        tell_links(rt, graph, id);
    }
    tell_line(rt, &graph.link_count());
}

pub(crate) fn tell_query(rt: &HostRuntime, query: &PackageQuery<'_>) {
    let is_forward = query.direction() == DependencyDirection::Forward;
    tell(rt, if is_forward { "from" } else { "to" });
    tell_set(rt, query.initials());
}

pub(crate) fn tell_world(rt: &HostRuntime, world: &World<'_>) {
    tell_graph(rt, world.graph);
    tell_set(rt, &world.x);
    tell_set(rt, &world.y);
    tell_query(rt, &world.query);
}
