//! Lists: of members, of roots, and of walked links.
use crate::told::{begin, tell, tell_all, tell_line, tell_names};
use crate::world::{World, names_of, paths_of};
use guppy::graph::DependencyDirection;
use guppy::{Error, PackageMetadata, WalkedLinks};

const FORWARD: DependencyDirection = DependencyDirection::Forward;

const REVERSE: DependencyDirection = DependencyDirection::Reverse;

fn members<'g>(world: &World<'g>, call: &str) -> Result<Vec<PackageMetadata<'g>>, Error> {
    let workspace = world.graph.workspace();
    if let "members_by_paths" | "unknown_path" = call {
        workspace.members_by_paths(paths_of(call).into_iter())
    } else {
        workspace.members_by_names(names_of(call).into_iter())
    }
}

fn ask_members(rt: &HostRuntime, world: &World<'_>, call: &str) -> Result<(), Error> {
    let members = members(world, call)?;
    tell_names(rt, members.iter().copied(), &members.len());
    Ok(())
}

pub(crate) fn tell_links(rt: &HostRuntime, links: WalkedLinks<'_>) {
    for link in links {
        tell(rt, link.link_ix());
    }
    tell_line(rt, &"links");
}

pub(crate) fn ask(rt: &HostRuntime, world: &World<'_>, call: &str) -> Result<(), Error> {
    begin(rt);
    match call {
        "root_ids" => tell_all(rt, world.all.root_ids(FORWARD)?, &"roots"),
        "root_packages" => tell_names(rt, world.all.root_packages(REVERSE)?, &"roots"),
        "links_forward" => tell_links(rt, world.all.links(FORWARD)?),
        "links_reverse" => tell_links(rt, world.all.links(REVERSE)?),
        _ => ask_members(rt, world, call)?,
    }
    Ok(())
}
