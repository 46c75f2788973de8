//! The order in which the members of a workspace can be published.
ghost use Rattle.std.specs.Prelude.{◌≡◌, length, map, All, IfOk, IfErr, IfSome, MatchOption, OnOk};
ghost use Rattle.std.specs.List.{filter};
ghost use Rattle.std.specs.Option.{option_map};
ghost use Rattle.guppy_graph.specs.Ids.{DistinctBelow};
ghost use Rattle.guppy.specs.Views.{OfPackage, graph_of, link_graph, link_number, package_position};
ghost use Rattle.guppy_command.specs.Command.{publish_order};
ghost use Rattle.guppy_program.specs.Answer.{IsPublishAnswer, IsCommandFault};
ghost use Rattle.guppy_print.specs.Printed.{called};
ghost use Rattle.guppy_program.specs.Publish.{is_publishable, is_held_back, is_hindrance_at, hindrance_of, IsFree, IsHindered, IsFirstHindered, IsHindranceCause};
ghost use Rattle.guppy_print.specs.Shown.{answer_shown};

use crate::verify::verified;
use guppy::{PackageGraph, PackageId, PackageLink, PackageMetadata};
use guppy_command::Options;
use guppy_print::{Answer, Format, text_of};
use guppy_process::fault::unpublishable;
use guppy_publish::publish_order;
use std::alloc::Global;

// Whether the package with the ID can be published somewhere.
fn is_publishable(graph: &PackageGraph, id: &PackageId) -> bool
    requires { DistinctBelow graph.now.packages (length graph.now.packages) }
    ensures { result ≡ is_publishable graph.now.packages id.now }
{
    let Ok(metadata) = graph.metadata(id) else {
        return false;
    };
    !metadata.publish().is_never()
}

// Leaves the others out.
fn keep_publishable(graph: &PackageGraph, ids: &mut Vec<&PackageId>)
    requires { DistinctBelow graph.now.packages (length graph.now.packages) }
    ensures { map (λ id. id.now) ids.new.items
        ≡ filter (is_publishable graph.now.packages) (map (λ id. id.now) ids.old.items) }
{
    ids.retain(|id| is_publishable(graph, id));
}

// Whether the package is a member that can't be published.
fn is_held_back(metadata: PackageMetadata<'_>) -> bool
    ensures { OfPackage metadata.entry (λ r. result ≡ is_held_back r) }
{
    metadata.in_workspace() && metadata.publish().is_never()
}

// Whether the link isn't dev-only, and leads to a member that can't be published.
fn is_hindrance(link: PackageLink<'_>) -> bool
    ensures { result ≡ is_hindrance_at (link_graph link.entry).now (link_number link.entry) }
{
    !link.dev_only() && is_held_back(link.to())
}

// The first such link that leaves the package.
fn hindrance_of(metadata: PackageMetadata<'_>) -> Option<PackageLink<'_>>
    ensures number { hindrance_of (graph_of metadata.entry).now (package_position metadata.entry)
        ≡ option_map link_number result }
    ensures graph { IfSome result (λ link. link_graph link ≡ graph_of metadata.entry) }
{
    'links: for link in metadata.direct_links() {
        if is_hindrance(link) {
            return Some(link);
        }
    }
    None
}

// The member to which the first such link leads that leaves the package with the ID.
fn needed_by<'g>(graph: &'g PackageGraph, id: &PackageId) -> Option<&'g PackageId>
    requires { DistinctBelow graph.now.packages (length graph.now.packages) }
    ensures { MatchOption result (IsFree graph.now id.now)
        (λ needed. IsHindered graph.now id.now needed.now) }
{
    let Ok(metadata) = graph.metadata(id) else {
        return None;
    };
    match hindrance_of(metadata) {
        Some(link) => Some(link.to().id()),
        None => None,
    }
}

// The first of these packages that such a link leaves, and the member to which it leads.
fn first_hindered<'g>(
    graph: &'g PackageGraph,
    ids: &[&'g PackageId],
) -> Option<(&'g PackageId, &'g PackageId)>
    requires { DistinctBelow graph.now.packages (length graph.now.packages) }
    ensures { MatchOption result (All (IsFree graph.now) (map (λ id. id.now) ids.now))
        (λ pair. IsFirstHindered graph.now (map (λ id. id.now) ids.now) pair.0.now pair.1.now) }
{
    for id in ids {
        if let Some(needed) = needed_by(graph, id) {
            return Some((id, needed));
        }
    }
    None
}

// That none of these packages needs a member that can't be published, or the fault that tells the first that does.
fn none_hindered<F: Format>(
    alloc: Global,
    graph: &PackageGraph,
    names: &F::Names,
    options: &Options,
    ids: &[&PackageId],
) -> Result<(), F::Fault>
    requires names { F.are_names names.now graph.now.packages }
    requires distinct { DistinctBelow graph.now.packages (length graph.now.packages) }
    ensures ok { OnOk result (All (IsFree graph.now) (map (λ id. id.now) ids.now)) }
    ensures err { IfErr result (λ fault. IsHindranceCause graph.now
        (called options.now (F.format.text graph.now.packages)) (map (λ id. id.now) ids.now)
        (F.Fault.cause fault)) }
{
    let Some((member, needed)) = first_hindered(graph, ids) else {
        return Ok(());
    };
    let member = text_of::<F>(options, names, member);
    Err(unpublishable(alloc, member, text_of::<F>(options, names, needed)))
}

/// The members in a publish order, or of these those alone that can be published, where none of them needs one that can't.
pub(crate) fn published<'g, F: Format>(
    alloc: Global,
    graph: &'g PackageGraph,
    names: &F::Names,
    options: &Options,
    publishable: bool,
) -> Result<Answer<'g>, F::Fault>
    requires names { F.are_names names.now graph.now.packages }
    requires distinct { DistinctBelow graph.now.packages (length graph.now.packages) }
    ensures ok { IfOk result
        (λ answer. IsPublishAnswer graph.now publishable (answer_shown answer)) }
    ensures err { IfErr result (λ fault. IsCommandFault F.format
        (called options.now (F.format.text graph.now.packages)) (publish_order publishable) graph.now
        fault (F.Fault.cause fault)) }
{
    let mut ids = verified::<_, F>(alloc, graph, names, options, publish_order(graph))?;
    if publishable {
        keep_publishable(graph, &mut ids);
        none_hindered::<F>(alloc, graph, names, options, ids.as_slice())?;
    }
    Ok(Answer::List(ids))
}
