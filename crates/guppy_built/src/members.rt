//! The members that are chosen.
ghost use Rattle.std.specs.Prelude.{◌≡◌, ◌<◌, All, IfErr, IfOk, MatchOption, is_some, length};
ghost use Rattle.std.specs.List.{AllZip};
ghost use Rattle.guppy_graph.specs.Ids.{HasId, IsKnown};
ghost use Rattle.guppy_graph.specs.Members.{member_path};
ghost use Rattle.guppy_built.specs.Asked.{AreChosen, AreDefault};
ghost use Rattle.guppy_built.specs.Refused.{IsFirstOther, IsMembersFault, IsOfMember};

use crate::fault::BuiltFault;
use guppy_data::{PackageId, PackageRecord, PackageSourceRecord};
use guppy_graph::RecordGraph;
use std::alloc::{AllocError, Global};

/// The position of the package with the ID, which must be known.
pub(crate) fn position_of(graph: &RecordGraph, id: &PackageId) -> usize
    requires { IsKnown graph.now.packages id.now }
    ensures { HasId graph.now.packages id.now result }
{
    match graph.position_of_id(id) {
        Some(position) => position,
        None => unreachable!(),
    }
}

// The positions of the packages with these IDs, each of which must be known.
fn positions_of(
    alloc: Global,
    graph: &RecordGraph,
    ids: &[PackageId],
) -> Result<Vec<usize>, AllocError>
    requires { All (IsKnown graph.now.packages) ids.now }
    ensures named { IfOk result (λ positions. AllZip (HasId graph.now.packages) ids.now positions.items) }
    ensures within { IfOk result (λ positions. All (λ p. p < length graph.now.packages) positions.items) }
{
    let mut positions = Vec::with_capacity(alloc, ids.len())?;
    for id in ids {
        positions.push(position_of(graph, id))?;
    }
    Ok(positions)
}

// The positions of the members that Cargo takes where none is named.
fn default_members(alloc: Global, graph: &RecordGraph) -> Result<Vec<usize>, AllocError>
    ensures members { IfOk result (λ positions. AreDefault graph.now
        graph.now.workspace.default_members.items positions.items) }
    ensures within { IfOk result (λ positions. All (λ p. p < length graph.now.packages) positions.items) }
{
    let ids = graph.workspace_record().default_members.as_slice();
    if ids.is_empty() {
        return graph.members_by_path().to_vec(alloc);
    }
    positions_of(alloc, graph, ids)
}

/// The positions of the chosen members: those with these IDs, each of which must be known, or where there is none those
/// that Cargo takes by default.
pub(crate) fn chosen_members(
    alloc: Global,
    graph: &RecordGraph,
    ids: &[PackageId],
) -> Result<Vec<usize>, AllocError>
    requires { All (IsKnown graph.now.packages) ids.now }
    ensures members { IfOk result (λ positions. AreChosen graph.now ids.now positions.items) }
    ensures within { IfOk result (λ positions. All (λ p. p < length graph.now.packages) positions.items) }
{
    if ids.is_empty() {
        return default_members(alloc, graph);
    }
    positions_of(alloc, graph, ids)
}

// Whether the package is a member.
fn is_member(package: &PackageRecord) -> bool
    ensures { result ≡ is_some (member_path «package».now) }
{
    matches!(package.source, PackageSourceRecord::Workspace(_))
}

// The place of the first of these IDs, each of which must be known, that is that of no member.
fn first_other(graph: &RecordGraph, ids: &[PackageId]) -> Option<usize>
    requires { All (IsKnown graph.now.packages) ids.now }
    ensures { MatchOption result (All (IsOfMember graph.now.packages) ids.now)
        (IsFirstOther graph.now.packages ids.now) }
{
    for (place, id) in ids.iter().enumerate() {
        if !is_member(graph.package_at(position_of(graph, id))) {
            return Some(place);
        }
    }
    None
}

/// The positions of the chosen members, as [`chosen_members`] tells them, where each ID is that of a member.
pub(crate) fn checked_members<'a>(
    alloc: Global,
    graph: &RecordGraph,
    ids: &[PackageId],
) -> Result<Vec<usize>, BuiltFault<'a>>
    requires { All (IsKnown graph.now.packages) ids.now }
    ensures named { IfOk result (λ _. All (IsOfMember graph.now.packages) ids.now) }
    ensures members { IfOk result (λ positions. AreChosen graph.now ids.now positions.items) }
    ensures within { IfOk result (λ positions. All (λ p. p < length graph.now.packages) positions.items) }
    ensures err { IfErr result (IsMembersFault graph.now.packages ids.now) }
{
    if let Some(place) = first_other(graph, ids) {
        return Err(BuiltFault::NoMember(place));
    }
    Ok(chosen_members(alloc, graph, ids)?)
}
