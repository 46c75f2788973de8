//! The packages that aren't unchanged.
ghost use Rattle.std.specs.Prelude.{◌≡◌, ◌↔◌, IsTrue, IfOk, map, Contains};
ghost use Rattle.guppy_graph.specs.Ids.{IsKnown, ids_of};
ghost use Rattle.guppy_changes.specs.Changes.{AreChanged, AreOthers, setting_of};
ghost use Rattle.guppy_changes.specs.Missing.{IsKept};

use crate::marks::marks_of;
use crate::missing::differing;
use crate::setting::BuildSetting;
use guppy_data::{PackageId, SortedSet};
use guppy_graph::RecordGraph;
use std::alloc::{AllocError, Global};

// Whether the package was there before, and isn't one of those with other marks.
fn is_kept(before: &RecordGraph, differing: &SortedSet<&PackageId>, id: &PackageId) -> bool
    ensures { IsTrue result ↔ IsKept before.now.packages (map (λ id. id.now) differing.now) id.now }
{
    match before.position_of_id(id) {
        Some(_) => !differing.contains(&id),
        None => false,
    }
}

// The IDs of the packages that aren't.
fn others<'g>(
    alloc: Global,
    before: &RecordGraph,
    now: &'g RecordGraph,
    differing: &SortedSet<&PackageId>,
) -> Result<Vec<&'g PackageId>, AllocError>
    ensures { IfOk result (λ ids. AreOthers (IsKept before.now.packages (map (λ id. id.now) differing.now))
        (ids_of now.now.packages) (map (λ id. id.now) ids.items)) }
{
    let mut ids = Vec::new(alloc);
    for package in now.dep_graph().nodes() {
        if !is_kept(before, differing, &package.id) {
            ids.push(&package.id)?;
        }
    }
    Ok(ids)
}

/// The IDs of the packages of `now` that aren't as they were in the graph `before`, by position. One is as it was where
/// it was there, by its ID, and needs, asks for and is built with exactly what it did:
///
/// - each section of its manifest needs the same packages under the same names, on whatever platform, and asks for the
///   same of their features;
/// - where all members are built, with these of their features and their tests, it is built for the same platforms, on each
///   with the same features.
///
/// So it depends neither on the order of packages, links and features nor on the versions that are asked for. A package
/// that only needs changed ones isn't changed by that. An optional dependency for which a state's metadata resolve nothing
/// counts for nothing there. Where the workspace has no members, those count that
/// [`BuildQuestion`](guppy_built::BuildQuestion) takes where none is named.
///
/// The error is want of memory, and no other. Time and memory are those of
/// [`built_as_resolved`](guppy_built::built_as_resolved) on both graphs, and grow with what is said of the packages, times its
/// logarithm.
pub fn changed_packages<'g>(
    alloc: Global,
    before: &RecordGraph,
    now: &'g RecordGraph,
    setting: &BuildSetting<'_>,
) -> Result<Vec<&'g PackageId>, AllocError>
    ensures { IfOk result (λ ids. AreChanged before.now now.now (setting_of setting.now)
        (map (λ id. id.now) ids.items)) }
{
    let marks_before = marks_of(alloc, before, setting)?;
    let marks_now = marks_of(alloc, now, setting)?;
    let differing = differing(alloc, &marks_before, &marks_now)?;
    others(alloc, before, now, &differing)
}
