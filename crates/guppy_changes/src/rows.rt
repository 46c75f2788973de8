//! What is built of all members, and the marks that its rows give.
ghost use Rattle.std.specs.Prelude.{◌≡◌, All, IfOk, OnOk, map};
ghost use Rattle.guppy_graph.specs.Ids.{IsKnown};
ghost use Rattle.guppy_built.specs.Rows.{row_of};
ghost use Rattle.guppy_changes.specs.Adding.{Adds, OfSome};
ghost use Rattle.guppy_changes.specs.Changes.{AreAllBuilt, AreMembers, setting_of};
ghost use Rattle.guppy_changes.specs.Shown.{FeatureMarks, RowMarks, all_shown};

use crate::adding::{Marks, add};
use crate::mark::{Mark, MarkOf};
use crate::setting::BuildSetting;
use guppy_built::{BuildQuestion, BuiltFault, BuiltPackage, built_as_resolved};
use guppy_data::PackageId;
use guppy_graph::RecordGraph;
use std::alloc::{AllocError, Global};

// The IDs of the members.
fn member_ids(alloc: Global, graph: &RecordGraph) -> Result<Vec<PackageId>, AllocError>
    ensures members { IfOk result (λ ids. AreMembers graph.now ids.items) }
    ensures known { IfOk result (λ ids. All (IsKnown graph.now.packages) ids.items) }
{
    let mut ids = Vec::new(alloc);
    for position in graph.members_by_path() {
        ids.push(graph.package_at(*position).id.clone()?)?;
    }
    Ok(ids)
}

/// The rows of what Cargo builds of all members, with these of their features and their tests, as far as the metadata
/// resolve it.
pub(crate) fn all_built<'a>(
    alloc: Global,
    graph: &'a RecordGraph,
    setting: &BuildSetting<'a>,
) -> Result<Vec<BuiltPackage<'a>>, AllocError>
    ensures { IfOk result (λ rows. AreAllBuilt graph.now (setting_of setting.now) (map row_of rows.items)) }
{
    let members = member_ids(alloc, graph)?;
    let question = BuildQuestion {
        members: members.as_slice(),
        features: &[],
        standard: setting.standard,
        tests: true,
        resolver: setting.resolver,
        target_platform: setting.target_platform,
        host_platform: setting.host_platform,
    };
    match built_as_resolved(alloc, graph, &question) {
        Ok(rows) => Ok(rows),
        Err(BuiltFault::OutOfMemory) => Err(AllocError),
        // No feature is named that Cargo could refuse.
        Err(_) => unreachable!(),
    }
}

// Adds the features that are on in the row.
fn add_features<'a>(marks: &mut Marks<'a>, row: &BuiltPackage<'a>) -> Result<(), AllocError>
    ensures { OnOk result (Adds (FeatureMarks (row_of row.now))
        (all_shown marks.old.items) (all_shown marks.new.items)) }
{
    for feature in row.features.as_slice() {
        let mark = Mark::BuiltWith(row.platform, *feature);
        add(marks, MarkOf { id: row.id, mark })?;
    }
    Ok(())
}

// Adds what the row gives.
fn add_row<'a>(marks: &mut Marks<'a>, row: &BuiltPackage<'a>) -> Result<(), AllocError>
    ensures { OnOk result (Adds (RowMarks (row_of row.now))
        (all_shown marks.old.items) (all_shown marks.new.items)) }
{
    let mark = Mark::BuiltFor(row.platform);
    add(marks, MarkOf { id: row.id, mark })?;
    add_features(marks, row)
}

/// Adds what the rows give.
pub(crate) fn add_rows<'a>(
    marks: &mut Marks<'a>,
    rows: &[BuiltPackage<'a>],
) -> Result<(), AllocError>
    ensures { OnOk result (Adds (OfSome (map row_of rows.now) RowMarks)
        (all_shown marks.old.items) (all_shown marks.new.items)) }
{
    for row in rows {
        add_row(marks, row)?;
    }
    Ok(())
}
