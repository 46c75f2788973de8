//! All marks of a state.
ghost use Rattle.std.specs.Prelude.{IfOk};
ghost use Rattle.guppy_changes.specs.Changes.{setting_of};
ghost use Rattle.guppy_changes.specs.Shown.{AreStateMarks, all_shown};

use crate::links::add_links;
use crate::mark::MarkOf;
use crate::rows::{add_rows, all_built};
use crate::setting::BuildSetting;
use guppy_data::SortedSet;
use guppy_graph::RecordGraph;
use std::alloc::{AllocError, Global};

/// The marks of the state.
pub(crate) fn marks_of<'a>(
    alloc: Global,
    graph: &'a RecordGraph,
    setting: &BuildSetting<'a>,
) -> Result<SortedSet<MarkOf<'a>>, AllocError>
    ensures { IfOk result (λ set. AreStateMarks graph.now (setting_of setting.now) (all_shown set)) }
{
    let rows = all_built(alloc, graph, setting)?;
    let mut marks = Vec::new(alloc);
    add_links(&mut marks, graph)?;
    add_rows(&mut marks, rows.as_slice())?;
    Ok(SortedSet::new(marks))
}
