//! The packages that have a mark in one state and not in the other.
ghost use Rattle.std.specs.Prelude.{◌≡◌, ◌⊎◌, IfOk, OnOk, map, Contains};
ghost use Rattle.guppy_changes.specs.Missing.{AddsMissing, AreDiffering};
ghost use Rattle.guppy_changes.specs.Shown.{all_shown, shown};

use crate::mark::MarkOf;
use guppy_data::{PackageId, SortedSet};
use std::alloc::{AllocError, Global};

// Adds the ID of each mark that isn't one of the others.
fn add_missing<'a>(
    ids: &mut Vec<&'a PackageId>,
    marks: &SortedSet<MarkOf<'a>>,
    others: &SortedSet<MarkOf<'a>>,
) -> Result<(), AllocError>
    ensures { OnOk result (AddsMissing (all_shown marks.now) (all_shown others.now)
        (map (λ id. id.now) ids.old.items) (map (λ id. id.now) ids.new.items)) }
{
    for mark in marks.as_slice() {
        if !others.contains(mark) {
            ids.push(mark.id)?;
        }
    }
    Ok(())
}

/// The IDs of the packages with a mark that is in one of the sets alone.
pub(crate) fn differing<'a>(
    alloc: Global,
    before: &SortedSet<MarkOf<'a>>,
    now: &SortedSet<MarkOf<'a>>,
) -> Result<SortedSet<&'a PackageId>, AllocError>
    ensures { IfOk result (λ ids. AreDiffering (all_shown before.now) (all_shown now.now) (map (λ id. id.now) ids)) }
{
    let mut ids = Vec::new(alloc);
    add_missing(&mut ids, before, now)?;
    add_missing(&mut ids, now, before)?;
    Ok(SortedSet::new(ids))
}
