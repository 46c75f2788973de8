//! Marks, as they are added to a list.
ghost use Rattle.std.specs.Prelude.{◌≡◌, OnOk};
ghost use Rattle.guppy_data.specs.Platform.{recorded_status};
ghost use Rattle.guppy_changes.specs.Adding.{Adds};
ghost use Rattle.guppy_changes.specs.Shown.{IfSomewhere, all_shown, shown};

use crate::mark::MarkOf;
use guppy_data::PlatformStatusImpl;
use std::alloc::AllocError;

/// The marks that are made.
pub(crate) type Marks<'a> = Vec<MarkOf<'a>>;

/// Adds the mark.
pub(crate) fn add<'a>(marks: &mut Marks<'a>, mark: MarkOf<'a>) -> Result<(), AllocError>
    ensures { OnOk result (Adds (λ m. m ≡ shown mark.entry) (all_shown marks.old.items) (all_shown marks.new.items)) }
{
    marks.push(mark)?;
    Ok(())
}

/// Adds the mark, where the status isn't never.
pub(crate) fn add_if<'a>(
    marks: &mut Marks<'a>,
    status: &PlatformStatusImpl,
    mark: MarkOf<'a>,
) -> Result<(), AllocError>
    ensures { OnOk result (Adds (IfSomewhere (recorded_status status.now) (shown mark.entry))
        (all_shown marks.old.items) (all_shown marks.new.items)) }
{
    if status.is_never() {
        return Ok(());
    }
    add(marks, mark)
}
