//! Clauses, as they are added to a list.
ghost use Rattle.std.specs.Prelude.{OnOk, None, Some};
ghost use Rattle.guppy_features.specs.Adding.{Adds, Where};

use crate::build::Build;
use guppy_closure::Clause;
use std::alloc::AllocError;

/// The clauses that are made.
pub(crate) type Rules = Vec<Clause<Build>>;

/// Adds that the head is built, where the body is, if there is one.
pub(crate) fn add_rule(
    rules: &mut Rules,
    body: Option<Build>,
    head: Build,
) -> Result<(), AllocError>
    ensures { OnOk result (Adds (Where body None (Some head)) rules.old.items rules.new.items) }
{
    rules.push(Clause {
        first: body,
        second: None,
        head,
    })?;
    Ok(())
}
