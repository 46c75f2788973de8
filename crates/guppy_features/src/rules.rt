//! Clauses, as they are added to a list.
ghost use Rattle.std.specs.Prelude.{OnOk};
ghost use Rattle.guppy_features.specs.Adding.{Adds, Where};

use crate::fact::Fact;
use guppy_closure::Clause;
use std::alloc::AllocError;

/// The clauses that are made.
pub(crate) type Rules = Vec<Clause<Fact>>;

/// Adds the clause with this body and this head, if there is a head.
pub(crate) fn add_rule(
    rules: &mut Rules,
    first: Option<Fact>,
    second: Option<Fact>,
    head: Option<Fact>,
) -> Result<(), AllocError>
    ensures { OnOk result (Adds (Where first second head) rules.old.items rules.new.items) }
{
    if let Some(head) = head {
        rules.push(Clause {
            first,
            second,
            head,
        })?;
    }
    Ok(())
}
