//! Whether all that is switched on is resolved.
ghost use Rattle.std.specs.Prelude.{◌≡◌, IfErr, OnOk};
ghost use Rattle.guppy_features.specs.Unresolved.{AreResolved};
ghost use Rattle.guppy_built.specs.Refused.{IsLackingFault};

use crate::fault::BuiltFault;
use guppy_features::CargoSet;
use guppy_graph::RecordGraph;

/// That each optional dependency that is switched on is resolved.
pub(crate) fn all_resolved<'a>(
    graph: &'a RecordGraph,
    set: &CargoSet<'_>,
) -> Result<(), BuiltFault<'a>>
    requires { set.now.graph ≡ graph.now }
    ensures ok { OnOk result (AreResolved set.now) }
    ensures err { IfErr result (IsLackingFault set.now) }
{
    let Some(first) = set.first_unresolved()? else {
        return Ok(());
    };
    let package = graph.package_at(first.position);
    match package.optional_deps.get_index(first.place) {
        Some(name) => Err(BuiltFault::Unresolved {
            package: &package.id,
            dependency: name.as_str(),
        }),
        None => unreachable!(),
    }
}
