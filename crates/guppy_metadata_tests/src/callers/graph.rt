ghost use Rattle.std.specs.Prelude.{◌≡◌, ◌↔◌, ℕ, IfOk, IsOkUnless};
ghost use Rattle.guppy.specs.IxSet.{IsIn};
ghost use Rattle.guppy.specs.Members.{IsMember};
ghost use Rattle.guppy.specs.Reach.{LinkStep, ReachedFrom};
ghost use Rattle.guppy.specs.SearchTypes.ix.direction.DependencyDirection.TheVariants.{Forward};

use guppy::{Error, PackageGraph, PackageSet};

/// The packages to vendor: those from outside the workspace that a member needs, directly or through
/// other packages, also for its build or its tests.
pub fn packages_to_vendor(graph: &PackageGraph) -> Result<PackageSet<'_>, Error>
    ensures graph { IfOk result (λ set. set.graph ≡ graph.now) }
    ensures needed { IfOk result (λ set. (p : ℕ) → IsIn set.included p
        ↔ (ReachedFrom (LinkStep Forward graph.now.links) (IsMember graph.now.packages) p
        × (¬ IsMember graph.now.packages p))) }
    ensures error { IsOkUnless result Error.OutOfMemory }
{
    let query = graph.query_workspace()?;
    let needed = query.resolve()?;
    let members = graph.resolve_workspace()?;
    let outside = needed.difference(&members)?;
    Ok(outside)
}
