//! The packages whose tests are built from changed ones.
ghost use Rattle.std.specs.Prelude.{◌≡◌, ◌↔◌, ℕ, length, IfOk, IsOkUnless};
ghost use Rattle.guppy_search.specs.IxSet.{IsIn};
ghost use Rattle.guppy_affected.specs.Tested.{AreBuiltFrom, AreWithDependents, AreTestedWith};

use guppy::graph::DependencyDirection;
use guppy::positions::IxSet;
use guppy::{Error, PackageQuery, PackageSet, Packages};
use std::alloc::AllocError;

// The packages from which links that aren't dev-only lead into the set, and those of the set.
fn built_from<'g>(set: &PackageSet<'g>) -> Result<PackageSet<'g>, Error>
    ensures graph { IfOk result (λ built. built.graph ≡ set.now.graph) }
    ensures built { IfOk result (AreBuiltFrom set.now) }
    ensures error { IsOkUnless result Error.OutOfMemory }
{
    let query = set.to_package_query(DependencyDirection::Reverse)?;
    query.resolve_with_fn(|_context, link| !link.dev_only())
}

// The positions of the packages that the query starts at.
fn initial_positions(query: &PackageQuery<'_>) -> Result<IxSet<Packages>, AllocError>
    ensures count { IfOk result (λ positions. length positions ≡ length query.now.graph.packages) }
    ensures members { IfOk result (λ positions. (p : ℕ) →
        IsIn positions p ↔ IsIn query.now.initials p) }
{
    let graph = query.graph();
    let mut positions = IxSet::empty(graph.alloc(), graph.package_count())?;
    for package in query.initials().packages(DependencyDirection::Forward) {
        positions.insert(package.package_ix());
    }
    Ok(positions)
}

// The packages of the set, and those from which a link of any kind leads into it.
fn with_dependents<'g>(set: &PackageSet<'g>) -> Result<PackageSet<'g>, Error>
    ensures graph { IfOk result (λ both. both.graph ≡ set.now.graph) }
    ensures count { IfOk result (λ both. length both.included ≡ length set.now.graph.packages) }
    ensures both { IfOk result (AreWithDependents set.now) }
    ensures error { IsOkUnless result Error.OutOfMemory }
{
    let query = set.to_package_query(DependencyDirection::Reverse)?;
    let inside = initial_positions(&query)?;
    query.resolve_with_fn(|_context, link| inside.contains(link.to().package_ix()))
}

// The packages that are tested with one of the set. A package's dev-dependencies are built for its own
// tests alone, so of the links that lead from it only the first may be dev-only.
pub(crate) fn tested_with<'g>(set: &PackageSet<'g>) -> Result<PackageSet<'g>, Error>
    ensures graph { IfOk result (λ tested. tested.graph ≡ set.now.graph) }
    ensures count { IfOk result (λ tested.
        length tested.included ≡ length set.now.graph.packages) }
    ensures tested { IfOk result (AreTestedWith set.now) }
    ensures error { IsOkUnless result Error.OutOfMemory }
{
    let built = built_from(set)?;
    with_dependents(&built)
}
