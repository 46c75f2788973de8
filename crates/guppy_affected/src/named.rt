//! The packages of which it is told that they changed.
ghost use Rattle.std.specs.Prelude.{◌≡◌, ◌↔◌, IsTrue, IfOk, IsOkUnless, map};
ghost use Rattle.guppy.specs.Query.{IsSetWhere};
ghost use Rattle.guppy.specs.Views.{graph_of, package_position};
ghost use Rattle.guppy_affected.specs.Changed.{IsAdded};
ghost use Rattle.guppy_affected.specs.Named.{HasOneOf};

use guppy::{Error, PackageGraph, PackageId, PackageMetadata, PackageSet, SortedSet};

// Whether the package's ID is one of these.
fn is_named(metadata: PackageMetadata<'_>, ids: &SortedSet<&PackageId>) -> bool
    ensures { IsTrue result ↔ HasOneOf (graph_of metadata.entry).now.packages (map (λ id. id.now) ids.now)
        (package_position metadata.entry) }
{
    ids.contains(&metadata.id())
}

// Adds the package to the set, where its ID is one of these.
fn add_if_named<'g>(
    set: &mut PackageSet<'g>,
    ids: &SortedSet<&PackageId>,
    metadata: PackageMetadata<'g>,
) -> Result<(), Error>
    requires same_graph { set.old.graph ≡ (graph_of metadata).now }
    ensures graph { IfOk result (λ _. set.new.graph ≡ set.old.graph) }
    ensures added { IfOk result (λ _. IsAdded (graph_of metadata.entry).now
        (HasOneOf (graph_of metadata.entry).now.packages (map (λ id. id.now) ids.now))
        (package_position metadata.entry) set.old.included set.new.included) }
    ensures error { IsOkUnless result Error.OutOfMemory }
{
    if is_named(metadata, ids) {
        *set = set.union(&metadata.to_package_set()?)?;
    }
    Ok(())
}

// The packages of the graph whose IDs are among these.
fn packages_among<'g>(
    graph: &'g PackageGraph,
    ids: &SortedSet<&PackageId>,
) -> Result<PackageSet<'g>, Error>
    ensures graph { IfOk result (λ set. set.graph ≡ graph.now) }
    ensures members { IfOk result (λ set. IsSetWhere graph.now.packages
        (HasOneOf graph.now.packages (map (λ id. id.now) ids.now)) set.included) }
    ensures error { IsOkUnless result Error.OutOfMemory }
{
    let mut all = graph.resolve_none()?;
    for package in graph.packages() {
        add_if_named(&mut all, ids, package)?;
    }
    Ok(all)
}

/// The packages of the graph with one of these IDs.
pub(crate) fn packages_named<'g>(
    graph: &'g PackageGraph,
    ids: &[&PackageId],
) -> Result<PackageSet<'g>, Error>
    ensures graph { IfOk result (λ set. set.graph ≡ graph.now) }
    ensures members { IfOk result (λ set. IsSetWhere graph.now.packages
        (HasOneOf graph.now.packages (map (λ id. id.now) ids.now)) set.included) }
    ensures error { IsOkUnless result Error.OutOfMemory }
{
    let ids = SortedSet::new(ids.to_vec(graph.alloc())?);
    packages_among(graph, &ids)
}
