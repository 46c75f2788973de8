//! The members of a workspace to test after files changed, above `guppy`'s public calls alone.
//!
//! The modules, from the bottom up:
//!
//! - `folders`: the folders of the packages of this machine; `guppy_folders` tells which of them holds a path;
//! - `elsewhere`: targets whose sources lie outside of their packages' folders;
//! - `given`: folders that are given to packages beside their own;
//! - `touched`: the packages that changed themselves; `named`: those of which it is told by their IDs;
//! - `tested`: the packages whose tests are built from changed ones;
//! - the crate itself: the members among these;
//! - `laws`: what folders that are given add, and packages of which it is told.
#![tactic(auto)]

ghost use Rattle.std.specs.Prelude.{◌≡◌, map, string_bytes, IfOk, IsOkUnless};
ghost use Rattle.guppy.specs.Query.{IsSetWhere};
ghost use Rattle.guppy_affected.specs.Affected.{AreAffectedIds, AreAffectedIdsAfter, IsAffectedAfter};
ghost use Rattle.guppy_affected.specs.Folders.{given_in};
ghost use Rattle.guppy_affected.specs.Tested.{AreTestedAfter};

mod elsewhere;
mod folders;
mod given;
pub mod laws;
mod named;
mod tested;
mod touched;

use crate::named::packages_named;
use crate::tested::tested_with;
use crate::touched::changed_packages;
use guppy::graph::DependencyDirection;
use guppy::{Error, PackageGraph, PackageId, PackageSet};

// The packages that are tested with those that changed.
fn tested_set<'g>(
    graph: &'g PackageGraph,
    changed: &[&PackageId],
    paths: &[String],
    ignored: &[String],
    also: &[(&str, PackageId)],
) -> Result<PackageSet<'g>, Error>
    ensures graph { IfOk result (λ set. set.graph ≡ graph.now) }
    ensures tested { IfOk result (AreTestedAfter graph.now (map (λ id. id.now) changed.now)
        (map string_bytes paths.now) (map string_bytes ignored.now) (given_in also.now)) }
    ensures error { IsOkUnless result Error.OutOfMemory }
{
    let touched = changed_packages(graph, paths, ignored, also)?;
    let named = packages_named(graph, changed)?;
    let both = touched.union(&named)?;
    tested_with(&both)
}

// The members to test.
fn affected_set<'g>(
    graph: &'g PackageGraph,
    changed: &[&PackageId],
    paths: &[String],
    ignored: &[String],
    also: &[(&str, PackageId)],
) -> Result<PackageSet<'g>, Error>
    ensures graph { IfOk result (λ set. set.graph ≡ graph.now) }
    ensures members { IfOk result (λ set. IsSetWhere graph.now.packages
        (IsAffectedAfter graph.now (map (λ id. id.now) changed.now) (map string_bytes paths.now)
        (map string_bytes ignored.now) (given_in also.now)) set.included) }
    ensures error { IsOkUnless result Error.OutOfMemory }
{
    let tested = tested_set(graph, changed, paths, ignored, also)?;
    let members = graph.resolve_workspace()?;
    tested.intersection(&members)
}

/// The IDs of the workspace's members to test when the files at `paths` changed: each once, its
/// dependencies first, as [`package_ids`](PackageSet::package_ids) lists them in reverse.
///
/// A path is relative to the workspace's root. A folder holds those that begin with its components, where
/// names alone stand behind them. A path that a folder of `ignored` holds counts for nothing.
///
/// Any other belongs to the package of this machine, a member or one that comes from a path, with the
/// longest folder that holds it: where packages have one folder, to each of these. It is a change of this
/// package, and of each whose own folder it holds, as a submodule does, which git tells as one path. It is
/// also one of each package with a target whose source lies outside of the package's folder, where the path
/// leads into the folder of that source, or holds it: from the workspace's root, with each `.` and `..`
/// resolved as if there were no symbolic links; and one of each package to which such a folder is given in
/// `also`, by the package's ID, as one with files that only its build script reads. It affects the members
/// that are tested with these: the packages themselves, and those from which a link of any kind leads to a
/// package from which links that aren't dev-only lead to one, since a package's dev-dependencies are built
/// for its own tests alone.
///
/// All members are affected by a path that no package's own folder holds, as `../x`, or only that of a
/// package at the workspace's root, but for `build.rs` and what lies in `src`, `tests`, `examples` and
/// `benches`; by the workspace's own `Cargo.toml` and `Cargo.lock`; and wherever they lie, by each
/// `rust-toolchain` and `rust-toolchain.toml`, and what is or lies in a `.cargo`.
///
/// `OutOfMemory` comes where a growth was refused, and no other error. Time grows with the packages and
/// links, times the logarithm of the packages; with each path, times the folders to leave out, and times
/// its components and the logarithm of the packages; with each package, times its folder's components and
/// the logarithm of the paths; with each target, and where its source lies outside of its package's folder,
/// times the paths; with each package, times the folders that are given, and for each of its own of these
/// times the paths; and with each package that changed, times the packages, 64 to a step. Takes memory for
/// the components of each folder and path, and some numbers a package.
pub fn affected<'g>(
    graph: &'g PackageGraph,
    paths: &[String],
    ignored: &[String],
    also: &[(&str, PackageId)],
) -> Result<Vec<&'g PackageId>, Error>
    ensures answer { IfOk result (λ ids. AreAffectedIds graph.now (map string_bytes paths.now)
        (map string_bytes ignored.now) (given_in also.now) (map (λ id. id.now) ids.items)) }
    ensures error { IsOkUnless result Error.OutOfMemory }
{
    affected_after(graph, &[], paths, ignored, also)
}

/// The IDs of the workspace's members to test when the files at `paths` changed, and the packages with the IDs of
/// `changed` did, for whatever reason: those that [`affected`] lists for the paths, and those that are tested with one of
/// these packages. In the same order, each once. An ID that no package has counts for nothing.
///
/// `OutOfMemory` comes where a growth was refused, and no other error. Takes the time and memory of [`affected`], and
/// the time for each package that a logarithm of the IDs takes; each package with one of the IDs counts there as one
/// that changed.
pub fn affected_after<'g>(
    graph: &'g PackageGraph,
    changed: &[&PackageId],
    paths: &[String],
    ignored: &[String],
    also: &[(&str, PackageId)],
) -> Result<Vec<&'g PackageId>, Error>
    ensures answer { IfOk result (λ ids. AreAffectedIdsAfter graph.now (map (λ id. id.now) changed.now)
        (map string_bytes paths.now) (map string_bytes ignored.now) (given_in also.now)
        (map (λ id. id.now) ids.items)) }
    ensures error { IsOkUnless result Error.OutOfMemory }
{
    let members = affected_set(graph, changed, paths, ignored, also)?;
    let ids = members.package_ids(DependencyDirection::Reverse);
    Ok(ids.collect(graph.alloc())?)
}
