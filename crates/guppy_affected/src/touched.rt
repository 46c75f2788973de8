//! The packages that changed.
ghost use Rattle.std.specs.Prelude.{◌≡◌, ◌⊎◌, ◌↔◌, IsTrue, ◌++◌, map, string_bytes, Contains, IfOk, IsOkUnless};
ghost use Rattle.guppy_data.specs.Path.{components};
ghost use Rattle.guppy_data.specs.Utf8Path.{path_text};
ghost use Rattle.guppy.specs.Query.{IsSetWhere};
ghost use Rattle.guppy.specs.Views.{graph_of, graph_packages, package_position};
ghost use Rattle.guppy_folders.specs.Folders.{lists_in, HoldsOne};
ghost use Rattle.guppy_folders.specs.Places.{resolved};
ghost use Rattle.guppy_affected.specs.Changed.{AreChanged, HasFolderIn, HasOtherFolder, IsChangedBy, IsAdded};
ghost use Rattle.guppy_affected.specs.Folders.{given_in};

use crate::elsewhere::has_target_elsewhere;
use crate::folders::{all_folders, folder_of};
use crate::given::has_folder_given;
use guppy::{
    Component, Error, PackageGraph, PackageId, PackageMetadata, PackageSet, SortedSet, Utf8Path,
};
use guppy_folders::{counted_paths, is_one_of, lies_in_one, places_of, touched_folders};
use std::alloc::{AllocError, Global};

// Whether the folder is one of these, or lies in one of the paths.
fn is_in<'a>(
    folder: Utf8Path<'a>,
    folders: &SortedSet<Vec<Component<'a>>>,
    paths: &SortedSet<Vec<Component<'a>>>,
    alloc: Global,
) -> Result<bool, AllocError>
    ensures { IfOk result (λ is. IsTrue is ↔ (Contains (lists_in folders.now) (components (path_text folder.entry))
        ⊎ HoldsOne (lists_in paths.now) (components (path_text folder.entry)))) }
{
    Ok(is_one_of(folders, alloc, folder)? || lies_in_one(paths, alloc, folder)?)
}

// Whether the package's folder is one of these, or lies in one of the paths.
fn has_folder_in<'a>(
    metadata: PackageMetadata<'a>,
    folders: &SortedSet<Vec<Component<'a>>>,
    paths: &SortedSet<Vec<Component<'a>>>,
) -> Result<bool, AllocError>
    ensures { IfOk result (λ has. IsTrue has ↔ HasFolderIn (graph_packages metadata.entry)
        (lists_in folders.now) (lists_in paths.now) (package_position metadata.entry)) }
{
    match folder_of(metadata) {
        Some(folder) => is_in(folder, folders, paths, metadata.graph().alloc()),
        None => Ok(false),
    }
}

// Whether one of the package's targets lies elsewhere, or a folder is given to it, where one of the paths leads.
fn has_other_folder(
    metadata: PackageMetadata<'_>,
    also: &[(&str, PackageId)],
    places: &[Vec<Component<'_>>],
) -> Result<bool, AllocError>
    ensures { IfOk result (λ has. IsTrue has ↔ HasOtherFolder (graph_of metadata.entry).now
        (given_in also.now) (lists_in places.now) (package_position metadata.entry)) }
{
    Ok(has_target_elsewhere(metadata, places)? || has_folder_given(metadata, also, places)?)
}

// Whether the package's folder is one of these, or lies in one of the paths, or another folder is the package's, too,
// where one of the paths leads.
fn is_changed<'a>(
    metadata: PackageMetadata<'a>,
    also: &[(&str, PackageId)],
    folders: &SortedSet<Vec<Component<'a>>>,
    paths: &SortedSet<Vec<Component<'a>>>,
    places: &[Vec<Component<'_>>],
) -> Result<bool, AllocError>
    ensures { IfOk result (λ is. IsTrue is ↔ IsChangedBy (graph_of metadata.entry).now
        (given_in also.now) (lists_in folders.now) (lists_in paths.now) (lists_in places.now)
        (package_position metadata.entry)) }
{
    Ok(has_folder_in(metadata, folders, paths)? || has_other_folder(metadata, also, places)?)
}

// Adds the package to the set, where it changed.
fn add_if_changed<'g>(
    set: &mut PackageSet<'g>,
    also: &[(&str, PackageId)],
    folders: &SortedSet<Vec<Component<'_>>>,
    paths: &SortedSet<Vec<Component<'_>>>,
    places: &[Vec<Component<'_>>],
    metadata: PackageMetadata<'g>,
) -> Result<(), Error>
    requires same_graph { set.old.graph ≡ (graph_of metadata).now }
    ensures graph { IfOk result (λ _. set.new.graph ≡ set.old.graph) }
    ensures added { IfOk result (λ _. IsAdded (graph_of metadata.entry).now (IsChangedBy (graph_of metadata.entry).now
        (given_in also.now) (lists_in folders.now) (lists_in paths.now) (lists_in places.now))
        (package_position metadata.entry) set.old.included set.new.included) }
    ensures error { IsOkUnless result Error.OutOfMemory }
{
    if is_changed(metadata, also, &*folders, &*paths, places)? {
        *set = set.union(&metadata.to_package_set()?)?;
    }
    Ok(())
}

// The packages that changed.
fn packages_changed<'g>(
    graph: &'g PackageGraph,
    also: &[(&str, PackageId)],
    folders: &SortedSet<Vec<Component<'_>>>,
    paths: &SortedSet<Vec<Component<'_>>>,
    places: &[Vec<Component<'_>>],
) -> Result<PackageSet<'g>, Error>
    ensures graph { IfOk result (λ set. set.graph ≡ graph.now) }
    ensures members { IfOk result (λ set. IsSetWhere graph.now.packages
        (IsChangedBy graph.now (given_in also.now) (lists_in folders.now) (lists_in paths.now)
        (lists_in places.now)) set.included) }
    ensures error { IsOkUnless result Error.OutOfMemory }
{
    let mut all = graph.resolve_none()?;
    for package in graph.packages() {
        add_if_changed(&mut all, also, folders, paths, places, package)?;
    }
    Ok(all)
}

// The places that the paths lead to, from the workspace's root.
fn found_places<'a>(
    graph: &'a PackageGraph,
    paths: &SortedSet<Vec<Component<'a>>>,
) -> Result<Vec<Vec<Component<'a>>>, AllocError>
    ensures { IfOk result (λ places. lists_in places.items
        ≡ map (λ path. resolved (components graph.now.workspace.root ++ path)) (lists_in paths.now)) }
{
    places_of(graph.alloc(), graph.workspace().root(), paths)
}

// The packages that changes of the files at the paths touch: all members where one of the paths is
// everyone's, and else the packages that the paths belong to, those whose folders lie in them, and those with
// targets elsewhere, or folders that are given to them, where the paths lead.
pub(crate) fn changed_packages<'g>(
    graph: &'g PackageGraph,
    paths: &[String],
    ignored: &[String],
    also: &[(&str, PackageId)],
) -> Result<PackageSet<'g>, Error>
    ensures graph { IfOk result (λ set. set.graph ≡ graph.now) }
    ensures changed { IfOk result (λ set. AreChanged graph.now
        (map string_bytes paths.now) (map string_bytes ignored.now) (given_in also.now) set.included) }
    ensures error { IsOkUnless result Error.OutOfMemory }
{
    let folders = all_folders(graph)?;
    match touched_folders(graph.alloc(), &folders, paths, ignored)? {
        Some(touched) => {
            let counted = counted_paths(graph.alloc(), paths, ignored)?;
            let places = found_places(graph, &counted)?;
            packages_changed(graph, also, &touched, &counted, places.as_slice())
        }
        None => graph.resolve_workspace(),
    }
}
