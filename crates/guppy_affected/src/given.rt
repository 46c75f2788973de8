//! Folders that are given to packages beside their own.
ghost use Rattle.std.specs.Prelude.{◌≡◌, ◌↔◌, IsTrue, IfOk};
ghost use Rattle.guppy_data.specs.Utf8Path.{path_text};
ghost use Rattle.guppy.specs.Views.{graph_of, package_position};
ghost use Rattle.guppy_folders.specs.Folders.{lists_in};
ghost use Rattle.guppy_folders.specs.Places.{place, MeetsOne};
ghost use Rattle.guppy_affected.specs.Folders.{IsGivenTo, HasFolderGiven, given_in};

use guppy::{Component, PackageId, PackageMetadata, Utf8Path};
use guppy_folders::{meets_one, place_of};
use std::alloc::{AllocError, Global};

// Whether the folder, from the workspace's root on, holds one of the places or lies in one.
fn meets_there(
    alloc: Global,
    root: Utf8Path<'_>,
    folder: &str,
    places: &[Vec<Component<'_>>],
) -> Result<bool, AllocError>
    ensures { IfOk result (λ meets. IsTrue meets
        ↔ MeetsOne (place (path_text root.entry) folder.now) (lists_in places.now)) }
{
    let folder = place_of(alloc, root, Utf8Path::new(folder))?;
    Ok(meets_one(folder.as_slice(), places))
}

// Whether the folder is given to the package, and does.
fn is_given(
    metadata: PackageMetadata<'_>,
    folder: &str,
    id: &PackageId,
    places: &[Vec<Component<'_>>],
) -> Result<bool, AllocError>
    ensures { IfOk result (λ is. IsTrue is ↔ IsGivenTo (graph_of metadata.entry).now
        (λ folder. MeetsOne folder (lists_in places.now)) (package_position metadata.entry) (folder.now, id.now)) }
{
    if metadata.id() != id {
        return Ok(false);
    }
    let graph = metadata.graph();
    meets_there(graph.alloc(), graph.workspace().root(), folder, places)
}

/// Whether one of the folders that are given to the package holds one of the places, or lies in one.
pub(crate) fn has_folder_given(
    metadata: PackageMetadata<'_>,
    also: &[(&str, PackageId)],
    places: &[Vec<Component<'_>>],
) -> Result<bool, AllocError>
    ensures { IfOk result (λ has. IsTrue has ↔ HasFolderGiven (graph_of metadata.entry).now
        (given_in also.now) (λ folder. MeetsOne folder (lists_in places.now)) (package_position metadata.entry)) }
{
    for (folder, id) in also {
        if is_given(metadata, *folder, id, places)? {
            return Ok(true);
        }
    }
    Ok(false)
}
