//! The folders of the packages of this machine.
ghost use Rattle.std.specs.Prelude.{◌≡◌, IfOk};
ghost use Rattle.std.specs.Option.{option_map};
ghost use Rattle.guppy_data.specs.Utf8Path.{path_text};
ghost use Rattle.guppy.specs.Views.{graph_packages, package_position};
ghost use Rattle.guppy_folders.specs.Folders.{lists_in};
ghost use Rattle.guppy_affected.specs.Folders.{folder_at};
ghost use Rattle.guppy_affected.specs.Found.{AreFolders};

use guppy::{Component, PackageGraph, PackageMetadata, SortedSet, Utf8Path};
use guppy_folders::add_folder;
use std::alloc::AllocError;

/// The folder of the package, where it is one of this machine.
pub(crate) fn folder_of<'g>(metadata: PackageMetadata<'g>) -> Option<Utf8Path<'g>>
    ensures { option_map path_text result
        ≡ folder_at (graph_packages metadata.entry) (package_position metadata.entry) }
{
    metadata.source().local_path()
}

/// The folders of the packages of this machine, each as the list of its components.
pub(crate) fn all_folders<'g>(
    graph: &'g PackageGraph,
) -> Result<SortedSet<Vec<Component<'g>>>, AllocError>
    ensures { IfOk result (λ set. AreFolders graph.now.packages (lists_in set)) }
{
    let mut folders = Vec::new(graph.alloc());
    for package in graph.packages() {
        if let Some(folder) = folder_of(package) {
            add_folder(&mut folders, graph.alloc(), folder)?;
        }
    }
    Ok(SortedSet::new(folders))
}
