//! The longest folders that hold some of many paths.
ghost use Rattle.std.specs.Prelude.{◌≡◌, ◌↔◌, IsTrue, [], map, string_bytes, MatchOption, IfOk};
ghost use Rattle.guppy_data.specs.Path.{components};
ghost use Rattle.guppy_data.specs.Component.{part_shown};
ghost use Rattle.guppy_data.specs.Utf8Path.{path_text};
ghost use Rattle.guppy_folders.specs.Folders.{LiesIn, lists_in, IsLongest};
ghost use Rattle.guppy_folders.specs.Touched.{IsIgnored, IsPath, IsOfSettings, IsOfWorkspace, IsOfRootsTests, IsOfRootsTargets, IsOutside, AreTouchedFolders, AreCounted};

use crate::folders::{add_folder, lies_in, longest};
use crate::names::{ends_in_name, has_name};
use guppy_data::{Component, SortedSet, Utf8Path};
use std::alloc::{AllocError, Global};

// Whether the path lies in one of the folders to leave out.
fn is_ignored(path: Utf8Path<'_>, ignored: &[String]) -> bool
    ensures { IsTrue result ↔ IsIgnored (map string_bytes ignored.now) (path_text path.entry) }
{
    for folder in ignored {
        if lies_in(path, Utf8Path::new(folder.as_str())) {
            return true;
        }
    }
    false
}

// Whether the path is the one that the text gives.
fn is_path(path: Utf8Path<'_>, text: &str) -> bool
    ensures { IsTrue result ↔ IsPath text.now (path_text path.entry) }
{
    path == Utf8Path::new(text)
}

// Whether the path chooses a toolchain, or is or lies in a folder of Cargo's settings.
fn is_of_settings(path: Utf8Path<'_>) -> bool
    ensures { IsTrue result ↔ IsOfSettings (path_text path.entry) }
{
    ends_in_name(path, "rust-toolchain")
        || ends_in_name(path, "rust-toolchain.toml")
        || has_name(path, ".cargo")
}

// Whether the path is of the workspace itself, or of settings.
fn is_of_workspace(path: Utf8Path<'_>) -> bool
    ensures { IsTrue result ↔ IsOfWorkspace (path_text path.entry) }
{
    is_path(path, "Cargo.toml") || is_path(path, "Cargo.lock") || is_of_settings(path)
}

// Whether the path is that of the folder which the text gives, or lies in it.
fn is_in(path: Utf8Path<'_>, text: &str) -> bool
    ensures { IsTrue result ↔ LiesIn text.now (path_text path.entry) }
{
    lies_in(path, Utf8Path::new(text))
}

// Whether the path is where Cargo by itself looks for the tests, examples and benchmarks of a package at the
// workspace's root.
fn is_of_roots_tests(path: Utf8Path<'_>) -> bool
    ensures { IsTrue result ↔ IsOfRootsTests (path_text path.entry) }
{
    is_in(path, "tests") || is_in(path, "examples") || is_in(path, "benches")
}

// Whether the path is where Cargo by itself looks for the targets of a package at the workspace's root.
fn is_of_roots_targets(path: Utf8Path<'_>) -> bool
    ensures { IsTrue result ↔ IsOfRootsTargets (path_text path.entry) }
{
    is_path(path, "build.rs") || is_in(path, "src") || is_of_roots_tests(path)
}

// Whether the folder is the workspace's own, and the path not one of its package's targets.
fn is_roots_alone(path: Utf8Path<'_>, folder: &Vec<Component<'_>>) -> bool
    ensures { IsTrue result ↔ (map part_shown folder.now.items ≡ []) × (¬ IsOfRootsTargets (path_text path.entry)) }
{
    folder.is_empty() && !is_of_roots_targets(path)
}

// The longest of the folders that holds the path, or `None` where the path is outside of them.
fn folder_inside<'a>(
    alloc: Global,
    folders: &SortedSet<Vec<Component<'a>>>,
    path: Utf8Path<'a>,
) -> Result<Option<Vec<Component<'a>>>, AllocError>
    ensures { IfOk result (λ found. MatchOption found
        (IsOutside (lists_in folders.now) (path_text path.entry))
        (λ folder. (¬ IsOutside (lists_in folders.now) (path_text path.entry))
        × IsLongest (lists_in folders.now) (components (path_text path.entry)) (map part_shown folder.items))) }
{
    if is_of_workspace(path) {
        return Ok(None);
    }
    let Some(folder) = longest(alloc, folders, path)? else {
        return Ok(None);
    };
    if is_roots_alone(path, &folder) {
        return Ok(None);
    }
    Ok(Some(folder))
}

/// The longest folders that hold the paths that don't lie in `ignored`, or `None` where one of these is of
/// the workspace itself, or in none of the folders, or in the workspace's own alone and not where Cargo looks for targets;
/// or that memory ran out.
///
/// Takes memory for the components of each path. A path is compared with each of `ignored`, and each folder that it lies
/// in with as many of `folders` as the logarithm of their number.
pub fn touched_folders<'a>(
    alloc: Global,
    folders: &SortedSet<Vec<Component<'a>>>,
    paths: &'a [String],
    ignored: &[String],
) -> Result<Option<SortedSet<Vec<Component<'a>>>>, AllocError>
    ensures { IfOk result (AreTouchedFolders (lists_in folders.now) (map string_bytes paths.now)
        (map string_bytes ignored.now)) }
{
    let mut touched = Vec::new(alloc);
    for path in paths {
        let path = Utf8Path::new(path.as_str());
        if is_ignored(path, ignored) {
            continue;
        }
        match folder_inside(alloc, folders, path)? {
            Some(folder) => touched.push(folder)?,
            None => return Ok(None),
        }
    }
    Ok(Some(SortedSet::new(touched)))
}

/// The paths that don't lie in `ignored`, each as the list of its components; or that memory ran out.
///
/// Takes memory for the components of each path, which is compared with each of `ignored`.
pub fn counted_paths<'a>(
    alloc: Global,
    paths: &'a [String],
    ignored: &[String],
) -> Result<SortedSet<Vec<Component<'a>>>, AllocError>
    ensures { IfOk result (λ set. AreCounted (map string_bytes paths.now) (map string_bytes ignored.now)
        (lists_in set)) }
{
    let mut counted = Vec::new(alloc);
    for path in paths {
        let path = Utf8Path::new(path.as_str());
        if is_ignored(path, ignored) {
            continue;
        }
        add_folder(&mut counted, alloc, path)?;
    }
    Ok(SortedSet::new(counted))
}
