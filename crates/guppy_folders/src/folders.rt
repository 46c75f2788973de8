//! When a folder holds a path, and the longest of several that does.
ghost use Rattle.std.specs.Prelude.{◌≡◌, ◌↔◌, IsTrue, [], ◌∷◌, ◌++◌, map, Contains, MatchOption, IfOk, OnErr};
ghost use Rattle.guppy_data.specs.Path.{components};
ghost use Rattle.guppy_data.specs.Component.{part_shown};
ghost use Rattle.guppy_data.specs.Utf8Path.{path_text};
ghost use Rattle.guppy_folders.specs.Folders.{LiesIn, lists_in, IsLongest, HoldsNone, HoldsOne};

use crate::names::{are_names, pop_name};
use guppy_data::{Component, SortedSet, Utf8Path};
use std::alloc::{AllocError, Global};

/// Whether the path is the folder or lies in it: whether the folder's components begin the path's, and names alone
/// stand behind them.
pub(crate) fn lies_in(path: Utf8Path<'_>, folder: Utf8Path<'_>) -> bool
    ensures { IsTrue result ↔ LiesIn (path_text folder.entry) (path_text path.entry) }
{
    let mut rest = path.components();
    for part in folder.components() {
        if rest.next() != Some(part) {
            return false;
        }
    }
    are_names(rest)
}

/// The components of the path.
pub(crate) fn parts_of<'a>(
    alloc: Global,
    path: Utf8Path<'a>,
) -> Result<Vec<Component<'a>>, AllocError>
    ensures { IfOk result (λ parts. map part_shown parts.items ≡ components (path_text path.entry)) }
{
    path.components().collect(alloc)
}

/// Adds the folder, as the list of its components, to such lists. Where memory runs out they stay as they were.
///
/// Takes time linear in the folder's length, and memory for its components and for one more list.
pub fn add_folder<'a>(
    folders: &mut Vec<Vec<Component<'a>>>,
    alloc: Global,
    folder: Utf8Path<'a>,
) -> Result<(), AllocError>
    ensures added { IfOk result (λ _. lists_in folders.new.items
        ≡ lists_in folders.old.items ++ components (path_text folder.entry) ∷ []) }
    ensures err { OnErr result (folders.new.items ≡ folders.old.items) }
{
    folders.push(parts_of(alloc, folder)?)?;
    Ok(())
}

/// Whether the folder is one of these, or that memory ran out.
///
/// Takes memory for the folder's components, and time linear in its length for each of as many folders as the
/// logarithm of their number.
pub fn is_one_of<'a>(
    folders: &SortedSet<Vec<Component<'a>>>,
    alloc: Global,
    folder: Utf8Path<'a>,
) -> Result<bool, AllocError>
    ensures { IfOk result (λ is. IsTrue is
        ↔ Contains (lists_in folders.now) (components (path_text folder.entry))) }
{
    let parts = parts_of(alloc, folder)?;
    Ok(folders.contains(&parts))
}

/// The longest of the folders that holds the path, or `None` where none does. The path's own folder is
/// looked up first, and then those that it lies in, from the longest on, as long as names are left out.
pub(crate) fn longest<'a>(
    alloc: Global,
    folders: &SortedSet<Vec<Component<'a>>>,
    path: Utf8Path<'a>,
) -> Result<Option<Vec<Component<'a>>>, AllocError>
    ensures { IfOk result (λ found. MatchOption found
        (HoldsNone (lists_in folders.now) (components (path_text path.entry)))
        (λ folder. IsLongest (lists_in folders.now) (components (path_text path.entry))
        (map part_shown folder.items))) }
{
    let mut folder = parts_of(alloc, path)?;
    loop {
        if folders.contains(&folder) {
            return Ok(Some(folder));
        }
        if !pop_name(&mut folder) {
            return Ok(None);
        }
    }
}

/// Whether one of the folders holds this one, or is it; or that memory ran out.
///
/// Takes memory for the folder's components, and each folder that it lies in is compared with as many of `folders` as the
/// logarithm of their number.
pub fn lies_in_one<'a>(
    folders: &SortedSet<Vec<Component<'a>>>,
    alloc: Global,
    folder: Utf8Path<'a>,
) -> Result<bool, AllocError>
    ensures { IfOk result (λ lies. IsTrue lies
        ↔ HoldsOne (lists_in folders.now) (components (path_text folder.entry))) }
{
    Ok(longest(alloc, folders, folder)?.is_some())
}
