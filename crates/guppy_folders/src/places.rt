//! Where paths lead, each `.` and `..` resolved.
ghost use Rattle.std.specs.Prelude.{◌≡◌, ◌↔◌, IsTrue, ◌++◌, ◌∷◌, [], map, reverse, IfOk};
ghost use Rattle.guppy_data.specs.Path.{Parent, components};
ghost use Rattle.guppy_data.specs.Component.{part_shown};
ghost use Rattle.guppy_data.specs.Utf8Path.{path_text};
ghost use Rattle.guppy_folders.specs.Folders.{lists_in, IsInside};
ghost use Rattle.guppy_folders.specs.Places.{up, stepped, walked, resolved, place, place_above, Meets, MeetsOne};

use crate::folders::parts_of;
use crate::names::all_names;
use guppy_data::{Component, SortedSet, Utf8Path};
use std::alloc::{AllocError, Global};

// Goes up from the place, as `..` behind it does.
fn go_up(place: &mut Vec<Component<'_>>) -> Result<(), AllocError>
    ensures { IfOk result (λ _. reverse (map part_shown place.new.items) ≡ up (reverse (map part_shown place.old.items))) }
{
    match place.pop() {
        Some(Component::Normal(_)) => {}
        Some(Component::RootDir) => place.push(Component::RootDir)?,
        Some(Component::ParentDir) => {
            place.push(Component::ParentDir)?;
            place.push(Component::ParentDir)?;
        }
        Some(Component::CurDir) => place.push(Component::ParentDir)?,
        None => place.push(Component::ParentDir)?,
    }
    Ok(())
}

// Goes one component on from the place.
fn step<'a>(place: &mut Vec<Component<'a>>, part: Component<'a>) -> Result<(), AllocError>
    ensures { IfOk result (λ _. reverse (map part_shown place.new.items)
        ≡ stepped (reverse (map part_shown place.old.items)) (part_shown part.entry)) }
{
    match part {
        Component::RootDir => {
            place.clear();
            place.push(part)?;
        }
        Component::CurDir => {}
        Component::ParentDir => go_up(place)?,
        Component::Normal(_) => place.push(part)?,
    }
    Ok(())
}

// Goes on from the place, component by component.
fn walk<'a>(place: &mut Vec<Component<'a>>, parts: &[Component<'a>]) -> Result<(), AllocError>
    ensures { IfOk result (λ _. reverse (map part_shown place.new.items)
        ≡ walked (reverse (map part_shown place.old.items)) (map part_shown parts.now)) }
{
    for part in parts {
        step(place, *part)?;
    }
    Ok(())
}

// The place that the components lead to, those of the root first.
fn resolve<'a>(
    alloc: Global,
    root: &[Component<'a>],
    parts: &[Component<'a>],
) -> Result<Vec<Component<'a>>, AllocError>
    ensures { IfOk result (λ place. map part_shown place.items
        ≡ resolved (map part_shown root.now ++ map part_shown parts.now)) }
{
    let mut place = Vec::new(alloc);
    walk(&mut place, root)?;
    walk(&mut place, parts)?;
    Ok(place)
}

/// The place that the path leads to, where a relative one begins at `root`: its components, with each `.` and `..`
/// resolved as if no folder were a symbolic link; or that memory ran out.
///
/// Takes time linear in the lengths, and memory for the components.
pub fn place_of<'a>(
    alloc: Global,
    root: Utf8Path<'a>,
    path: Utf8Path<'a>,
) -> Result<Vec<Component<'a>>, AllocError>
    ensures { IfOk result (λ found. map part_shown found.items ≡ place (path_text root.entry) (path_text path.entry)) }
{
    let root = parts_of(alloc, root)?;
    let parts = parts_of(alloc, path)?;
    resolve(alloc, root.as_slice(), parts.as_slice())
}

/// The folder of the place that the path leads to, as `place_of` finds that; or that memory ran out.
///
/// Takes time linear in the lengths, and memory for the components.
pub fn folder_above<'a>(
    alloc: Global,
    root: Utf8Path<'a>,
    path: Utf8Path<'a>,
) -> Result<Vec<Component<'a>>, AllocError>
    ensures { IfOk result (λ folder. map part_shown folder.items
        ≡ place_above (path_text root.entry) (path_text path.entry)) }
{
    let root = parts_of(alloc, root)?;
    let mut parts = parts_of(alloc, path)?;
    parts.push(Component::ParentDir)?;
    resolve(alloc, root.as_slice(), parts.as_slice())
}

/// The places that paths lead to, given as the lists of their components, where relative ones begin at `root`; or that
/// memory ran out.
///
/// Takes time linear in the lengths, and memory for the components.
pub fn places_of<'a>(
    alloc: Global,
    root: Utf8Path<'a>,
    paths: &SortedSet<Vec<Component<'a>>>,
) -> Result<Vec<Vec<Component<'a>>>, AllocError>
    ensures { IfOk result (λ places. lists_in places.items
        ≡ map (λ path. resolved (components (path_text root.entry) ++ path)) (lists_in paths.now)) }
{
    let root = parts_of(alloc, root)?;
    let mut places = Vec::new(alloc);
    for path in paths.as_slice() {
        places.push(resolve(alloc, root.as_slice(), path.as_slice())?)?;
    }
    Ok(places)
}

/// Whether the folder holds the place: whether it begins the place, and names alone stand behind it.
///
/// Takes time linear in the lengths.
pub fn is_inside(folder: &[Component<'_>], place: &[Component<'_>]) -> bool
    ensures { IsTrue result ↔ IsInside (map part_shown folder.now) (map part_shown place.now) }
{
    if place.len() < folder.len() {
        return false;
    }
    let (front, rest) = place.split_at(folder.len());
    front == folder && all_names(rest)
}

// Whether one of the two places holds the other.
fn meets(folder: &[Component<'_>], place: &[Component<'_>]) -> bool
    ensures { IsTrue result ↔ Meets (map part_shown folder.now) (map part_shown place.now) }
{
    is_inside(folder, place) || is_inside(place, folder)
}

/// Whether one of the places holds the folder, or the folder one of them.
///
/// Takes time linear in the lengths of all places.
pub fn meets_one(folder: &[Component<'_>], places: &[Vec<Component<'_>>]) -> bool
    ensures { IsTrue result ↔ MeetsOne (map part_shown folder.now) (lists_in places.now) }
{
    for place in places {
        if meets(folder, place.as_slice()) {
            return true;
        }
    }
    false
}
