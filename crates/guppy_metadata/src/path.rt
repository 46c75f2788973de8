//! The folder of a package, from the workspace's root.

ghost use Rattle.std.specs.Prelude.{◌≡◌, ◌++◌, List, [], ◌∷◌, OnOk, IfOk, MatchOption, map, false, true};
ghost use Rattle.std.specs.List.{list_any};
ghost use Rattle.guppy_data.specs.Path.{Part, Parent, components};
ghost use Rattle.guppy_data.specs.Component.{part_shown};
ghost use Rattle.guppy_data.specs.Utf8Path.{path_text};
ghost use Rattle.guppy_metadata.specs.Path.{IsFolderFrom, folder_of, is_absolute, is_parent, leads, part_text, parted, way};
ghost use Rattle.guppy_metadata.specs.PathText.{IsTextOf, rest_of};

use guppy_data::{Component, Components, Utf8Path, Utf8PathBuf};
use std::alloc::{AllocError, Global};

fn is_absolute(path: Utf8Path<'_>) -> bool
    ensures { result ≡ is_absolute (components (path_text path.entry)) }
{
    path.components().next() == Some(Component::RootDir)
}

// What a path still has: the component that was taken off last, if any, and those behind it.
#[derive(Drop)]
struct Rest<'a> {
    first: Option<Component<'a>>,
    behind: Components<'a>,
}

impl<'a> Iterator for Rest<'a> {
    ghost use Rattle.std.specs.Iterator.{YieldsFirstBy, item_count};

    type Item = Component<'a>;

    ghost next_gives = { YieldsFirstBy part_shown rest_of };

    ghost remaining = { item_count rest_of };

    fn next(&mut self) -> Option<Component<'a>> {
        match self.first.take() {
            Some(first) => Some(first),
            None => self.behind.next(),
        }
    }
}

// What two paths have behind the components that they share.
fn parted<'a, 'b>(path: Utf8Path<'a>, other: Utf8Path<'b>) -> (Rest<'a>, Rest<'b>)
    ensures { (rest_of result.0, rest_of result.1)
        ≡ parted (components (path_text path.entry)) (components (path_text other.entry)) }
{
    let mut behind = path.components();
    let mut other_behind = other.components();
    loop {
        let first = behind.next();
        let other_first = other_behind.next();
        if first.is_none() || first != other_first {
            let rest = Rest { first, behind };
            let other_rest = Rest {
                first: other_first,
                behind: other_behind,
            };
            return (rest, other_rest);
        }
    }
}

fn component_text(component: Component<'_>) -> &str
    ensures { result.now ≡ part_text (part_shown component.entry) }
{
    match component {
        Component::RootDir => "/",
        Component::CurDir => ".",
        Component::ParentDir => "..",
        Component::Normal(name) => name,
    }
}

// The text of a path to which components are added.
#[derive(Drop)]
struct PathText {
    text: String,
    // whether a slash separates the next component from the text
    is_open: bool,
}

impl PathText {
    fn new(alloc: Global) -> Self
        ensures { IsTextOf [] result }
    {
        PathText {
            text: String::new(alloc),
            is_open: false,
        }
    }

    fn push(&mut self, component: Component<'_>) -> Result<(), AllocError>
        ensures { OnOk result ((parts : List Part)
            → IsTextOf parts self.old → IsTextOf (parts ++ part_shown component.entry ∷ []) self.new) }
    {
        if self.is_open {
            self.text.push_str("/")?;
        }
        self.text.push_str(component_text(component))?;
        self.is_open = !matches!(component, Component::RootDir);
        Ok(())
    }

    // Adds these components but the last.
    fn push_folder(&mut self, file: Rest<'_>) -> Result<(), AllocError>
        ensures { OnOk result ((parts : List Part) → IsTextOf parts self.old
            → IsTextOf (parts ++ folder_of (rest_of file.entry)) self.new) }
    {
        let mut waiting = None;
        for component in file {
            if let Some(earlier) = waiting {
                self.push(earlier)?;
            }
            waiting = Some(component);
        }
        Ok(())
    }
}

// The path up out of these folders, or `None` where one of them goes up itself.
fn path_up(alloc: Global, root: Rest<'_>) -> Result<Option<PathText>, AllocError>
    ensures { IfOk result (λ up. MatchOption up (list_any is_parent (rest_of root.entry) ≡ true)
        (λ path. (list_any is_parent (rest_of root.entry) ≡ false)
        × IsTextOf (map (λ _. Parent) (rest_of root.entry)) path)) }
{
    let mut path = PathText::new(alloc);
    for component in root {
        if let Component::ParentDir = component {
            return Ok(None);
        }
        path.push(Component::ParentDir)?;
    }
    Ok(Some(path))
}

// The path from the root to the folder of the file, or `None` where none leads there.
fn path_between(
    alloc: Global,
    root: Utf8Path<'_>,
    file: Utf8Path<'_>,
) -> Result<Option<PathText>, AllocError>
    ensures { let from = components (path_text root.entry) in
        let to = components (path_text file.entry) in
        IfOk result (λ found. MatchOption found (leads from to ≡ false)
        (λ path. (leads from to ≡ true) × IsTextOf (way from to) path)) }
{
    if !is_absolute(root) || !is_absolute(file) {
        return Ok(None);
    }
    let (root_rest, file_rest) = parted(root, file);
    match path_up(alloc, root_rest)? {
        Some(mut path) => {
            path.push_folder(file_rest)?;
            Ok(Some(path))
        }
        None => Ok(None),
    }
}

/// The path of the folder that the file lies in, from the folder `root`; or the folder's own path where
/// none leads from there: where the file's path or the root's is relative, or `root` goes up behind what
/// both share. Time linear in the two texts, and memory for the path alone.
pub(crate) fn folder_from(
    alloc: Global,
    file: Utf8Path<'_>,
    root: Utf8Path<'_>,
) -> Result<Utf8PathBuf, AllocError>
    ensures { IfOk result (IsFolderFrom (path_text root.entry) (path_text file.entry)) }
{
    if let Some(path) = path_between(alloc, root, file)? {
        return Ok(Utf8PathBuf::new(path.text));
    }
    let mut path = PathText::new(alloc);
    path.push_folder(Rest {
        first: None,
        behind: file.components(),
    })?;
    Ok(Utf8PathBuf::new(path.text))
}
