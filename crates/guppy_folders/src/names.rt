//! Components that are names.
ghost use Rattle.std.specs.Prelude.{◌≡◌, ◌↔◌, IsTrue, [], ◌∷◌, ◌++◌, map, All};
ghost use Rattle.guppy_data.specs.Path.{Part, Name, components};
ghost use Rattle.guppy_data.specs.Component.{part_shown, parts_left};
ghost use Rattle.guppy_data.specs.Utf8Path.{path_text};
ghost use Rattle.guppy_folders.specs.Folders.{IsName, EndsInNoName, HasName, EndsInName};

use guppy_data::{Component, Components, Utf8Path};

// Whether the component is a name.
fn is_name(part: Component<'_>) -> bool
    ensures { IsTrue result ↔ IsName (part_shown part.entry) }
{
    matches!(part, Component::Normal(_))
}

/// Whether the components that are left are names alone.
pub(crate) fn are_names(parts: Components<'_>) -> bool
    ensures { IsTrue result ↔ All IsName (parts_left parts.entry) }
{
    for part in parts {
        if !is_name(part) {
            return false;
        }
    }
    true
}

/// Whether the components are names alone.
pub(crate) fn all_names(parts: &[Component<'_>]) -> bool
    ensures { IsTrue result ↔ All IsName (map part_shown parts.now) }
{
    for part in parts {
        if !is_name(*part) {
            return false;
        }
    }
    true
}

/// Takes the last component, and tells whether that was a name.
pub(crate) fn pop_name(parts: &mut Vec<Component<'_>>) -> bool
    ensures name { IsTrue result → (part : Part) × IsName part
        × (map part_shown parts.old.items ≡ map part_shown parts.new.items ++ part ∷ []) }
    ensures no_name { ¬ IsTrue result → EndsInNoName (map part_shown parts.old.items) }
{
    match parts.pop() {
        Some(part) => is_name(part),
        None => false,
    }
}

// Whether the component is this name.
fn is_named(part: Component<'_>, name: &str) -> bool
    ensures { IsTrue result ↔ (part_shown part.entry ≡ Name name.now) }
{
    part == Component::Normal(name)
}

/// Whether one of the path's components is this name.
pub(crate) fn has_name(path: Utf8Path<'_>, name: &str) -> bool
    ensures { IsTrue result ↔ HasName name.now (components (path_text path.entry)) }
{
    for part in path.components() {
        if is_named(part, name) {
            return true;
        }
    }
    false
}

/// Whether the path's last component is this name.
pub(crate) fn ends_in_name(path: Utf8Path<'_>, name: &str) -> bool
    ensures { IsTrue result ↔ EndsInName name.now (components (path_text path.entry)) }
{
    let mut ends = false;
    for part in path.components() {
        ends = is_named(part, name);
    }
    ends
}
