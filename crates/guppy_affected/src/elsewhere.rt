//! Targets whose sources lie outside of their packages' folders.
ghost use Rattle.std.specs.Prelude.{◌≡◌, ◌↔◌, IsTrue, map, string_bytes, IfOk};
ghost use Rattle.guppy_data.specs.BuildTarget.{seen_target};
ghost use Rattle.guppy_data.specs.Component.{part_shown};
ghost use Rattle.guppy_data.specs.Utf8Path.{path_text};
ghost use Rattle.guppy.specs.TargetIterators.{targets_left};
ghost use Rattle.guppy.specs.Views.{graph_of, package_position};
ghost use Rattle.guppy_folders.specs.Folders.{lists_in};
ghost use Rattle.guppy_folders.specs.Places.{MeetsOne};
ghost use Rattle.guppy_affected.specs.Folders.{LiesElsewhere, OneElsewhere, HasTargetElsewhere};

use crate::folders::folder_of;
use guppy::graph::BuildTarget;
use guppy::{BuildTargets, Component, PackageMetadata, Utf8Path};
use guppy_folders::{folder_above, is_inside, meets_one, place_of};
use std::alloc::{AllocError, Global};

// Whether the target's source lies in a folder that isn't in the place `own`, and meets one of the others.
fn lies_elsewhere(
    target: BuildTarget<'_>,
    alloc: Global,
    root: Utf8Path<'_>,
    own: &[Component<'_>],
    places: &[Vec<Component<'_>>],
) -> Result<bool, AllocError>
    ensures { IfOk result (λ lies. IsTrue lies ↔ LiesElsewhere (path_text root.entry) (map part_shown own.now)
        (λ folder. MeetsOne folder (lists_in places.now)) (seen_target target.entry)) }
{
    let folder = folder_above(alloc, root, target.path())?;
    if is_inside(own, folder.as_slice()) {
        return Ok(false);
    }
    Ok(meets_one(folder.as_slice(), places))
}

// Whether one of the targets does.
fn has_one_elsewhere(
    targets: BuildTargets<'_>,
    alloc: Global,
    root: Utf8Path<'_>,
    own: &[Component<'_>],
    places: &[Vec<Component<'_>>],
) -> Result<bool, AllocError>
    ensures { IfOk result (λ has. IsTrue has ↔ OneElsewhere (path_text root.entry) (map part_shown own.now)
        (λ folder. MeetsOne folder (lists_in places.now)) (targets_left targets.entry)) }
{
    for target in targets {
        if lies_elsewhere(target, alloc, root, own, places)? {
            return Ok(true);
        }
    }
    Ok(false)
}

/// Whether the source of one of the package's targets lies outside of its folder, in one that holds one of the
/// places or lies in one.
pub(crate) fn has_target_elsewhere(
    metadata: PackageMetadata<'_>,
    places: &[Vec<Component<'_>>],
) -> Result<bool, AllocError>
    ensures { IfOk result (λ has. IsTrue has ↔ HasTargetElsewhere (graph_of metadata.entry).now
        (λ folder. MeetsOne folder (lists_in places.now)) (package_position metadata.entry)) }
{
    let graph = metadata.graph();
    match folder_of(metadata) {
        Some(folder) => {
            let root = graph.workspace().root();
            let own = place_of(graph.alloc(), root, folder)?;
            has_one_elsewhere(
                metadata.build_targets(),
                graph.alloc(),
                root,
                own.as_slice(),
                places,
            )
        }
        None => Ok(false),
    }
}
