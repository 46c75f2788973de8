ghost use Rattle.std.specs.Prelude.{◌≡◌, ◌↔◌, ◌<◌, IsTrue, MatchOption, All, length};
ghost use Rattle.guppy_data.specs.BuildTargetId.{Library, BuildScript, recorded_id, seen_id};
ghost use Rattle.guppy_data.specs.BuildTargetKind.{ProcMacro, recorded_kind};
ghost use Rattle.std.specs.Slice.Iter.{iter_rest};
ghost use Rattle.guppy_graph.specs.Targets.{IsNamed};
ghost use Rattle.guppy.specs.BuildTargets.{IsProcMacro, HasBuildScript, IsTargetWith, NoTargetWith, IsTargetOf};

use crate::metadata::PackageMetadata;
use guppy_data::{
    BuildTarget, BuildTargetId, BuildTargetKindRecord, BuildTargetRecord, OwnedBuildTargetId,
};
use std::slice;

impl<'g> PackageMetadata<'g> {
    ghost use Rattle.guppy.specs.Views.{OfPackage};
    ghost use Rattle.guppy_graph.specs.Targets.{AreTargetsById};
    ghost use Rattle.guppy.specs.TargetIterators.{targets_left};

    /// The build target with the ID, if the package has one; it has at most one. Looks at the targets
    /// in turn.
    pub fn build_target(self, id: &BuildTargetId<'_>) -> Option<BuildTarget<'g>>
        ensures { OfPackage self.entry (λ r. IsTargetOf r (seen_id id.now) result) }
    {
        match target_with_id(self.graph.targets_of(self.position), *id) {
            Some(target) => Some(BuildTarget::new(target)),
            None => None,
        }
    }

    /// The build targets, each once, strictly ascending by ID. Takes no memory and constant time.
    pub fn build_targets(self) -> BuildTargets<'g>
        ensures { OfPackage self.entry
            (λ r. AreTargetsById r.build_targets.items (targets_left result)) }
    {
        BuildTargets {
            targets: self.graph.targets_of(self.position),
            rest: self.graph.targets_by_id(self.position).iter(),
        }
    }

    /// Whether the package has a library, and a procedural macro is made of it. Looks at the targets
    /// in turn.
    pub fn is_proc_macro(self) -> bool
        ensures { OfPackage self.entry (λ r. IsTrue result ↔ IsProcMacro r) }
    {
        self.record().build_targets.iter().any(is_macro_library)
    }

    /// Whether the package has a build script. Looks at the targets in turn.
    pub fn has_build_script(self) -> bool
        ensures { OfPackage self.entry (λ r. IsTrue result ↔ HasBuildScript r) }
    {
        self.record().build_targets.iter().any(is_build_script)
    }
}

fn is_macro_library(target: &BuildTargetRecord) -> bool
    ensures { IsTrue result ↔ ((recorded_id target.now.id ≡ Library)
        × (recorded_kind target.now.kind ≡ ProcMacro)) }
{
    matches!(target.id, OwnedBuildTargetId::Library)
        && matches!(target.kind, BuildTargetKindRecord::ProcMacro)
}

fn is_build_script(target: &BuildTargetRecord) -> bool
    ensures { IsTrue result ↔ (recorded_id target.now.id ≡ BuildScript) }
{
    matches!(target.id, OwnedBuildTargetId::BuildScript)
}

fn has_id(target: &BuildTargetRecord, id: BuildTargetId<'_>) -> bool
    ensures { IsTrue result ↔ (recorded_id target.now.id ≡ seen_id id.entry) }
{
    BuildTargetId::new(&target.id) == id
}

/// The first target with the ID.
fn target_with_id<'g>(
    targets: &'g [BuildTargetRecord],
    id: BuildTargetId<'_>,
) -> Option<&'g BuildTargetRecord>
    ensures { MatchOption result (NoTargetWith targets.now (seen_id id.entry))
        (λ t. IsTargetWith targets.now (seen_id id.entry) t.now) }
{
    for target in targets {
        if has_id(target, id) {
            return Some(target);
        }
    }
    None
}

/// The build targets of a package that are still to come. Its `len` and its `size_hint` are exact.
#[derive(Drop)]
pub struct BuildTargets<'g> {
    targets: &'g [BuildTargetRecord],
    rest: slice::Iter<'g, usize>,
    ghost in_package: { All (λ t. t < length targets.now) (iter_rest rest) },
    ghost named: { All IsNamed targets.now },
}

impl<'g> Iterator for BuildTargets<'g> {
    ghost use Rattle.std.specs.Prelude.{Some, IfSome};
    ghost use Rattle.std.specs.Iterator.{YieldsFirstBy, UpTo, item_count};
    ghost use Rattle.std.specs.Iterator.SizeHint.{IsWithinCount};
    ghost use Rattle.guppy_data.specs.BuildTarget.{seen_target};
    ghost use Rattle.guppy.specs.TargetIterators.{targets_left};

    type Item = BuildTarget<'g>;

    ghost next_gives = { YieldsFirstBy seen_target targets_left };

    ghost remaining = { item_count targets_left };

    fn next(&mut self) -> Option<BuildTarget<'g>> {
        match self.rest.next() {
            Some(place) => Some(BuildTarget::new(&self.targets[*place])),
            None => None,
        }
    }

    fn size_hint(&self) -> (usize, Option<usize>)
        ensures lower { IsWithinCount result.0 (item_count targets_left self.now) }
        ensures upper { IfSome result.1 (UpTo (item_count targets_left self.now)) }
        ensures exact { let n = length (targets_left self.now) in result ≡ (n, Some n) }
    {
        (self.len(), Some(self.len()))
    }
}

impl ExactSizeIterator for BuildTargets<'_> {
    fn len(&self) -> usize {
        self.rest.len()
    }
}
