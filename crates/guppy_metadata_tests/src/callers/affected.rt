ghost use Rattle.std.specs.Prelude.{[], map, IfOk, IsOkUnless};
ghost use Rattle.std.specs.Str.Lines.{lines};
ghost use Rattle.guppy_affected.specs.Affected.{AreAffectedIds};

use guppy::{Error, PackageGraph, PackageId};
use guppy_affected::affected;

/// The IDs of the members to test, dependencies first. Each line of the text is the path of a file that
/// changed, from the workspace's root; of a renamed file, both paths.
pub fn members_to_test<'g>(graph: &'g PackageGraph, diff: &str) -> Result<Vec<&'g PackageId>, Error>
    ensures answer { IfOk result (λ ids. AreAffectedIds graph.now (lines diff.now) [] []
        (map (λ id. id.now) ids.items)) }
    ensures error { IsOkUnless result Error.OutOfMemory }
{
    let mut paths = Vec::new(graph.alloc());
    for line in diff.lines() {
        paths.push(String::from_str(graph.alloc(), line)?)?;
    }
    affected(graph, paths.as_slice(), &[], &[])
}
