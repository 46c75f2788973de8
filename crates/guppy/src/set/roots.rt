//! The roots of a set.
ghost use Rattle.std.specs.Prelude.{◌≡◌, ◌<◌, All, length, IfOk, IsOkUnless};
ghost use Rattle.std.specs.Vec.Iter.{into_iter_items};
ghost use Rattle.guppy_graph.specs.Ids.{ix_position};

use crate::metadata::PackageMetadata;
use crate::package_graph::PackageGraph;
use crate::set::PackageSet;
use guppy_core::{DependencyDirection, IndexType, PackageIx};
use guppy_data::{Error, PackageId};
use std::vec;

impl<'g> PackageSet<'g> {
    ghost use Rattle.guppy.specs.Rooted.{AreRootPackages, AreRootIds, roots_left, root_ids_left};

    /// The IDs of the set's roots, as `root_packages` gives them.
    pub fn root_ids(&self, direction: DependencyDirection) -> Result<RootIds<'g>, Error>
        ensures roots { IfOk result (λ roots. AreRootIds direction self.now (root_ids_left roots)) }
        ensures error { IsOkUnless result Error.OutOfMemory }
    {
        let packages = self.root_packages(direction)?;
        Ok(RootIds { packages })
    }

    /// The roots of the set, by position: its packages whose component no link inside the set enters
    /// from another component. A component is a class of packages that depend on each other, over all
    /// links of the graph; so all members of a root component that are in the set are roots, and links
    /// from a package to itself don't matter. Forward, a link enters the component of the dependency;
    /// Reverse, that of the dependent.
    ///
    /// Time grows with the packages, and the links that leave packages of the set. Takes memory for a
    /// byte a component and a number a root, and fails, with `OutOfMemory`, only where there is none.
    /// The iterator takes none.
    pub fn root_packages(&self, direction: DependencyDirection) -> Result<RootPackages<'g>, Error>
        ensures roots { IfOk result (λ roots. AreRootPackages direction self.now
            (roots_left roots)) }
        ensures error { IsOkUnless result Error.OutOfMemory }
    {
        let graph = self.graph;
        let roots = self.core.roots(graph.dep_graph(), graph.sccs(), direction)?;
        Ok(RootPackages {
            graph,
            rest: roots.into_iter(),
        })
    }
}

/// The roots of a set that are still to come, by position. Its `len` and its `size_hint` are exact.
#[derive(Drop)]
pub struct RootPackages<'g> {
    graph: &'g PackageGraph,
    rest: vec::IntoIter<PackageIx>,
    ghost in_graph: { All (λ ix. ix_position ix < length graph.now.packages)
        (into_iter_items rest) },
}

impl<'g> Iterator for RootPackages<'g> {
    ghost use Rattle.std.specs.Prelude.{Some, IfSome};
    ghost use Rattle.std.specs.Iterator.{YieldsFirstBy, UpTo, item_count};
    ghost use Rattle.std.specs.Iterator.SizeHint.{IsWithinCount};
    ghost use Rattle.guppy.specs.Views.{package_data};
    ghost use Rattle.guppy.specs.Rooted.{roots_left};

    type Item = PackageMetadata<'g>;

    ghost next_gives = { YieldsFirstBy package_data roots_left };

    ghost remaining = { item_count roots_left };

    fn next(&mut self) -> Option<PackageMetadata<'g>> {
        match self.rest.next() {
            Some(ix) => Some(PackageMetadata {
                graph: self.graph,
                position: ix.index(),
            }),
            None => None,
        }
    }

    fn size_hint(&self) -> (usize, Option<usize>)
        ensures lower { IsWithinCount result.0 (item_count roots_left self.now) }
        ensures upper { IfSome result.1 (UpTo (item_count roots_left self.now)) }
        ensures exact { let n = length (roots_left self.now) in result ≡ (n, Some n) }
    {
        (self.len(), Some(self.len()))
    }
}

impl ExactSizeIterator for RootPackages<'_> {
    fn len(&self) -> usize {
        self.rest.len()
    }
}

/// The IDs of a set's roots that are still to come, by position. Its `len` and its `size_hint` are
/// exact.
#[derive(Drop)]
pub struct RootIds<'g> {
    packages: RootPackages<'g>,
}

impl<'g> Iterator for RootIds<'g> {
    ghost use Rattle.std.specs.Prelude.{Some, IfSome};
    ghost use Rattle.std.specs.Iterator.{YieldsFirstRef, UpTo, item_count};
    ghost use Rattle.std.specs.Iterator.SizeHint.{IsWithinCount};
    ghost use Rattle.guppy.specs.Rooted.{root_ids_left};

    type Item = &'g PackageId;

    ghost next_gives = { YieldsFirstRef root_ids_left };

    ghost remaining = { item_count root_ids_left };

    fn next(&mut self) -> Option<&'g PackageId> {
        match self.packages.next() {
            Some(package) => Some(package.id()),
            None => None,
        }
    }

    fn size_hint(&self) -> (usize, Option<usize>)
        ensures lower { IsWithinCount result.0 (item_count root_ids_left self.now) }
        ensures upper { IfSome result.1 (UpTo (item_count root_ids_left self.now)) }
        ensures exact { let n = length (root_ids_left self.now) in result ≡ (n, Some n) }
    {
        (self.len(), Some(self.len()))
    }
}

impl ExactSizeIterator for RootIds<'_> {
    fn len(&self) -> usize {
        self.packages.len()
    }
}
