ghost use Rattle.std.specs.Prelude.{◌≡◌, ◌↔◌, ℕ, ◌<◌, All, length};
ghost use Rattle.guppy_search.specs.IxSet.{IsIn, member_count};
ghost use Rattle.guppy_core.specs.Listing.{Stands, IsOnce};

use crate::metadata::PackageMetadata;
use crate::package_graph::{PackageGraph, Packages};
use crate::set::PackageSet;
use guppy_core::{DependencyDirection, IndexType, Topo};
use guppy_data::PackageId;

impl<'g> PackageSet<'g> {
    ghost use Rattle.guppy_graph.specs.FirmCycles.{HasNoFirmCycle};
    ghost use Rattle.guppy_graph.specs.Graph.{IsInOrder};
    ghost use Rattle.guppy.specs.Listed.{positions_listed, packages_listed, listed_left, ids_at, listed_ids_left, FirmWalksLeadOn};

    /// The IDs of the set's packages, listed as `packages` lists them. Takes no memory.
    pub fn package_ids(&self, direction: DependencyDirection) -> ListedPackageIds<'_, 'g>
        ensures left { listed_ids_left result
            ≡ ids_at self.now.graph.packages (positions_listed direction self.now) }
        ensures members { (p : ℕ) → Stands (positions_listed direction self.now) p
            ↔ IsIn self.now.included p }
        ensures once { IsOnce (positions_listed direction self.now) }
        ensures count { length (listed_ids_left result) ≡ member_count self.now.included }
        ensures ordered { IsInOrder self.now.graph }
        ensures leads_on { HasNoFirmCycle self.now.graph → FirmWalksLeadOn direction self.now }
    {
        ListedPackageIds {
            packages: self.packages(direction),
        }
    }

    /// The packages of the set, each once. The list of all packages, of which this one leaves out what
    /// is not in the set, belongs to the graph and never changes:
    ///
    /// - packages that depend on each other stand together, in a topological order by the links that
    ///   aren't dev-only;
    /// - of a link between packages that don't depend on each other, the dependent stands first;
    /// - where the links that aren't dev-only have no cycle but links from a package to itself, as where
    ///   `verify` answered Ok, the dependent of each other such link stands first.
    ///
    /// Reverse gives that list from its end. Takes no memory.
    pub fn packages(&self, direction: DependencyDirection) -> ListedPackages<'_, 'g>
        ensures left { listed_left result ≡ packages_listed direction self.now }
        ensures members { (p : ℕ) → Stands (positions_listed direction self.now) p
            ↔ IsIn self.now.included p }
        ensures once { IsOnce (positions_listed direction self.now) }
        ensures count { length (listed_left result) ≡ member_count self.now.included }
        ensures ordered { IsInOrder self.now.graph }
        ensures leads_on { HasNoFirmCycle self.now.graph → FirmWalksLeadOn direction self.now }
    {
        ListedPackages {
            graph: self.graph,
            rest: self.core.topo(self.graph.sccs(), direction),
        }
    }
}

/// The packages of a set that are still to come, in the order of the graph or from its end. Its
/// `len` and its `size_hint` are exact.
#[derive(Drop)]
pub struct ListedPackages<'s, 'g> {
    graph: &'g PackageGraph,
    rest: Topo<'s, Packages>,
    ghost in_graph: { All (λ p. p < length graph.now.packages) rest },
}

impl<'s, 'g> Iterator for ListedPackages<'s, 'g> {
    ghost use Rattle.std.specs.Prelude.{Some, IfSome};
    ghost use Rattle.std.specs.Iterator.{YieldsFirstBy, UpTo, item_count};
    ghost use Rattle.std.specs.Iterator.SizeHint.{IsWithinCount};
    ghost use Rattle.guppy.specs.Views.{package_data};
    ghost use Rattle.guppy.specs.Listed.{listed_left};

    type Item = PackageMetadata<'g>;

    ghost next_gives = { YieldsFirstBy package_data listed_left };

    ghost remaining = { item_count listed_left };

    fn next(&mut self) -> Option<PackageMetadata<'g>> {
        match self.rest.next() {
            Some(ix) => Some(PackageMetadata {
                graph: self.graph,
                position: ix.index(),
            }),
            None => None,
        }
    }

    fn size_hint(&self) -> (usize, Option<usize>)
        ensures lower { IsWithinCount result.0 (item_count listed_left self.now) }
        ensures upper { IfSome result.1 (UpTo (item_count listed_left self.now)) }
        ensures exact { let n = length (listed_left self.now) in result ≡ (n, Some n) }
    {
        (self.len(), Some(self.len()))
    }
}

impl ExactSizeIterator for ListedPackages<'_, '_> {
    fn len(&self) -> usize {
        self.rest.len()
    }
}

/// The IDs of a set's packages that are still to come, in the order of the graph or from its end.
/// Its `len` and its `size_hint` are exact.
#[derive(Drop)]
pub struct ListedPackageIds<'s, 'g> {
    packages: ListedPackages<'s, 'g>,
}

impl<'s, 'g> Iterator for ListedPackageIds<'s, 'g> {
    ghost use Rattle.std.specs.Prelude.{Some, IfSome};
    ghost use Rattle.std.specs.Iterator.{YieldsFirstRef, UpTo, item_count};
    ghost use Rattle.std.specs.Iterator.SizeHint.{IsWithinCount};
    ghost use Rattle.guppy.specs.Listed.{listed_ids_left};

    type Item = &'g PackageId;

    ghost next_gives = { YieldsFirstRef listed_ids_left };

    ghost remaining = { item_count listed_ids_left };

    fn next(&mut self) -> Option<&'g PackageId> {
        match self.packages.next() {
            Some(package) => Some(package.id()),
            None => None,
        }
    }

    fn size_hint(&self) -> (usize, Option<usize>)
        ensures lower { IsWithinCount result.0 (item_count listed_ids_left self.now) }
        ensures upper { IfSome result.1 (UpTo (item_count listed_ids_left self.now)) }
        ensures exact { let n = length (listed_ids_left self.now) in result ≡ (n, Some n) }
    {
        (self.len(), Some(self.len()))
    }
}

impl ExactSizeIterator for ListedPackageIds<'_, '_> {
    fn len(&self) -> usize {
        self.packages.len()
    }
}
