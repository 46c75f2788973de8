//! Sets made of two sets.
ghost use Rattle.std.specs.Prelude.{◌≡◌, length, IfOk, IsOkUnless};
ghost use Rattle.guppy_search.specs.IxSet.{IsUnion, IsIntersection, IsDifference, IsSymmetricDifference};
ghost use Rattle.guppy_graph.specs.Ids.{ids_of};

use crate::set::PackageSet;
use guppy_data::Error;

/// The two sets are of graphs with the same packages, as
/// [`same_packages`](PackageSet::same_packages) tells. The result is of the first set's graph, and so
/// listed in its order.
///
/// Time grows with the packages, 64 to a step. Takes memory for a bit a package, and fails, with
/// `OutOfMemory`, only where there is none.
impl<'g> PackageSet<'g> {
    /// The packages that are in this set, in the other, or in both.
    pub fn union(&self, other: &PackageSet<'_>) -> Result<PackageSet<'g>, Error>
        requires same_packages { ids_of self.now.graph.packages ≡ ids_of other.now.graph.packages }
        ensures graph { IfOk result (λ set. set.graph ≡ self.now.graph) }
        ensures count { IfOk result (λ set. length set.included ≡ length self.now.graph.packages) }
        ensures members { IfOk result
            (λ set. IsUnion self.now.included other.now.included set.included) }
        ensures error { IsOkUnless result Error.OutOfMemory }
    {
        let mut core = self.core.clone()?;
        core.union_with(&other.core);
        Ok(PackageSet {
            graph: self.graph,
            core,
        })
    }

    /// The packages that are in both sets.
    pub fn intersection(&self, other: &PackageSet<'_>) -> Result<PackageSet<'g>, Error>
        requires same_packages { ids_of self.now.graph.packages ≡ ids_of other.now.graph.packages }
        ensures graph { IfOk result (λ set. set.graph ≡ self.now.graph) }
        ensures count { IfOk result (λ set. length set.included ≡ length self.now.graph.packages) }
        ensures members { IfOk result
            (λ set. IsIntersection self.now.included other.now.included set.included) }
        ensures error { IsOkUnless result Error.OutOfMemory }
    {
        let mut core = self.core.clone()?;
        core.intersect_with(&other.core);
        Ok(PackageSet {
            graph: self.graph,
            core,
        })
    }

    /// The packages that are in this set and not in the other.
    pub fn difference(&self, other: &PackageSet<'_>) -> Result<PackageSet<'g>, Error>
        requires same_packages { ids_of self.now.graph.packages ≡ ids_of other.now.graph.packages }
        ensures graph { IfOk result (λ set. set.graph ≡ self.now.graph) }
        ensures count { IfOk result (λ set. length set.included ≡ length self.now.graph.packages) }
        ensures members { IfOk result
            (λ set. IsDifference self.now.included other.now.included set.included) }
        ensures error { IsOkUnless result Error.OutOfMemory }
    {
        let core = self.core.difference(&other.core)?;
        Ok(PackageSet {
            graph: self.graph,
            core,
        })
    }

    /// The packages that are in one of the two sets and not in the other.
    pub fn symmetric_difference(&self, other: &PackageSet<'_>) -> Result<PackageSet<'g>, Error>
        requires same_packages { ids_of self.now.graph.packages ≡ ids_of other.now.graph.packages }
        ensures graph { IfOk result (λ set. set.graph ≡ self.now.graph) }
        ensures count { IfOk result (λ set. length set.included ≡ length self.now.graph.packages) }
        ensures members { IfOk result
            (λ set. IsSymmetricDifference self.now.included other.now.included set.included) }
        ensures error { IsOkUnless result Error.OutOfMemory }
    {
        let mut core = self.core.clone()?;
        core.symmetric_difference_with(&other.core);
        Ok(PackageSet {
            graph: self.graph,
            core,
        })
    }
}
