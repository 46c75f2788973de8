//! The calls of a graph and a package that answer the set of exactly the named packages.
ghost use Rattle.std.specs.Prelude.{◌≡◌, ◌↔◌, ℕ, ◌<◌, true, false, replicate, length, All, IsTrue, IfOk, IfErr, IsOkUnless, map};
ghost use Rattle.std.specs.List.{Contains};
ghost use Rattle.std.specs.Iterator.{IsFinite};
ghost use Rattle.guppy_search.specs.IxSet.{IsIn};
ghost use Rattle.guppy.specs.Query.{IsSetOfIds, IsSetWhere};
ghost use Rattle.guppy_graph.specs.Ids.{ix_position};
ghost use Rattle.guppy_graph.specs.Graph.{IsPackageGraph};
ghost use Rattle.guppy.specs.PackageNames.{HasPackageName};
ghost use Rattle.guppy_graph.specs.Refused.{NamesId, EndsInUnknown};
ghost use Rattle.guppy.specs.Read.{ReadsAll, ReadsTo, text_now};

use crate::metadata::PackageMetadata;
use crate::package_graph::PackageGraph;
use crate::set::PackageSet;
use guppy_core::{IndexType, PackageIx, ResolveCore};
use guppy_data::{Error, PackageId};
use std::alloc::AllocError;
use std::iter;

impl PackageGraph {
    /// All packages of the graph.
    ///
    /// Time grows with the packages. Takes memory for a bit a package, and fails, with
    /// `OutOfMemory`, only where there is none.
    pub fn resolve_all(&self) -> Result<PackageSet<'_>, Error>
        ensures graph { IfOk result (λ set. set.graph ≡ self.now) }
        ensures all { IfOk result (λ set. set.included
            ≡ replicate (length self.now.packages) true) }
        ensures error { IsOkUnless result Error.OutOfMemory }
    {
        let core = ResolveCore::all_nodes(self.dep_graph())?;
        Ok(PackageSet { graph: self, core })
    }

    /// No package.
    ///
    /// Takes memory for a bit a package, and fails, with `OutOfMemory`, only where there is none.
    pub fn resolve_none(&self) -> Result<PackageSet<'_>, Error>
        ensures graph { IfOk result (λ set. set.graph ≡ self.now) }
        ensures none { IfOk result (λ set. set.included
            ≡ replicate (length self.now.packages) false) }
        ensures error { IsOkUnless result Error.OutOfMemory }
    {
        let core = ResolveCore::empty(self.alloc(), self.package_count())?;
        Ok(PackageSet { graph: self, core })
    }

    /// The packages with these IDs, and no other: no link is followed. Repeats count once.
    ///
    /// `UnknownPackageId` tells the first ID of the list that is no package's; the list is read no
    /// further. Time grows with the list, times the logarithm of the packages, and with the
    /// packages. Takes memory for a number an ID and a bit a package.
    pub fn resolve_ids<'a, I: Iterator<Item = &'a PackageId> + Drop>(
        &self,
        ids: I,
    ) -> Result<PackageSet<'_>, Error>
        requires can { I.can_next ids }
        requires ends { IsFinite (I.remaining ids) }
        ensures graph { IfOk result (λ set. set.graph ≡ self.now) }
        ensures members { IfOk result (λ set. ReadsAll I.next_gives text_now ids
            (λ named. IsSetOfIds self.now.packages named set.included)) }
        ensures unknown { IfErr result
            (NamesId (ReadsTo I.next_gives text_now ids (EndsInUnknown self.now.packages))) }
    {
        self.set_named(ids)
    }

    /// The packages with this name, of the workspace or not; none where no package has it.
    ///
    /// Time grows with the packages. Takes memory for a number a package with the name and a bit a
    /// package, and fails, with `OutOfMemory`, only where there is none.
    pub fn resolve_package_name(&self, name: &str) -> Result<PackageSet<'_>, Error>
        ensures graph { IfOk result (λ set. set.graph ≡ self.now) }
        ensures members { IfOk result
            (λ set. IsSetWhere self.now.packages
            (HasPackageName self.now.packages name.now) set.included) }
        ensures error { IsOkUnless result Error.OutOfMemory }
    {
        let ixs = self.ixs_with_name(name)?;
        let set = self.set_of(ixs)?;
        Ok(set)
    }

    // The positions of the packages with this name.
    fn ixs_with_name(&self, name: &str) -> Result<Vec<PackageIx>, AllocError>
        ensures { IfOk result (λ ixs. (p : ℕ) → Contains (map ix_position ixs.items) p
            ↔ HasPackageName self.now.packages name.now p) }
    {
        let mut found = Vec::new(self.alloc());
        for position in 0..self.package_count() {
            if self.is_named(position, name) {
                found.push(self.ix_at(position))?;
            }
        }
        Ok(found)
    }

    // Whether the package at the position has this name.
    fn is_named(&self, position: usize, name: &str) -> bool
        requires { position < length self.now.packages }
        ensures { IsTrue result ↔ HasPackageName self.now.packages name.now position }
    {
        self.package_at(position).name.as_str() == name
    }

    // The set of the packages at these positions.
    pub(crate) fn set_of(&self, ixs: Vec<PackageIx>) -> Result<PackageSet<'_>, Error>
        requires { All (λ p. p < length self.now.packages) (map ix_position ixs.items) }
        ensures graph { IfOk result (λ set. set.graph ≡ self.now) }
        ensures count { IfOk result (λ set. length set.included ≡ length self.now.packages) }
        ensures members { IfOk result
            (λ set. (p : ℕ) → IsIn set.included p ↔ Contains (map ix_position ixs.items) p) }
        ensures error { IsOkUnless result Error.OutOfMemory }
        ensures is_graph { IsPackageGraph self.now }
    {
        let core = ResolveCore::from_ixs(self.dep_graph(), ixs.into_iter())?;
        Ok(PackageSet { graph: self, core })
    }
}

impl<'g> PackageMetadata<'g> {
    ghost use Rattle.guppy.specs.Views.{graph_of, graph_packages, package_position};

    /// This package, and no other.
    ///
    /// Time grows with the packages. Takes memory for a bit a package, and fails, with
    /// `OutOfMemory`, only where there is none.
    pub fn to_package_set(self) -> Result<PackageSet<'g>, Error>
        ensures graph { IfOk result (λ set. set.graph ≡ (graph_of self.entry).now) }
        ensures members { IfOk result
            (λ set. IsSetWhere (graph_packages self.entry)
            (λ p. p ≡ package_position self.entry) set.included) }
        ensures error { IsOkUnless result Error.OutOfMemory }
    {
        let graph = self.graph;
        let core = ResolveCore::from_ixs(graph.dep_graph(), iter::once(self.package_ix()))?;
        Ok(PackageSet { graph, core })
    }
}
