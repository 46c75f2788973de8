//! Sets of packages.
ghost use Rattle.std.specs.Prelude.{◌≡◌, ◌↔◌, ◌==◌, [], ◌∷◌, IsTrue, IfOk, IfErr, OnOk, IsOk, length};
ghost use Rattle.guppy_search.specs.IxSet.{member_count};
ghost use Rattle.guppy.specs.Query.{IncludesId};
ghost use Rattle.guppy_graph.specs.Ids.{IsKnown};
ghost use Rattle.guppy_graph.specs.Refused.{NamesId, IsFirstUnknown};

mod equal;
mod filter;
pub mod laws;
mod links;
mod lists;
mod members;
mod named;
mod operations;
mod roots;

use crate::package_graph::{PackageGraph, Packages};
use guppy_core::{IxSet, ResolveCore};
use guppy_data::{Error, PackageId};
pub use links::WalkedLinks;
pub use lists::{ListedPackageIds, ListedPackages};
pub use roots::{RootIds, RootPackages};
use std::alloc::AllocError;
use std::marker::Model;

/// A set of packages of a graph.
#[derive(Drop)]
pub struct PackageSet<'g> {
    pub(crate) graph: &'g PackageGraph,
    pub(crate) core: ResolveCore<Packages>,
}

impl<'g> Model for PackageSet<'g> {
    ghost use Rattle.std.specs.Prelude.{◌≡◌, length};
    ghost use Rattle.guppy.specs.Query.{SetData};
    ghost use Rattle.guppy_graph.specs.contracts.graph.RecordGraph as of_graph;
    ghost use Rattle.std.specs.Coded.{codes};

    ghost Value = { SetData };

    ghost coded = { Prim.hlevel (codes, of_graph.the_row.coded) };

    ghost view = { λ s. record { graph = s.graph.now; included = s.core } };

    ghost invariant = { λ s. length s.core ≡ length s.graph.now.packages };
}

impl<'g> PackageSet<'g> {
    /// How many packages are in the set.
    pub fn len(&self) -> usize
        ensures { result ≡ member_count self.now.included }
    {
        self.core.len()
    }

    /// Whether no package is in the set.
    pub fn is_empty(&self) -> bool
        ensures { result ≡ (member_count self.now.included == 0) }
    {
        self.core.is_empty()
    }

    /// Whether the package with the ID is in the set.
    ///
    /// `UnknownPackageId` tells an ID that is no package's. Time grows with the logarithm of the
    /// packages. Takes memory only for that error's copy of the ID.
    pub fn contains(&self, id: &PackageId) -> Result<bool, Error>
        ensures known { OnOk result (IsKnown self.now.graph.packages id.now) }
        ensures answer { IfOk result (λ contains. IsTrue contains ↔ IncludesId self.now id.now) }
        ensures answered { IsKnown self.now.graph.packages id.now → IsOk result }
        ensures unknown { IfErr result
            (NamesId (IsFirstUnknown self.now.graph.packages (id.now ∷ []))) }
    {
        let ix = self.graph.ix_of(id)?;
        Ok(self.core.contains(ix))
    }

    /// Whether a package with the ID is in the set; false where the graph has none.
    pub(crate) fn has_id(&self, id: &PackageId) -> bool
        ensures { IsTrue result ↔ IncludesId self.now id.now }
    {
        match self.graph.find_ix(id) {
            Some(ix) => self.core.contains(ix),
            None => false,
        }
    }

    /// The positions of the packages in the set.
    pub(crate) fn included(&self) -> &IxSet<Packages>
        ensures included { result.now ≡ self.now.included }
        ensures count { length self.now.included ≡ length self.now.graph.packages }
    {
        self.core.included()
    }
}

/// The same packages of the same graph. Takes memory for a bit a package.
impl Clone for PackageSet<'_> {
    ghost is_clone = { λ s t. t ≡ s };

    fn clone(&self) -> Result<Self, AllocError> {
        let core = self.core.clone()?;
        Ok(PackageSet {
            graph: self.graph,
            core,
        })
    }
}
