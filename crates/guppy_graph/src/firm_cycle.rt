//! Cycles of packages over links that aren't dev-only.
ghost use Rattle.std.specs.Prelude.{◌≡◌, ◌↔◌, ◌<◌, length, map, All, IsTrue, IfOk, MatchOption};
ghost use Rattle.std.specs.List.{AllZip};
ghost use Rattle.guppy_core.specs.Cycle.{IsCycle};
ghost use Rattle.guppy_graph.specs.FirmCycles.{IsFirmCycle, HasNoFirmCycle};
ghost use Rattle.guppy_graph.specs.Graph.{IsPackageGraph};
ghost use Rattle.guppy_graph.specs.Ids.{HasId, IsKnown, ix_position};
ghost use Rattle.guppy_graph.specs.Ordered.{FirmStep};

use crate::dev_only::is_dev_only;
use crate::graph::{Packages, RecordGraph};
use guppy_core::{CountedGraph, IndexType, IxSet, PackageIx, find_cycle};
use guppy_data::{LinkRecord, PackageId};
use std::alloc::AllocError;

impl RecordGraph {
    /// Whether the packages with these IDs are two or more, each once, each with a link that isn't
    /// dev-only to the next, and the last one with such a link to the first. Where an ID is no package's,
    /// they are not.
    ///
    /// Time grows with the IDs, times the logarithm of the packages, and with the links that leave their
    /// packages. Takes memory for a number an ID and a bit a package.
    pub fn is_cycle_witness(&self, ids: &[PackageId]) -> Result<bool, AllocError>
        ensures { IfOk result (λ witness. IsTrue witness ↔ IsFirmCycle self.now ids.now) }
    {
        match self.ixs_of(ids)? {
            Some(ixs) => self.is_firm_cycle(ixs.as_slice()),
            None => Ok(false),
        }
    }

    /// The IDs of packages that are a cycle over links that aren't dev-only, if there is one.
    ///
    /// Time grows with packages and links. Takes memory for some numbers a package.
    pub(crate) fn firm_cycle(&self) -> Result<Option<Vec<PackageId>>, AllocError>
        ensures { IfOk result (λ found. MatchOption found (HasNoFirmCycle self.now)
            (λ ids. IsFirmCycle self.now ids.items)) }
    {
        let mut counted = CountedGraph::new(self.dep_graph());
        match find_cycle(&mut counted, |link: &LinkRecord| !is_dev_only(link))? {
            Some(ixs) => Ok(Some(self.ids_at(ixs.as_slice())?)),
            None => Ok(None),
        }
    }

    // The IDs of the packages at the positions.
    fn ids_at(&self, ixs: &[PackageIx]) -> Result<Vec<PackageId>, AllocError>
        requires { All (λ ix. ix_position ix < length self.now.packages) ixs.now }
        ensures { IfOk result
            (λ ids. AllZip (HasId self.now.packages) ids.items (map ix_position ixs.now)) }
    {
        let mut ids = Vec::new(self.alloc());
        for ix in ixs {
            ids.push(self.package_at(ix.index()).id.clone()?)?;
        }
        Ok(ids)
    }

    // The positions of the packages with the IDs, where each is a package's.
    fn ixs_of(&self, ids: &[PackageId]) -> Result<Option<Vec<PackageIx>>, AllocError>
        ensures found { IfOk result
            (λ found. MatchOption found (¬ All (IsKnown self.now.packages) ids.now)
            (λ ixs. AllZip (HasId self.now.packages) ids.now (map ix_position ixs.items))) }
        ensures graph { IsPackageGraph self.now }
    {
        let mut ixs = Vec::new(self.dep_graph().alloc());
        for id in ids {
            match self.find_ix(id) {
                Some(ix) => ixs.push(ix)?,
                None => return Ok(None),
            }
        }
        Ok(Some(ixs))
    }

    // Whether a link that isn't dev-only leads from one position to the other.
    fn has_firm_link(&self, from: PackageIx, to: PackageIx) -> bool
        requires { ix_position from < length self.now.packages }
        ensures { IsTrue result ↔ FirmStep self.now.links (ix_position from) (ix_position to) }
    {
        match self.dep_graph().find_link(from, to) {
            Some(number) => !is_dev_only(self.link_at(number).edge),
            None => false,
        }
    }

    // Whether the positions are a cycle over links that aren't dev-only.
    fn is_firm_cycle(&self, ixs: &[PackageIx]) -> Result<bool, AllocError>
        requires { All (λ ix. ix_position ix < length self.now.packages) ixs.now }
        ensures { IfOk result (λ is. IsTrue is
            ↔ IsCycle (FirmStep self.now.links) (map ix_position ixs.now)) }
    {
        let mut seen = IxSet::<Packages>::empty(self.alloc(), self.package_count())?;
        let mut before = match ixs.last() {
            Some(last) => *last,
            None => return Ok(false),
        };
        for ix in ixs {
            if !seen.insert(*ix) || !self.has_firm_link(before, *ix) {
                return Ok(false);
            }
            before = *ix;
        }
        Ok(ixs.len() > 1)
    }
}
