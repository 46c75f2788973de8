//! The check that a graph is a verified graph, with no cycle over links that aren't dev-only.
ghost use Rattle.std.specs.Prelude.{◌≡◌, ◌↔◌, ◌<◌, length, not, All, IsTrue, IsNone, IfSome, OnOk, IfErr, IsSomeAnd, MatchOption, slice_get};
ghost use Rattle.guppy_data.specs.declared.texts.fault.VerifyFault.{VerifyFault};
ghost use Rattle.guppy_graph.specs.DevOnly.{is_absent};
ghost use Rattle.guppy_graph.specs.FirmCycles.{HasNoFirmCycle};
ghost use Rattle.guppy_graph.specs.First.{IsFirstWithout};
ghost use Rattle.guppy_graph.specs.Verified.{Accepts, HasSection, HasFittingKind, AreKindsFittingAt, IsFirstMisfit, IsVerified, IsLinkVerified, IsLinkFault, IsLeavingLinkFault, IsPackageVerified, IsPackageFault, IsFirstVerifyFault, IsVerifyFault, TellsVerifyFault};
ghost use Rattle.guppy_search.specs.Links.{links_at};

use crate::graph::RecordGraph;
use guppy_core::DependencyDirection;
use guppy_data::{
    BuildTargetKindRecord, BuildTargetRecord, DependencyReq, DependencyReqImpl, Error, LinkRecord,
    OwnedBuildTargetId, VerifyFault,
};
use semver::{Version, VersionReq};

impl RecordGraph {
    /// Checks that the graph is a verified graph:
    ///
    /// - the target of each link has a version that the link accepts: the requirement that is read
    ///   from `*` accepts every version, pre-releases too, and any other what `VersionReq::matches`
    ///   accepts;
    /// - some section of each link is present: normal, build or dev;
    /// - each build target is of a kind that its ID allows: a library is `LibraryOrExample` or
    ///   `ProcMacro`, an example is `LibraryOrExample`, and any other is `Binary`;
    ///
    /// and that no cycle of packages is over links that aren't dev-only: of two or more packages, each
    /// with such a link to the next, and the last one to the first. A link from a package to itself makes
    /// no cycle.
    ///
    /// Otherwise `PackageGraphInternalError` tells the first fault: packages are looked at by position,
    /// in each its build targets ascending by ID, and then the links that leave it, ascending by number,
    /// the version of each before its sections. Where there is none of these, it tells a cycle.
    /// `OutOfMemory` comes where a growth was refused.
    ///
    /// Time grows with build targets, links, and the comparators of their requirements. Takes memory for
    /// some numbers a package.
    pub fn verify(&self) -> Result<(), Error>
        ensures verified { OnOk result (IsVerified self.now × HasNoFirmCycle self.now) }
        ensures fault { IfErr result (TellsVerifyFault (IsVerifyFault self.now)) }
        ensures answered { IsVerified self.now → HasNoFirmCycle self.now
            → IfErr result (λ e. e ≡ Error.OutOfMemory) }
    {
        if let Some(fault) = self.first_fault() {
            return Err(fault.into());
        }
        match self.firm_cycle()? {
            Some(ids) => Err(VerifyFault::Cycle(ids).into()),
            None => Ok(()),
        }
    }

    // The first fault of the graph, if it is no verified graph.
    fn first_fault(&self) -> Option<VerifyFault>
        ensures verified { IsNone result ↔ IsVerified self.now }
        ensures fault { IfSome result (IsFirstVerifyFault self.now) }
    {
        for position in 0..self.dep_graph().node_count() {
            if let Some(fault) = self.fault_of_package(position) {
                return Some(fault);
            }
        }
        None
    }

    // The first fault of the package at the position.
    fn fault_of_package(&self, position: usize) -> Option<VerifyFault>
        requires { position < length self.now.packages }
        ensures { MatchOption result (IsPackageVerified self.now position)
            (IsPackageFault self.now position) }
    {
        match self.misfit_of_package(position) {
            Some(target) => Some(VerifyFault::TargetKind {
                package: position,
                target,
            }),
            None => self.fault_of_links(position),
        }
    }

    // The place, among the package's build targets ascending by ID, of the first of a kind that its ID
    // doesn't allow.
    fn misfit_of_package(&self, position: usize) -> Option<usize>
        requires { position < length self.now.packages }
        ensures { MatchOption result (AreKindsFittingAt self.now position)
            (λ place. IsSomeAnd (slice_get self.now.packages position)
            (λ r. IsFirstMisfit r place)) }
    {
        first_misfit(self.targets_of(position), self.targets_by_id(position))
    }

    // The first fault of the links that leave the package at the position.
    fn fault_of_links(&self, position: usize) -> Option<VerifyFault>
        requires { position < length self.now.packages }
        ensures { MatchOption result
            (All (IsLinkVerified self.now)
            (links_at DependencyDirection.Forward self.now.links position))
            (IsLeavingLinkFault self.now position) }
    {
        let ix = self.ix_at(position);
        for number in self.dep_graph().links_of(ix, DependencyDirection::Forward) {
            if let Some(fault) = self.fault_of_link(*number) {
                return Some(fault);
            }
        }
        None
    }

    // The first fault of the link with the number.
    fn fault_of_link(&self, number: usize) -> Option<VerifyFault>
        requires { number < length self.now.links }
        ensures { MatchOption result (IsLinkVerified self.now number)
            (IsLinkFault self.now number) }
    {
        let link = self.link_at(number);
        if !accepts(&link.edge.version_req, &self.package_at(link.to).version) {
            return Some(VerifyFault::Version { link: number });
        }
        if !has_section(link.edge) {
            return Some(VerifyFault::NoSection { link: number });
        }
        None
    }
}

// Whether the requirement is the one read from `*`, which has no comparator, or matches the version.
fn accepts(req: &VersionReq, version: &Version) -> bool
    ensures { IsTrue result ↔ Accepts req.now version.now }
{
    req.comparators.is_empty() || req.matches(version)
}

fn is_present(section: &DependencyReqImpl) -> bool
    ensures { result ≡ not (is_absent section.now) }
{
    DependencyReq::new(section).is_present()
}

fn has_section(link: &LinkRecord) -> bool
    ensures { IsTrue result ↔ HasSection link.now }
{
    is_present(&link.normal) || is_present(&link.build) || is_present(&link.dev)
}

fn has_fitting_kind(target: &BuildTargetRecord) -> bool
    ensures { IsTrue result ↔ HasFittingKind target.now }
{
    match target.id {
        OwnedBuildTargetId::Library => matches!(
            target.kind,
            BuildTargetKindRecord::LibraryOrExample(_) | BuildTargetKindRecord::ProcMacro
        ),
        OwnedBuildTargetId::Example(_) => {
            matches!(target.kind, BuildTargetKindRecord::LibraryOrExample(_))
        }
        OwnedBuildTargetId::BuildScript
        | OwnedBuildTargetId::Binary(_)
        | OwnedBuildTargetId::Test(_)
        | OwnedBuildTargetId::Benchmark(_) => {
            matches!(target.kind, BuildTargetKindRecord::Binary)
        }
    }
}

// Where in the list of places stands that of the first target of a kind that its ID doesn't allow.
fn first_misfit(targets: &[BuildTargetRecord], places: &[usize]) -> Option<usize>
    requires { All (λ p. p < length targets.now) places.now }
    ensures { MatchOption result
        (All (λ p. IsSomeAnd (slice_get targets.now p) HasFittingKind) places.now)
        (IsFirstWithout (λ p. IsSomeAnd (slice_get targets.now p) HasFittingKind) places.now) }
{
    for (place, position) in places.iter().enumerate() {
        if !has_fitting_kind(&targets[*position]) {
            return Some(place);
        }
    }
    None
}
