ghost use Rattle.std.specs.Prelude.{◌≡◌, ◌↔◌, ◌≤◌, ◌*◌, [], ◌∷◌, IsTrue, IfOk, IfErr, OnOk, IsOk, length};
ghost use Rattle.guppy_graph.specs.Accepted.{IsAccepted};
ghost use Rattle.guppy_graph.specs.FirmCycles.{IsFirmCycle, HasNoFirmCycle};
ghost use Rattle.guppy_graph.specs.Refused.{IsRefusal};
ghost use Rattle.guppy_graph.specs.Verified.{IsVerified, IsVerifyFault, TellsVerifyFault};
ghost use Rattle.std.specs.List.Sorted.{IsPermutation};

use crate::metadata::PackageMetadata;
use guppy_core::IndexType;
use guppy_data::{Error, LinkRecord, PackageId, PackageRecord, WorkspaceRecord};
use guppy_graph::RecordGraph;
use std::alloc::Global;
use std::marker::Model;
use std::ops::Range;
use std::slice;

/// A graph of packages and the links between them. A package's position is its place in the list
/// that the graph was made of, a link's number its place in the list of links.
#[derive(Drop)]
pub struct PackageGraph {
    pub(super) records: RecordGraph,
}

impl Model for PackageGraph {
    ghost use Rattle.guppy_graph.specs.Graph.{GraphData};
    ghost use Rattle.guppy_graph.specs.contracts.graph.RecordGraph as of_graph;

    ghost Value = { GraphData };

    ghost coded = { of_graph.the_row.coded };

    ghost view = { λ g. g.records };
}

impl PackageGraph {
    ghost use Rattle.guppy.specs.Views.{graph_of, package_position};
    ghost use Rattle.guppy_graph.specs.Ids.{HasId, IsKnown, ids_of};
    ghost use Rattle.guppy_graph.specs.Graph.{Holds};
    ghost use Rattle.guppy_graph.specs.Ordered.{AreOrderLooks};
    ghost use Rattle.guppy_graph.specs.Depends.{DependsOn, DirectlyDependsOn};
    ghost use Rattle.guppy_graph.specs.Refused.{IsFirstUnknown, NamesId};
    ghost use Rattle.guppy.specs.Iterators.{ids_left, packages_of, packages_left};

    /// The graph of exactly these records, where they break no rule:
    ///
    /// - there are at most 4,294,967,295 packages, and no two have one ID;
    /// - in each package no two build targets have one ID, and each library and build script has its
    ///   `lib_name`;
    /// - no two workspace members have one path, as paths are equal, or one name;
    /// - each default member is a package;
    /// - there are at most 4,294,967,295 links, each end of a link is a package, and no ordered
    ///   pair of packages has two links.
    ///
    /// Otherwise `PackageGraphConstructError` tells the first broken rule, in the order of
    /// `ConstructFault`, with the lowest index that breaks it, by package and then by target: of two
    /// equal entries the later one.
    /// `OutOfMemory` comes where a growth was refused.
    ///
    /// The order of the packages is made here too, and never changes: `PackageSet::packages` tells
    /// what it is.
    ///
    /// Time grows with packages, build targets and links, times the logarithm of the packages or of
    /// a package's targets. Takes memory for some numbers a package, target and link; the records
    /// stay as and where they are.
    pub fn from_records(
        packages: Vec<PackageRecord>,
        links: Vec<LinkRecord>,
        workspace: WorkspaceRecord,
    ) -> Result<PackageGraph, Error>
        ensures holds { IfOk result (λ g. Holds g packages.items links.items workspace) }
        ensures accepted { OnOk result (IsAccepted packages.items links.items workspace) }
        ensures refused { IfErr result (IsRefusal packages.items links.items workspace) }
    {
        let records = RecordGraph::from_records(packages, links, workspace)?;
        Ok(PackageGraph { records })
    }

    /// How many packages there are.
    pub fn package_count(&self) -> usize
        ensures { result ≡ length self.now.packages }
    {
        self.records.package_count()
    }

    /// How many links there are.
    pub fn link_count(&self) -> usize
        ensures { result ≡ length self.now.links }
    {
        self.records.link_count()
    }

    /// How many links were looked at to order the packages, each as often as it was: three times each,
    /// and once more each link that leaves a package to which links that aren't dev-only lead from a
    /// root of these, one to which no such link leads from another package.
    pub fn order_looks(&self) -> u64
        ensures looked { AreOrderLooks (length self.now.packages) self.now.links result }
        ensures least { 3 * length self.now.links ≤ result }
        ensures most { result ≤ 4 * length self.now.links }
    {
        self.records.order_looks()
    }

    /// The allocator that the graph's memory comes from.
    pub fn alloc(&self) -> Global {
        self.records.alloc()
    }

    /// The graph by its records, for crates that stand on these.
    pub fn records(&self) -> &RecordGraph
        ensures { result.now ≡ self.now }
    {
        &self.records
    }

    /// The ID of each package, once. Their order is not promised.
    pub fn package_ids(&self) -> PackageIds<'_>
        ensures { IsPermutation (ids_of self.now.packages) (ids_left result) }
    {
        PackageIds {
            rest: self.dep_graph().nodes().iter(),
        }
    }

    /// Each package, once. Their order is not promised.
    pub fn packages(&self) -> AllPackages<'_>
        ensures { IsPermutation (packages_of self.entry) (packages_left result) }
    {
        AllPackages {
            graph: self,
            rest: 0..self.package_count(),
        }
    }

    /// The package with the ID.
    ///
    /// `UnknownPackageId` tells an ID that is no package's. Time grows with the logarithm of the
    /// packages. Takes memory only for that error's copy of the ID.
    pub fn metadata(&self, id: &PackageId) -> Result<PackageMetadata<'_>, Error>
        ensures found { IfOk result (λ m. (graph_of m ≡ self.entry)
            × HasId self.now.packages id.now (package_position m)) }
        ensures known { IsKnown self.now.packages id.now → IsOk result }
        ensures unknown { IfErr result (NamesId (IsFirstUnknown self.now.packages (id.now ∷ []))) }
    {
        let ix = self.ix_of(id)?;
        Ok(PackageMetadata {
            graph: self,
            position: ix.index(),
        })
    }

    /// Whether the first package depends on the second: whether a path of links, of any kind, leads
    /// from the first to the second. So a package depends on itself.
    ///
    /// `UnknownPackageId` tells the first of the two IDs that is no package's. Time grows with
    /// packages and links. Takes memory for a number and two bits a package.
    pub fn depends_on(&self, a: &PackageId, b: &PackageId) -> Result<bool, Error>
        ensures known { OnOk result (IsKnown self.now.packages a.now
            × IsKnown self.now.packages b.now) }
        ensures answer { IfOk result (λ depends. IsTrue depends ↔ DependsOn self.now a.now b.now) }
        ensures unknown { IfErr result
            (NamesId (IsFirstUnknown self.now.packages (a.now ∷ b.now ∷ []))) }
    {
        self.records.depends_on(a, b)
    }

    /// Whether the first package depends directly on the second: whether there is a link from the
    /// first to the second. So a package depends directly on itself only by a link to itself.
    ///
    /// `UnknownPackageId` tells the first of the two IDs that is no package's. Time grows with the
    /// logarithm of the packages, and with the links that leave the first package. Takes memory only
    /// for that error's copy of the ID.
    pub fn directly_depends_on(&self, a: &PackageId, b: &PackageId) -> Result<bool, Error>
        ensures known { OnOk result (IsKnown self.now.packages a.now
            × IsKnown self.now.packages b.now) }
        ensures answer { IfOk result
            (λ depends. IsTrue depends ↔ DirectlyDependsOn self.now a.now b.now) }
        ensures answered { IsKnown self.now.packages a.now → IsKnown self.now.packages b.now
            → IsOk result }
        ensures unknown { IfErr result
            (NamesId (IsFirstUnknown self.now.packages (a.now ∷ b.now ∷ []))) }
    {
        self.records.directly_depends_on(a, b)
    }

    /// Checks that the graph is a verified graph:
    ///
    /// - the target of each link has a version that the link accepts: the requirement that is read
    ///   from `*` accepts every version, pre-releases too, and any other what `VersionReq::matches`
    ///   accepts;
    /// - some section of each link is present: normal, build or dev;
    /// - each build target is of a kind that its ID allows: a library is `LibraryOrExample` or
    ///   `ProcMacro`, an example is `LibraryOrExample`, and any other is `Binary`;
    ///
    /// and that no cycle of packages is over links that aren't dev-only: of two or more packages, each
    /// with such a link to the next, and the last one to the first. A link from a package to itself makes
    /// no cycle.
    ///
    /// Otherwise `PackageGraphInternalError` tells the first fault: packages are looked at by position,
    /// in each its build targets ascending by ID, and then the links that leave it, ascending by number,
    /// the version of each before its sections. Where there is none of these, it tells a cycle.
    /// `OutOfMemory` comes where a growth was refused.
    ///
    /// Where the answer is Ok, each walk between different packages over links that aren't dev-only leads on
    /// in the lists of sets: `PackageSet::packages` says so.
    ///
    /// Time grows with build targets, links, and the comparators of their requirements. Takes memory for
    /// some numbers a package.
    pub fn verify(&self) -> Result<(), Error>
        ensures verified { OnOk result (IsVerified self.now × HasNoFirmCycle self.now) }
        ensures fault { IfErr result (TellsVerifyFault (IsVerifyFault self.now)) }
        ensures answered { IsVerified self.now → HasNoFirmCycle self.now
            → IfErr result (λ e. e ≡ Error.OutOfMemory) }
    {
        self.records.verify()
    }

    /// Whether the packages with these IDs are a cycle over links that aren't dev-only: two or more, each
    /// once, each with such a link to the next, and the last one to the first. Where an ID is no
    /// package's, they are not. `OutOfMemory` comes where a growth was refused.
    ///
    /// Time grows with the IDs, times the logarithm of the packages, and with the links that leave their
    /// packages. Takes memory for a number an ID and a bit a package.
    pub fn is_cycle_witness(&self, ids: &[PackageId]) -> Result<bool, Error>
        ensures answer { IfOk result (λ witness. IsTrue witness ↔ IsFirmCycle self.now ids.now) }
        ensures refused { IfErr result (λ e. e ≡ Error.OutOfMemory) }
    {
        Ok(self.records.is_cycle_witness(ids)?)
    }
}

/// The IDs of a graph's packages that are still to come. Its `len` and its `size_hint` are exact.
#[derive(Drop)]
pub struct PackageIds<'g> {
    rest: slice::Iter<'g, PackageRecord>,
}

impl<'g> Iterator for PackageIds<'g> {
    ghost use Rattle.std.specs.Prelude.{Some, IfSome};
    ghost use Rattle.std.specs.Iterator.{YieldsFirstRef, UpTo, item_count};
    ghost use Rattle.std.specs.Iterator.SizeHint.{IsWithinCount};
    ghost use Rattle.guppy.specs.Iterators.{ids_left};

    type Item = &'g PackageId;

    ghost next_gives = { YieldsFirstRef ids_left };

    ghost remaining = { item_count ids_left };

    fn next(&mut self) -> Option<&'g PackageId> {
        match self.rest.next() {
            Some(package) => Some(&package.id),
            None => None,
        }
    }

    fn size_hint(&self) -> (usize, Option<usize>)
        ensures lower { IsWithinCount result.0 (item_count ids_left self.now) }
        ensures upper { IfSome result.1 (UpTo (item_count ids_left self.now)) }
        ensures exact { let n = length (ids_left self.now) in result ≡ (n, Some n) }
    {
        (self.len(), Some(self.len()))
    }
}

impl ExactSizeIterator for PackageIds<'_> {
    fn len(&self) -> usize {
        self.rest.len()
    }
}

/// The packages of a graph that are still to come. Its `len` and its `size_hint` are exact.
#[derive(Drop)]
pub struct AllPackages<'g> {
    graph: &'g PackageGraph,
    rest: Range<usize>,
    ghost in_graph: { rest.end ≤ length graph.now.packages },
}

impl<'g> Iterator for AllPackages<'g> {
    ghost use Rattle.std.specs.Prelude.{Some, IfSome};
    ghost use Rattle.std.specs.Iterator.{YieldsFirstBy, UpTo, item_count};
    ghost use Rattle.std.specs.Iterator.SizeHint.{IsWithinCount};
    ghost use Rattle.guppy.specs.Views.{package_seen};
    ghost use Rattle.guppy.specs.Iterators.{packages_left};

    type Item = PackageMetadata<'g>;

    ghost next_gives = { YieldsFirstBy package_seen packages_left };

    ghost remaining = { item_count packages_left };

    fn next(&mut self) -> Option<PackageMetadata<'g>> {
        match self.rest.next() {
            Some(position) => Some(PackageMetadata {
                graph: self.graph,
                position,
            }),
            None => None,
        }
    }

    fn size_hint(&self) -> (usize, Option<usize>)
        ensures lower { IsWithinCount result.0 (item_count packages_left self.now) }
        ensures upper { IfSome result.1 (UpTo (item_count packages_left self.now)) }
        ensures exact { let n = length (packages_left self.now) in result ≡ (n, Some n) }
    {
        (self.len(), Some(self.len()))
    }
}

impl ExactSizeIterator for AllPackages<'_> {
    fn len(&self) -> usize {
        self.rest.len()
    }
}
