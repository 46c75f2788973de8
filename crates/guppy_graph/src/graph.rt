ghost use Rattle.std.specs.Prelude.{◌≡◌, ◌↔◌, ◌<◌, ◌≤◌, ◌*◌, [], ◌∷◌, IsTrue, IfOk, IfErr, OnOk, IsOk, length, slice_get, Some, IsSomeAnd, MatchOption, All};
ghost use Rattle.guppy_graph.specs.Accepted.{IsAccepted};
ghost use Rattle.guppy_graph.specs.Refused.{IsRefusal, error_of};
ghost use Rattle.guppy_graph.specs.Parts.{AreParts};

use crate::build::{Indexes, indexes_and_ends};
use crate::keys::{position_of_name, position_of_path};
use crate::order::{Order, order_of};
use guppy_core::{
    DependencyDirection, Graph, GraphFault, GraphSpec, IndexType, IxSet, Link, PackageIx, Sccs,
    reachable,
};
use guppy_data::{
    BuildTargetRecord, ConstructFault, Error, LinkRecord, PackageId, PackageRecord, Utf8Path,
    WorkspaceRecord,
};
use std::alloc::Global;
use std::iter;
use std::marker::Model;

/// The types of the graph of packages: its nodes and links hold the records.
pub enum Packages {}

impl GraphSpec for Packages {
    type Node = PackageRecord;

    type Edge = LinkRecord;

    type Ix = PackageIx;
}

/// The graph of checked records that guppy's `PackageGraph` stands on. A package's position is its place
/// in the list that the graph was made of, a link's number its place in the list of links.
pub struct RecordGraph {
    graph: Graph<Packages>,
    workspace: WorkspaceRecord,
    indexes: Indexes,
    order: Order,
}

// Written out, so that where a graph is let go in another crate this is cited, and not the drop of each record proved
// again.
impl Drop for RecordGraph {
    fn drop(self) {
        let RecordGraph {
            graph: _,
            workspace: _,
            indexes: _,
            order: _,
        } = self;
    }
}

impl Model for RecordGraph {
    ghost use Rattle.guppy_graph.specs.Graph.{GraphData, IsStored};
    ghost use Rattle.guppy_data.specs.contracts.records.PackageRecord as of_package;
    ghost use Rattle.guppy_data.specs.contracts.records.LinkRecord as of_link;
    ghost use Rattle.guppy_data.specs.contracts.records.WorkspaceRecord as of_workspace;
    ghost use Rattle.std.specs.Coded.{codes};

    ghost Value = { GraphData };

    ghost coded = { Prim.hlevel
        (codes, of_package.the_row.coded, of_link.the_row.coded, of_workspace.the_row.coded) };

    ghost view = { λ g. record {
      packages = g.graph.nodes;
      links = g.graph.links;
      workspace = g.workspace;
      index = g.order.topo;
      components = g.order.sccs;
    } };

    ghost invariant = { λ g. IsStored
        (let d : GraphData = record {
          packages = g.graph.nodes;
          links = g.graph.links;
          workspace = g.workspace;
          index = g.order.topo;
          components = g.order.sccs;
        } in d) g.indexes
        g.order.looks };
}

/// The error of a fault that checked parts can still have.
fn construct_error(fault: GraphFault) -> Error
    ensures { result ≡ error_of fault }
{
    match fault {
        GraphFault::RepeatedLink(link) => ConstructFault::RepeatedLink { link }.into(),
        GraphFault::UnknownEnd(link) => ConstructFault::UnknownLinkEnd { link }.into(),
        GraphFault::TooManyNodes => ConstructFault::TooManyPackages.into(),
        GraphFault::TooManyLinks => ConstructFault::TooManyLinks.into(),
        GraphFault::OutOfMemory => Error::OutOfMemory,
    }
}

/// The graph of these records, and its indexes.
fn parts_of(
    packages: Vec<PackageRecord>,
    links: Vec<LinkRecord>,
    workspace: &WorkspaceRecord,
) -> Result<(Graph<Packages>, Indexes), Error>
    ensures made { IfOk result (λ p. AreParts packages.items links.items workspace.now p.0 p.1) }
    ensures refused { IfErr result (IsRefusal packages.items links.items workspace.now) }
{
    let alloc = *packages.allocator();
    let (indexes, ends) = indexes_and_ends(
        alloc,
        packages.as_slice(),
        links.as_slice(),
        workspace,
    )?;
    match Graph::from_ends(packages, links, ends) {
        Ok(graph) => Ok((graph, indexes)),
        Err(fault) => Err(construct_error(fault)),
    }
}

impl RecordGraph {
    ghost use Rattle.guppy_graph.specs.Ids.{HasId, IsKnown, ix_position};
    ghost use Rattle.guppy_graph.specs.Graph.{Holds, IsPackageGraph};
    ghost use Rattle.guppy_graph.specs.Ordered.{AreOrderLooks};
    ghost use Rattle.guppy_graph.specs.Indexes.{IsTargetIndex};
    ghost use Rattle.guppy_graph.specs.Keys.{DifferBelow};
    ghost use Rattle.guppy_graph.specs.Targets.{HasTarget, IsNamed};
    ghost use Rattle.guppy_graph.specs.Depends.{DependsOn, DirectlyDependsOn};
    ghost use Rattle.guppy_graph.specs.Cycles.{HaveCycle};
    ghost use Rattle.guppy_search.specs.Links.{seen_link};
    ghost use Rattle.guppy_search.specs.Reach.{LinkStep};
    ghost use Rattle.guppy_graph.specs.Refused.{IsFirstUnknown, NamesId};
    ghost use Rattle.guppy_data.specs.Utf8Path.{path_text};
    ghost use Rattle.guppy_graph.specs.Members.{HasPath, HasName, IsMemberPath, IsMemberName, AreMembersByPath, AreMembersByName};

    /// The graph of exactly these records, where they break no rule:
    ///
    /// - there are at most 4,294,967,295 packages, and no two have one ID;
    /// - in each package no two build targets have one ID, and each library and build script has its
    ///   `lib_name`;
    /// - no two workspace members have one path, as paths are equal, or one name;
    /// - each default member is a package;
    /// - there are at most 4,294,967,295 links, each end of a link is a package, and no ordered
    ///   pair of packages has two links.
    ///
    /// Otherwise `PackageGraphConstructError` tells the first broken rule, in the order of
    /// `ConstructFault`, with the lowest index that breaks it, by package and then by target: of two
    /// equal entries the later one.
    /// `OutOfMemory` comes where a growth was refused.
    ///
    /// The order of the packages is made here too, and never changes.
    ///
    /// Time grows with packages, build targets and links, times the logarithm of the packages or of
    /// a package's targets. Takes memory for some numbers a package, target and link; the records
    /// stay as and where they are.
    pub fn from_records(
        packages: Vec<PackageRecord>,
        links: Vec<LinkRecord>,
        workspace: WorkspaceRecord,
    ) -> Result<RecordGraph, Error>
        ensures holds { IfOk result (λ g. Holds g packages.items links.items workspace) }
        ensures accepted { OnOk result (IsAccepted packages.items links.items workspace) }
        ensures refused { IfErr result (IsRefusal packages.items links.items workspace) }
    {
        let (graph, indexes) = parts_of(packages, links, &workspace)?;
        let order = order_of(&graph)?;
        Ok(RecordGraph {
            graph,
            workspace,
            indexes,
            order,
        })
    }

    /// How many packages there are.
    pub fn package_count(&self) -> usize
        ensures { result ≡ length self.now.packages }
    {
        self.graph.node_count()
    }

    /// How many links there are.
    pub fn link_count(&self) -> usize
        ensures { result ≡ length self.now.links }
    {
        self.graph.link_count()
    }

    /// How many links were looked at to order the packages, each as often as it was: three times each,
    /// and once more each link that leaves a package to which links that aren't dev-only lead from a
    /// root of these, one to which no such link leads from another package.
    pub fn order_looks(&self) -> u64
        ensures looked { AreOrderLooks (length self.now.packages) self.now.links result }
        ensures least { 3 * length self.now.links ≤ result }
        ensures most { result ≤ 4 * length self.now.links }
    {
        self.order.looks
    }

    /// The allocator that the graph's memory comes from.
    pub fn alloc(&self) -> Global {
        self.graph.alloc()
    }

    /// Whether the first package depends on the second: whether a path of links, of any kind, leads
    /// from the first to the second. So a package depends on itself.
    ///
    /// `UnknownPackageId` tells the first of the two IDs that is no package's. Time grows with
    /// packages and links. Takes memory for a number and two bits a package.
    pub fn depends_on(&self, a: &PackageId, b: &PackageId) -> Result<bool, Error>
        ensures known { OnOk result (IsKnown self.now.packages a.now
            × IsKnown self.now.packages b.now) }
        ensures answer { IfOk result (λ depends. IsTrue depends ↔ DependsOn self.now a.now b.now) }
        ensures unknown { IfErr result
            (NamesId (IsFirstUnknown self.now.packages (a.now ∷ b.now ∷ []))) }
    {
        let (from, to) = self.pair_of(a, b)?;
        let initials = IxSet::from_ixs(self.alloc(), iter::once(from), self.package_count())?;
        let reached = reachable(&self.graph, &initials, DependencyDirection::Forward)?;
        Ok(reached.contains(to))
    }

    /// Whether the first package depends directly on the second: whether there is a link from the
    /// first to the second. So a package depends directly on itself only by a link to itself.
    ///
    /// `UnknownPackageId` tells the first of the two IDs that is no package's. Time grows with the
    /// logarithm of the packages, and with the links that leave the first package. Takes memory only
    /// for that error's copy of the ID.
    pub fn directly_depends_on(&self, a: &PackageId, b: &PackageId) -> Result<bool, Error>
        ensures known { OnOk result (IsKnown self.now.packages a.now
            × IsKnown self.now.packages b.now) }
        ensures answer { IfOk result
            (λ depends. IsTrue depends ↔ DirectlyDependsOn self.now a.now b.now) }
        ensures answered { IsKnown self.now.packages a.now → IsKnown self.now.packages b.now
            → IsOk result }
        ensures unknown { IfErr result
            (NamesId (IsFirstUnknown self.now.packages (a.now ∷ b.now ∷ []))) }
    {
        let (from, to) = self.pair_of(a, b)?;
        Ok(self.graph.find_link(from, to).is_some())
    }

    /// The graph by positions.
    pub fn dep_graph(&self) -> &Graph<Packages>
        ensures nodes { result.now.nodes ≡ self.now.packages }
        ensures links { result.now.links ≡ self.now.links }
        ensures graph { IsPackageGraph self.now }
    {
        &self.graph
    }

    /// Whether at least one link leads from one position to the other, and at least one back.
    pub fn have_cycle(&self, from: PackageIx, to: PackageIx) -> bool
        requires first { ix_position from < length self.now.packages }
        requires second { ix_position to < length self.now.packages }
        ensures { IsTrue result ↔ HaveCycle (LinkStep DependencyDirection.Forward self.now.links)
            (ix_position from) (ix_position to) }
    {
        if from != to {
            return self.order.sccs.is_same_scc(from, to);
        }
        self.order.sccs.in_multi_scc(from) || self.graph.find_link(from, from).is_some()
    }

    /// The components, in the order of the packages.
    pub fn sccs(&self) -> &Sccs<PackageIx>
        ensures components { result.now ≡ self.now.components }
        ensures graph { IsPackageGraph self.now }
    {
        &self.order.sccs
    }

    /// The places of the build targets of the package at the position, in the order of their IDs.
    pub fn targets_by_id(&self, position: usize) -> &[usize]
        requires { position < length self.now.packages }
        ensures { IsSomeAnd (slice_get self.now.packages position)
            (λ r. IsTargetIndex r.build_targets.items result.now) }
    {
        self.indexes.by_target[position].as_slice()
    }

    /// The build targets of the package at the position: each has its name, and no two have one ID.
    pub fn targets_of(&self, position: usize) -> &[BuildTargetRecord]
        requires { position < length self.now.packages }
        ensures targets { IsSomeAnd (slice_get self.now.packages position)
            (λ r. result.now ≡ r.build_targets.items) }
        ensures named { All IsNamed result.now }
        ensures distinct { DifferBelow (HasTarget result.now) (length result.now) }
    {
        self.graph
            .node(self.ix_at(position))
            .build_targets
            .as_slice()
    }

    /// The position of a package as its index type has it.
    pub fn ix_at(&self, position: usize) -> PackageIx
        requires { position < length self.now.packages }
        ensures { ix_position result ≡ position }
    {
        prove!(position < self.graph.node_count());
        PackageIx::new(position)
    }

    /// The record of the package at the position.
    pub fn package_at(&self, position: usize) -> &PackageRecord
        requires { position < length self.now.packages }
        ensures { slice_get self.now.packages position ≡ Some result.now }
    {
        self.graph.node(self.ix_at(position))
    }

    /// The link of the number, between positions of packages.
    pub fn link_at(&self, number: usize) -> Link<&LinkRecord>
        requires { number < length self.now.links }
        ensures at { slice_get self.now.links number ≡ Some (seen_link result) }
        ensures from { result.from < length self.now.packages }
        ensures to { result.to < length self.now.packages }
    {
        self.graph.link(number)
    }

    /// The position of the package with the ID, if there is one. Time grows with the logarithm of the
    /// packages. Takes no memory.
    pub fn find_ix(&self, id: &PackageId) -> Option<PackageIx>
        ensures found { MatchOption result (¬ IsKnown self.now.packages id.now)
            (λ ix. HasId self.now.packages id.now (ix_position ix)) }
        ensures graph { IsPackageGraph self.now }
    {
        match self.indexes.position_of_id(self.graph.nodes(), id) {
            Some(position) => Some(PackageIx::new(position)),
            None => None,
        }
    }

    /// The position of the package with the ID. Time grows with the logarithm of the packages.
    pub fn ix_of(&self, id: &PackageId) -> Result<PackageIx, Error>
        ensures found { IfOk result (λ ix. HasId self.now.packages id.now (ix_position ix)) }
        ensures known { IsKnown self.now.packages id.now → IsOk result }
        ensures unknown { IfErr result (NamesId (IsFirstUnknown self.now.packages (id.now ∷ []))) }
        ensures graph { IsPackageGraph self.now }
    {
        match self.find_ix(id) {
            Some(ix) => Ok(ix),
            None => Err(Error::UnknownPackageId(id.clone()?)),
        }
    }

    /// The positions of the packages with the two IDs. The first is looked up first.
    pub fn pair_of(&self, a: &PackageId, b: &PackageId) -> Result<(PackageIx, PackageIx), Error>
        ensures first { IfOk result (λ pair. HasId self.now.packages a.now (ix_position pair.0)) }
        ensures second { IfOk result (λ pair. HasId self.now.packages b.now (ix_position pair.1)) }
        ensures known { IsKnown self.now.packages a.now → IsKnown self.now.packages b.now
            → IsOk result }
        ensures unknown { IfErr result
            (NamesId (IsFirstUnknown self.now.packages (a.now ∷ b.now ∷ []))) }
        ensures graph { IsPackageGraph self.now }
    {
        let from = self.ix_of(a)?;
        let to = self.ix_of(b)?;
        Ok((from, to))
    }

    /// The position of the package with the ID. Time grows with the logarithm of the packages. Takes
    /// no memory.
    pub fn position_of_id(&self, id: &PackageId) -> Option<usize>
        ensures { MatchOption result (¬ IsKnown self.now.packages id.now)
            (HasId self.now.packages id.now) }
    {
        self.indexes.position_of_id(self.graph.nodes(), id)
    }

    /// The record of the workspace.
    pub fn workspace_record(&self) -> &WorkspaceRecord
        ensures record { result.now ≡ self.now.workspace }
        ensures known { All (IsKnown self.now.packages) self.now.workspace.default_members.items }
    {
        &self.workspace
    }

    /// The positions of the workspace members by path.
    pub fn members_by_path(&self) -> &[usize]
        ensures { AreMembersByPath self.now.packages result.now }
    {
        self.indexes.by_path.as_slice()
    }

    /// The positions of the workspace members by name.
    pub fn members_by_name(&self) -> &[usize]
        ensures { AreMembersByName self.now.packages result.now }
    {
        self.indexes.by_name.as_slice()
    }

    /// The position of the workspace member with the path. Time grows with the logarithm of the
    /// members. Takes no memory.
    pub fn position_of_path(&self, path: Utf8Path<'_>) -> Option<usize>
        ensures { MatchOption result (¬ IsMemberPath self.now.packages (path_text path.entry))
            (HasPath self.now.packages (path_text path.entry)) }
    {
        position_of_path(self.graph.nodes(), self.indexes.by_path.as_slice(), path)
    }

    /// The position of the workspace member with the name. Time grows with the logarithm of the
    /// members. Takes no memory.
    pub fn position_of_name(&self, name: &str) -> Option<usize>
        ensures { MatchOption result (¬ IsMemberName self.now.packages name.now)
            (HasName self.now.packages name.now) }
    {
        position_of_name(self.graph.nodes(), self.indexes.by_name.as_slice(), name)
    }
}
