//! The calls of a graph by position, which the modules of queries, sets and views share: each is that of
//! the graph's records.
ghost use Rattle.std.specs.Prelude.{◌≡◌, ◌↔◌, ◌<◌, [], ◌∷◌, IsTrue, IfOk, IfErr, IsOk, length, slice_get, Some, IsSomeAnd, MatchOption, All};
ghost use Rattle.guppy_search.specs.Links.{seen_link};
ghost use Rattle.guppy_search.specs.Reach.{LinkStep};
ghost use Rattle.guppy_data.specs.Utf8Path.{path_text};
ghost use Rattle.guppy_graph.specs.Keys.{DifferBelow};
ghost use Rattle.guppy_graph.specs.Ids.{HasId, IsKnown, ix_position};
ghost use Rattle.guppy_graph.specs.Members.{HasPath, HasName, IsMemberPath, IsMemberName, AreMembersByPath, AreMembersByName};
ghost use Rattle.guppy_graph.specs.Targets.{HasTarget, IsNamed};
ghost use Rattle.guppy_graph.specs.Indexes.{IsTargetIndex};
ghost use Rattle.guppy_graph.specs.Graph.{IsPackageGraph};
ghost use Rattle.guppy_graph.specs.Cycles.{HaveCycle};
ghost use Rattle.guppy_graph.specs.Refused.{IsFirstUnknown, NamesId};

use crate::package_graph::graph::PackageGraph;
use guppy_core::{DependencyDirection, Graph, Link, PackageIx, Sccs};
use guppy_data::{
    BuildTargetRecord, Error, LinkRecord, PackageId, PackageRecord, Utf8Path, WorkspaceRecord,
};
use guppy_graph::Packages;

impl PackageGraph {
    ghost use Rattle.guppy.specs.Views.{workspace_record};

    /// The graph by positions.
    pub(crate) fn dep_graph(&self) -> &Graph<Packages>
        ensures nodes { result.now.nodes ≡ self.now.packages }
        ensures links { result.now.links ≡ self.now.links }
        ensures graph { IsPackageGraph self.now }
    {
        self.records.dep_graph()
    }

    /// Whether at least one link leads from one position to the other, and at least one back.
    pub(crate) fn have_cycle(&self, from: PackageIx, to: PackageIx) -> bool
        requires first { ix_position from < length self.now.packages }
        requires second { ix_position to < length self.now.packages }
        ensures { IsTrue result ↔ HaveCycle (LinkStep DependencyDirection.Forward self.now.links)
            (ix_position from) (ix_position to) }
    {
        self.records.have_cycle(from, to)
    }

    /// The components, in the order of the packages.
    pub(crate) fn sccs(&self) -> &Sccs<PackageIx>
        ensures components { result.now ≡ self.now.components }
        ensures graph { IsPackageGraph self.now }
    {
        self.records.sccs()
    }

    /// The places of the build targets of the package at the position, in the order of their IDs.
    pub(crate) fn targets_by_id(&self, position: usize) -> &[usize]
        requires { position < length self.now.packages }
        ensures { IsSomeAnd (slice_get self.now.packages position)
            (λ r. IsTargetIndex r.build_targets.items result.now) }
    {
        self.records.targets_by_id(position)
    }

    /// The build targets of the package at the position: each has its name, and no two have one ID.
    pub(crate) fn targets_of(&self, position: usize) -> &[BuildTargetRecord]
        requires { position < length self.now.packages }
        ensures targets { IsSomeAnd (slice_get self.now.packages position)
            (λ r. result.now ≡ r.build_targets.items) }
        ensures named { All IsNamed result.now }
        ensures distinct { DifferBelow (HasTarget result.now) (length result.now) }
    {
        self.records.targets_of(position)
    }

    /// The position of a package as its index type has it.
    pub(crate) fn ix_at(&self, position: usize) -> PackageIx
        requires { position < length self.now.packages }
        ensures { ix_position result ≡ position }
    {
        self.records.ix_at(position)
    }

    /// The record of the package at the position.
    pub(crate) fn package_at(&self, position: usize) -> &PackageRecord
        requires { position < length self.now.packages }
        ensures { slice_get self.now.packages position ≡ Some result.now }
    {
        self.records.package_at(position)
    }

    /// The link of the number, between positions of packages.
    pub(crate) fn link_at(&self, number: usize) -> Link<&LinkRecord>
        requires { number < length self.now.links }
        ensures at { slice_get self.now.links number ≡ Some (seen_link result) }
        ensures from { result.from < length self.now.packages }
        ensures to { result.to < length self.now.packages }
    {
        self.records.link_at(number)
    }

    /// The position of the package with the ID, if there is one. Time grows with the logarithm of the
    /// packages. Takes no memory.
    pub(crate) fn find_ix(&self, id: &PackageId) -> Option<PackageIx>
        ensures found { MatchOption result (¬ IsKnown self.now.packages id.now)
            (λ ix. HasId self.now.packages id.now (ix_position ix)) }
        ensures graph { IsPackageGraph self.now }
    {
        self.records.find_ix(id)
    }

    /// The position of the package with the ID. Time grows with the logarithm of the packages.
    pub(crate) fn ix_of(&self, id: &PackageId) -> Result<PackageIx, Error>
        ensures found { IfOk result (λ ix. HasId self.now.packages id.now (ix_position ix)) }
        ensures known { IsKnown self.now.packages id.now → IsOk result }
        ensures unknown { IfErr result (NamesId (IsFirstUnknown self.now.packages (id.now ∷ []))) }
        ensures graph { IsPackageGraph self.now }
    {
        self.records.ix_of(id)
    }

    /// The positions of the packages with the two IDs. The first is looked up first.
    pub(crate) fn pair_of(
        &self,
        a: &PackageId,
        b: &PackageId,
    ) -> Result<(PackageIx, PackageIx), Error>
        ensures first { IfOk result (λ pair. HasId self.now.packages a.now (ix_position pair.0)) }
        ensures second { IfOk result (λ pair. HasId self.now.packages b.now (ix_position pair.1)) }
        ensures known { IsKnown self.now.packages a.now → IsKnown self.now.packages b.now
            → IsOk result }
        ensures unknown { IfErr result
            (NamesId (IsFirstUnknown self.now.packages (a.now ∷ b.now ∷ []))) }
        ensures graph { IsPackageGraph self.now }
    {
        self.records.pair_of(a, b)
    }

    /// The position of the package with the ID. Time grows with the logarithm of the packages. Takes
    /// no memory.
    pub(crate) fn position_of_id(&self, id: &PackageId) -> Option<usize>
        ensures { MatchOption result (¬ IsKnown self.now.packages id.now)
            (HasId self.now.packages id.now) }
    {
        self.records.position_of_id(id)
    }

    /// The record of the workspace.
    pub(crate) fn workspace_record(&self) -> &WorkspaceRecord
        ensures record { result.now ≡ self.now.workspace }
        ensures known { All (IsKnown self.now.packages) self.now.workspace.default_members.items }
    {
        self.records.workspace_record()
    }

    /// The positions of the workspace members by path.
    pub(crate) fn members_by_path(&self) -> &[usize]
        ensures { AreMembersByPath self.now.packages result.now }
    {
        self.records.members_by_path()
    }

    /// The positions of the workspace members by name.
    pub(crate) fn members_by_name(&self) -> &[usize]
        ensures { AreMembersByName self.now.packages result.now }
    {
        self.records.members_by_name()
    }

    /// The position of the workspace member with the path. Time grows with the logarithm of the
    /// members. Takes no memory.
    pub(crate) fn position_of_path(&self, path: Utf8Path<'_>) -> Option<usize>
        ensures { MatchOption result (¬ IsMemberPath self.now.packages (path_text path.entry))
            (HasPath self.now.packages (path_text path.entry)) }
    {
        self.records.position_of_path(path)
    }

    /// The position of the workspace member with the name. Time grows with the logarithm of the
    /// members. Takes no memory.
    pub(crate) fn position_of_name(&self, name: &str) -> Option<usize>
        ensures { MatchOption result (¬ IsMemberName self.now.packages name.now)
            (HasName self.now.packages name.now) }
    {
        self.records.position_of_name(name)
    }
}
