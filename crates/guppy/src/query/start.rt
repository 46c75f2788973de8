//! The calls of a graph, a package and a set that answer a query.
ghost use Rattle.std.specs.Prelude.{◌≡◌, IfOk, IfErr, IsOkUnless};
ghost use Rattle.std.specs.Iterator.{IsFinite};
ghost use Rattle.guppy_data.specs.Utf8Path.{path_text};
ghost use Rattle.guppy.specs.Query.{IsSetOfIds, IsSetOfNamed, IsSetWhere, initials_of};
ghost use Rattle.guppy_graph.specs.Members.{HasPath, HasName, IsMember};
ghost use Rattle.guppy_graph.specs.Refused.{NamesId, NamesPath, NamesName, EndsInUnknown, EndsInUnknownPath, EndsInUnknownName};
ghost use Rattle.guppy.specs.Read.{ReadsAll, ReadsTo, text_now};

use crate::metadata::PackageMetadata;
use crate::package_graph::PackageGraph;
use crate::query::PackageQuery;
use crate::set::PackageSet;
use guppy_core::DependencyDirection;
use guppy_data::{Error, PackageId, Utf8Path};

impl PackageGraph {
    /// The query that starts at the packages with these IDs and follows links in the direction.
    /// Repeats count once.
    ///
    /// `UnknownPackageId` tells the first ID of the list that is no package's; the list is read no
    /// further. Time grows with the list, times the logarithm of the packages, and with the
    /// packages. Takes memory for a number an ID and a bit a package.
    pub fn query_directed<'a, I: Iterator<Item = &'a PackageId> + Drop>(
        &self,
        ids: I,
        direction: DependencyDirection,
    ) -> Result<PackageQuery<'_>, Error>
        requires can { I.can_next ids }
        requires ends { IsFinite (I.remaining ids) }
        ensures graph { IfOk result (λ q. q.graph ≡ self.now) }
        ensures direction { IfOk result (λ q. q.direction ≡ direction) }
        ensures initials { IfOk result (λ q. ReadsAll I.next_gives text_now ids
            (λ named. IsSetOfIds self.now.packages named q.initials)) }
        ensures unknown { IfErr result
            (NamesId (ReadsTo I.next_gives text_now ids (EndsInUnknown self.now.packages))) }
    {
        let initials = self.resolve_ids(ids)?;
        Ok(PackageQuery {
            initials,
            direction,
        })
    }

    /// The query that starts at the packages with these IDs and follows links from dependents to
    /// their dependencies. Repeats count once.
    ///
    /// `UnknownPackageId` tells the first ID of the list that is no package's; the list is read no
    /// further. Time grows with the list, times the logarithm of the packages, and with the
    /// packages. Takes memory for a number an ID and a bit a package.
    pub fn query_forward<'a, I: Iterator<Item = &'a PackageId> + Drop>(
        &self,
        ids: I,
    ) -> Result<PackageQuery<'_>, Error>
        requires can { I.can_next ids }
        requires ends { IsFinite (I.remaining ids) }
        ensures graph { IfOk result (λ q. q.graph ≡ self.now) }
        ensures direction { IfOk result (λ q. q.direction ≡ DependencyDirection.Forward) }
        ensures initials { IfOk result (λ q. ReadsAll I.next_gives text_now ids
            (λ named. IsSetOfIds self.now.packages named q.initials)) }
        ensures unknown { IfErr result
            (NamesId (ReadsTo I.next_gives text_now ids (EndsInUnknown self.now.packages))) }
    {
        self.query_directed(ids, DependencyDirection::Forward)
    }

    /// The query that starts at the packages with these IDs and follows links from dependencies to
    /// their dependents. Repeats count once.
    ///
    /// `UnknownPackageId` tells the first ID of the list that is no package's; the list is read no
    /// further. Time grows with the list, times the logarithm of the packages, and with the
    /// packages. Takes memory for a number an ID and a bit a package.
    pub fn query_reverse<'a, I: Iterator<Item = &'a PackageId> + Drop>(
        &self,
        ids: I,
    ) -> Result<PackageQuery<'_>, Error>
        requires can { I.can_next ids }
        requires ends { IsFinite (I.remaining ids) }
        ensures graph { IfOk result (λ q. q.graph ≡ self.now) }
        ensures direction { IfOk result (λ q. q.direction ≡ DependencyDirection.Reverse) }
        ensures initials { IfOk result (λ q. ReadsAll I.next_gives text_now ids
            (λ named. IsSetOfIds self.now.packages named q.initials)) }
        ensures unknown { IfErr result
            (NamesId (ReadsTo I.next_gives text_now ids (EndsInUnknown self.now.packages))) }
    {
        self.query_directed(ids, DependencyDirection::Reverse)
    }

    /// The query that starts at the members of the workspace and follows links from dependents to
    /// their dependencies.
    ///
    /// Time grows with the packages. Takes memory for a number a member and a bit a package, and
    /// fails, with `OutOfMemory`, only where there is none.
    pub fn query_workspace(&self) -> Result<PackageQuery<'_>, Error>
        ensures graph { IfOk result (λ q. q.graph ≡ self.now) }
        ensures direction { IfOk result (λ q. q.direction ≡ DependencyDirection.Forward) }
        ensures initials { IfOk result
            (λ q. IsSetWhere self.now.packages (IsMember self.now.packages) q.initials) }
        ensures error { IsOkUnless result Error.OutOfMemory }
    {
        let initials = self.resolve_workspace()?;
        Ok(forward_from(initials))
    }

    /// The query that starts at the members of the workspace with these paths and follows links from
    /// dependents to their dependencies. Repeats count once.
    ///
    /// `UnknownWorkspacePath` tells the first path of the list that is no member's; the list is read
    /// no further. Time grows with the list, times the logarithm of the members, and with the
    /// packages. Takes memory for a number a path and a bit a package.
    pub fn query_workspace_paths<'a, I: Iterator<Item = Utf8Path<'a>> + Drop>(
        &self,
        paths: I,
    ) -> Result<PackageQuery<'_>, Error>
        requires can { I.can_next paths }
        requires ends { IsFinite (I.remaining paths) }
        ensures graph { IfOk result (λ q. q.graph ≡ self.now) }
        ensures direction { IfOk result (λ q. q.direction ≡ DependencyDirection.Forward) }
        ensures initials { IfOk result (λ q. ReadsAll I.next_gives path_text paths
            (λ asked. IsSetOfNamed (HasPath self.now.packages) self.now.packages asked q.initials)) }
        ensures unknown { IfErr result
            (NamesPath (ReadsTo I.next_gives path_text paths
            (EndsInUnknownPath self.now.packages))) }
    {
        let initials = self.resolve_workspace_paths(paths)?;
        Ok(forward_from(initials))
    }

    /// The query that starts at the members of the workspace with these names and follows links from
    /// dependents to their dependencies. Repeats count once.
    ///
    /// `UnknownWorkspaceName` tells the first name of the list that is no member's; the list is read
    /// no further. Time grows with the list, times the logarithm of the members, and with the
    /// packages. Takes memory for a number a name and a bit a package.
    pub fn query_workspace_names<'a, I: Iterator<Item = &'a str> + Drop>(
        &self,
        names: I,
    ) -> Result<PackageQuery<'_>, Error>
        requires can { I.can_next names }
        requires ends { IsFinite (I.remaining names) }
        ensures graph { IfOk result (λ q. q.graph ≡ self.now) }
        ensures direction { IfOk result (λ q. q.direction ≡ DependencyDirection.Forward) }
        ensures initials { IfOk result (λ q. ReadsAll I.next_gives text_now names
            (λ asked. IsSetOfNamed (HasName self.now.packages) self.now.packages asked q.initials)) }
        ensures unknown { IfErr result
            (NamesName (ReadsTo I.next_gives text_now names
            (EndsInUnknownName self.now.packages))) }
    {
        let initials = self.resolve_workspace_names(names)?;
        Ok(forward_from(initials))
    }
}

fn forward_from<'g>(initials: PackageSet<'g>) -> PackageQuery<'g>
    ensures initials { initials_of result ≡ initials.entry }
    ensures direction { result.direction ≡ DependencyDirection.Forward }
{
    PackageQuery {
        initials,
        direction: DependencyDirection::Forward,
    }
}

impl<'g> PackageMetadata<'g> {
    ghost use Rattle.guppy.specs.Views.{graph_of, graph_packages, package_position};

    /// The query that starts at this package and follows links in the direction.
    ///
    /// Time grows with the packages. Takes memory for a bit a package, and fails, with
    /// `OutOfMemory`, only where there is none.
    pub fn to_package_query(self, direction: DependencyDirection) -> Result<PackageQuery<'g>, Error>
        ensures graph { IfOk result (λ q. q.graph ≡ (graph_of self.entry).now) }
        ensures direction { IfOk result (λ q. q.direction ≡ direction) }
        ensures initials { IfOk result
            (λ q. IsSetWhere (graph_packages self.entry)
            (λ p. p ≡ package_position self.entry) q.initials) }
        ensures error { IsOkUnless result Error.OutOfMemory }
    {
        let initials = self.to_package_set()?;
        Ok(PackageQuery {
            initials,
            direction,
        })
    }
}

impl<'g> PackageSet<'g> {
    /// The query that starts at the packages of this set and follows links in the direction.
    ///
    /// Time grows with the packages. Takes memory for a bit a package, and fails, with
    /// `OutOfMemory`, only where there is none.
    pub fn to_package_query(
        &self,
        direction: DependencyDirection,
    ) -> Result<PackageQuery<'g>, Error>
        ensures initials { IfOk result (λ q. initials_of q ≡ self.now) }
        ensures direction { IfOk result (λ q. q.direction ≡ direction) }
        ensures error { IsOkUnless result Error.OutOfMemory }
    {
        let initials = self.clone()?;
        Ok(PackageQuery {
            initials,
            direction,
        })
    }
}
