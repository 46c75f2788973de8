//! The calls of a graph that answer the set of members of the workspace.
ghost use Rattle.std.specs.Prelude.{◌≡◌, IfOk, IfErr, IsOkUnless, map};
ghost use Rattle.std.specs.Iterator.{IsFinite};
ghost use Rattle.guppy_data.specs.Utf8Path.{path_text};
ghost use Rattle.guppy.specs.Query.{IsSetOfNamed, IsSetWhere};
ghost use Rattle.guppy_graph.specs.Members.{HasPath, HasName, IsMember, AreMembersByPath};
ghost use Rattle.guppy_graph.specs.Ids.{ix_position};
ghost use Rattle.guppy_graph.specs.Refused.{NamesPath, NamesName, EndsInUnknownPath, EndsInUnknownName};
ghost use Rattle.guppy.specs.Read.{ReadsAll, ReadsTo, text_now};

use crate::package_graph::PackageGraph;
use crate::set::PackageSet;
use guppy_core::{IndexType, PackageIx};
use guppy_data::{Error, Utf8Path};
use std::alloc::AllocError;

impl PackageGraph {
    /// The members of the workspace, and no other package.
    ///
    /// Time grows with the packages. Takes memory for a number a member and a bit a package, and
    /// fails, with `OutOfMemory`, only where there is none.
    pub fn resolve_workspace(&self) -> Result<PackageSet<'_>, Error>
        ensures graph { IfOk result (λ set. set.graph ≡ self.now) }
        ensures members { IfOk result
            (λ set. IsSetWhere self.now.packages (IsMember self.now.packages) set.included) }
        ensures error { IsOkUnless result Error.OutOfMemory }
    {
        let ixs = self.ixs_of_members()?;
        let set = self.set_of(ixs)?;
        Ok(set)
    }

    /// The members of the workspace with these paths, and no other package. Repeats count once.
    ///
    /// `UnknownWorkspacePath` tells the first path of the list that is no member's; the list is read
    /// no further. Time grows with the list, times the logarithm of the members, and with the
    /// packages. Takes memory for a number a path and a bit a package.
    pub fn resolve_workspace_paths<'a, I: Iterator<Item = Utf8Path<'a>> + Drop>(
        &self,
        paths: I,
    ) -> Result<PackageSet<'_>, Error>
        requires can { I.can_next paths }
        requires ends { IsFinite (I.remaining paths) }
        ensures graph { IfOk result (λ set. set.graph ≡ self.now) }
        ensures members { IfOk result (λ set. ReadsAll I.next_gives path_text paths
            (λ asked. IsSetOfNamed (HasPath self.now.packages) self.now.packages
            asked set.included)) }
        ensures unknown { IfErr result
            (NamesPath (ReadsTo I.next_gives path_text paths
            (EndsInUnknownPath self.now.packages))) }
    {
        self.set_named(paths)
    }

    /// The members of the workspace with these names, and no other package. Repeats count once.
    ///
    /// `UnknownWorkspaceName` tells the first name of the list that is no member's; the list is read
    /// no further. Time grows with the list, times the logarithm of the members, and with the
    /// packages. Takes memory for a number a name and a bit a package.
    pub fn resolve_workspace_names<'a, I: Iterator<Item = &'a str> + Drop>(
        &self,
        names: I,
    ) -> Result<PackageSet<'_>, Error>
        requires can { I.can_next names }
        requires ends { IsFinite (I.remaining names) }
        ensures graph { IfOk result (λ set. set.graph ≡ self.now) }
        ensures members { IfOk result (λ set. ReadsAll I.next_gives text_now names
            (λ asked. IsSetOfNamed (HasName self.now.packages) self.now.packages
            asked set.included)) }
        ensures unknown { IfErr result
            (NamesName (ReadsTo I.next_gives text_now names
            (EndsInUnknownName self.now.packages))) }
    {
        self.set_named(names)
    }

    // The positions of the members.
    fn ixs_of_members(&self) -> Result<Vec<PackageIx>, AllocError>
        ensures { IfOk result (λ ixs. AreMembersByPath self.now.packages
            (map ix_position ixs.items)) }
    {
        let mut ixs = Vec::new(self.alloc());
        for position in self.members_by_path() {
            ixs.push(self.ix_at(*position))?;
        }
        Ok(ixs)
    }
}
