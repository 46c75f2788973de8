//! Members of a workspace by their paths and their names.
ghost use Rattle.std.specs.Prelude.{◌≡◌, ◌<◌, [], ◌∷◌, length, map, All, IfOk, IfErr, IsOk};
ghost use Rattle.std.specs.List.{AllZip};
ghost use Rattle.std.specs.Iterator.{IsFinite};
ghost use Rattle.guppy_data.specs.Utf8Path.{path_text};
ghost use Rattle.guppy_graph.specs.Ids.{ix_position};
ghost use Rattle.guppy_graph.specs.Members.{HasPath, HasName, IsMemberPath, IsMemberName};
ghost use Rattle.guppy_graph.specs.Refused.{NamesText, NamesPath, NamesName, IsFirstUnknownPath, IsFirstUnknownName, EndsInFirstNot, EndsInUnknownPath, EndsInUnknownName};
ghost use Rattle.guppy.specs.Read.{HasSome, ReadsAll, ReadsTo, text_now};

use crate::metadata::PackageMetadata;
use crate::package_graph::NamesPackage;
use crate::workspace::Workspace;
use guppy_core::{IndexType, PackageIx};
use guppy_data::{Error, Utf8Path};
use std::alloc::AllocError;

impl<'g> Workspace<'g> {
    ghost use Rattle.guppy.specs.Views.{graph_of, package_position, workspace_graph, workspace_packages};

    /// The member with the path, as paths are equal.
    ///
    /// `UnknownWorkspacePath` tells a path that is no member's. Time grows with the logarithm of the
    /// members. Takes memory only for that error's copy of the path.
    pub fn member_by_path(self, path: Utf8Path<'_>) -> Result<PackageMetadata<'g>, Error>
        ensures found { IfOk result (λ m. (graph_of m ≡ workspace_graph self.entry)
            × HasPath (workspace_packages self.entry) (path_text path.entry) (package_position m)) }
        ensures known { IsMemberPath (workspace_packages self.entry) (path_text path.entry)
            → IsOk result }
        ensures unknown { IfErr result
            (NamesPath (IsFirstUnknownPath (workspace_packages self.entry)
            (path_text path.entry ∷ []))) }
    {
        let ix = path.ix_in(self.graph)?;
        Ok(PackageMetadata {
            graph: self.graph,
            position: ix.index(),
        })
    }

    /// The member with the name.
    ///
    /// `UnknownWorkspaceName` tells a name that is no member's. Time grows with the logarithm of the
    /// members. Takes memory only for that error's copy of the name.
    pub fn member_by_name(self, name: &str) -> Result<PackageMetadata<'g>, Error>
        ensures found { IfOk result (λ m. (graph_of m ≡ workspace_graph self.entry)
            × HasName (workspace_packages self.entry) name.now (package_position m)) }
        ensures known { IsMemberName (workspace_packages self.entry) name.now → IsOk result }
        ensures unknown { IfErr result
            (NamesName (IsFirstUnknownName (workspace_packages self.entry) (name.now ∷ []))) }
    {
        let ix = name.ix_in(self.graph)?;
        Ok(PackageMetadata {
            graph: self.graph,
            position: ix.index(),
        })
    }

    /// The members with these paths, in their order, with their repeats.
    ///
    /// `UnknownWorkspacePath` tells the first path of the list that is no member's; the list is read
    /// no further. Time grows with the list, times the logarithm of the members. Takes memory for the
    /// list's members.
    pub fn members_by_paths<'a, I: Iterator<Item = Utf8Path<'a>> + Drop>(
        self,
        paths: I,
    ) -> Result<Vec<PackageMetadata<'g>>, Error>
        requires can { I.can_next paths }
        requires ends { IsFinite (I.remaining paths) }
        ensures found { IfOk result (λ members. ReadsAll I.next_gives path_text paths
            (λ asked. AllZip (λ path m. (graph_of m ≡ workspace_graph self.entry)
            × HasPath (workspace_packages self.entry) path (package_position m))
            asked members.items)) }
        ensures unknown { IfErr result
            (NamesPath (ReadsTo I.next_gives path_text paths
            (EndsInUnknownPath (workspace_packages self.entry)))) }
    {
        self.members_named(paths)
    }

    /// The members with these names, in their order, with their repeats.
    ///
    /// `UnknownWorkspaceName` tells the first name of the list that is no member's; the list is read
    /// no further. Time grows with the list, times the logarithm of the members. Takes memory for the
    /// list's members.
    pub fn members_by_names<'a, I: Iterator<Item = &'a str> + Drop>(
        self,
        names: I,
    ) -> Result<Vec<PackageMetadata<'g>>, Error>
        requires can { I.can_next names }
        requires ends { IsFinite (I.remaining names) }
        ensures found { IfOk result (λ members. ReadsAll I.next_gives text_now names
            (λ asked. AllZip (λ name m. (graph_of m ≡ workspace_graph self.entry)
            × HasName (workspace_packages self.entry) name (package_position m))
            asked members.items)) }
        ensures unknown { IfErr result
            (NamesName (ReadsTo I.next_gives text_now names
            (EndsInUnknownName (workspace_packages self.entry)))) }
    {
        self.members_named(names)
    }

    // The packages that the list names, in its order, with its repeats.
    fn members_named<N: NamesPackage, I: Iterator<Item = N> + Drop>(
        self,
        names: I,
    ) -> Result<Vec<PackageMetadata<'g>>, Error>
        requires can { I.can_next names }
        requires ends { IsFinite (I.remaining names) }
        ensures found { IfOk result (λ members. ReadsAll I.next_gives N.text names
            (λ texts. AllZip (λ text m. (graph_of m ≡ workspace_graph self.entry)
            × N.at (workspace_packages self.entry) text (package_position m))
            texts members.items)) }
        ensures unknown { IfErr result (NamesText N.named (ReadsTo I.next_gives N.text names
            (EndsInFirstNot (HasSome (N.at (workspace_packages self.entry)))))) }
    {
        let ixs = self.graph.ixs_of::<N, I>(names)?;
        Ok(self.members_at(ixs.as_slice())?)
    }

    // The packages at these positions, in their order.
    fn members_at(self, ixs: &[PackageIx]) -> Result<Vec<PackageMetadata<'g>>, AllocError>
        requires { All (λ ix. ix_position ix < length (workspace_packages self)) ixs.now }
        ensures { IfOk result (λ members. AllZip
            (λ ix m. (graph_of m ≡ workspace_graph self.entry)
            × (package_position m ≡ ix_position ix)) ixs.now members.items) }
    {
        let mut members = Vec::with_capacity(self.graph.alloc(), ixs.len())?;
        for ix in ixs {
            members.push(PackageMetadata {
                graph: self.graph,
                position: ix.index(),
            })?;
        }
        Ok(members)
    }
}
