//! Walks over the members of a workspace.
ghost use Rattle.std.specs.Prelude.{◌≡◌, ℕ, ◌<◌, List, length, map, All};
ghost use Rattle.std.specs.Slice.Iter.{iter_rest};
ghost use Rattle.guppy_graph.specs.Members.{AreMembersByPath, AreMembersByName};

use crate::metadata::PackageMetadata;
use crate::package_graph::PackageGraph;
use crate::workspace::Workspace;
use guppy_data::{PackageId, Utf8Path};
use guppy_graph::{name_at, path_at};
use std::slice;

impl<'g> Workspace<'g> {
    ghost use Rattle.guppy.specs.Views.{workspace_graph, workspace_packages};
    ghost use Rattle.guppy.specs.WorkspaceIterators.{at_positions, with_path, with_name, member_id, members_left, by_path_left, by_name_left, member_ids_left};

    /// The members, each once, strictly ascending by path. Takes no memory and constant time.
    pub fn iter(self) -> Members<'g>
        ensures { (members : List ℕ) × AreMembersByPath (workspace_packages self.entry) members
            × (members_left result ≡ at_positions (workspace_graph self.entry) members) }
    {
        Members {
            graph: self.graph,
            rest: self.graph.members_by_path().iter(),
        }
    }

    /// The members with their paths, each once, strictly ascending by path. Takes no memory and
    /// constant time.
    pub fn iter_by_path(self) -> MembersByPath<'g>
        ensures { (members : List ℕ) × AreMembersByPath (workspace_packages self.entry) members
            × (by_path_left result ≡ map with_path
            (at_positions (workspace_graph self.entry) members)) }
    {
        MembersByPath {
            members: self.iter(),
        }
    }

    /// The members with their names, each once, strictly ascending by the bytes of the name. Takes no
    /// memory and constant time.
    pub fn iter_by_name(self) -> MembersByName<'g>
        ensures { (members : List ℕ) × AreMembersByName (workspace_packages self.entry) members
            × (by_name_left result ≡ map with_name
            (at_positions (workspace_graph self.entry) members)) }
    {
        MembersByName {
            members: Members {
                graph: self.graph,
                rest: self.graph.members_by_name().iter(),
            },
        }
    }

    /// The IDs of the members, each once, strictly ascending by path. Takes no memory and constant
    /// time.
    pub fn member_ids(self) -> MemberIds<'g>
        ensures { (members : List ℕ) × AreMembersByPath (workspace_packages self.entry) members
            × (member_ids_left result ≡ map member_id
            (at_positions (workspace_graph self.entry) members)) }
    {
        MemberIds {
            members: self.iter(),
        }
    }
}

/// Members of a workspace that are still to come. Its `len` and its `size_hint` are exact.
#[derive(Drop)]
pub struct Members<'g> {
    graph: &'g PackageGraph,
    rest: slice::Iter<'g, usize>,
    ghost in_graph: { All (λ p. p < length graph.now.packages) (iter_rest rest) },
}

impl<'g> Iterator for Members<'g> {
    ghost use Rattle.std.specs.Prelude.{Some, IfSome};
    ghost use Rattle.std.specs.Iterator.{YieldsFirstBy, UpTo, item_count};
    ghost use Rattle.std.specs.Iterator.SizeHint.{IsWithinCount};
    ghost use Rattle.guppy.specs.Views.{package_seen};
    ghost use Rattle.guppy.specs.WorkspaceIterators.{members_left};

    type Item = PackageMetadata<'g>;

    ghost next_gives = { YieldsFirstBy package_seen members_left };

    ghost remaining = { item_count members_left };

    fn next(&mut self) -> Option<PackageMetadata<'g>> {
        match self.rest.next() {
            Some(position) => Some(PackageMetadata {
                graph: self.graph,
                position: *position,
            }),
            None => None,
        }
    }

    fn size_hint(&self) -> (usize, Option<usize>)
        ensures lower { IsWithinCount result.0 (item_count members_left self.now) }
        ensures upper { IfSome result.1 (UpTo (item_count members_left self.now)) }
        ensures exact { let n = length (members_left self.now) in result ≡ (n, Some n) }
    {
        (self.len(), Some(self.len()))
    }
}

impl ExactSizeIterator for Members<'_> {
    fn len(&self) -> usize {
        self.rest.len()
    }
}

/// Members of a workspace that are still to come, each with its path. Its `len` and its `size_hint`
/// are exact.
#[derive(Drop)]
pub struct MembersByPath<'g> {
    members: Members<'g>,
}

impl<'g> Iterator for MembersByPath<'g> {
    ghost use Rattle.std.specs.Prelude.{Some, IfSome};
    ghost use Rattle.std.specs.Iterator.{YieldsFirstBy, UpTo, item_count};
    ghost use Rattle.std.specs.Iterator.SizeHint.{IsWithinCount};
    ghost use Rattle.guppy.specs.WorkspaceIterators.{path_and_member_seen, by_path_left};

    type Item = (Utf8Path<'g>, PackageMetadata<'g>);

    ghost next_gives = { YieldsFirstBy path_and_member_seen by_path_left };

    ghost remaining = { item_count by_path_left };

    fn next(&mut self) -> Option<(Utf8Path<'g>, PackageMetadata<'g>)> {
        match self.members.next() {
            Some(member) => {
                let path = path_at(member.graph.dep_graph().nodes(), member.position);
                Some((path, member))
            }
            None => None,
        }
    }

    fn size_hint(&self) -> (usize, Option<usize>)
        ensures lower { IsWithinCount result.0 (item_count by_path_left self.now) }
        ensures upper { IfSome result.1 (UpTo (item_count by_path_left self.now)) }
        ensures exact { let n = length (by_path_left self.now) in result ≡ (n, Some n) }
    {
        (self.len(), Some(self.len()))
    }
}

impl ExactSizeIterator for MembersByPath<'_> {
    fn len(&self) -> usize {
        self.members.len()
    }
}

/// Members of a workspace that are still to come, each with its name. Its `len` and its `size_hint`
/// are exact.
#[derive(Drop)]
pub struct MembersByName<'g> {
    members: Members<'g>,
}

impl<'g> Iterator for MembersByName<'g> {
    ghost use Rattle.std.specs.Prelude.{Some, IfSome};
    ghost use Rattle.std.specs.Iterator.{YieldsFirstBy, UpTo, item_count};
    ghost use Rattle.std.specs.Iterator.SizeHint.{IsWithinCount};
    ghost use Rattle.guppy.specs.WorkspaceIterators.{name_and_member_seen, by_name_left};

    type Item = (&'g str, PackageMetadata<'g>);

    ghost next_gives = { YieldsFirstBy name_and_member_seen by_name_left };

    ghost remaining = { item_count by_name_left };

    fn next(&mut self) -> Option<(&'g str, PackageMetadata<'g>)> {
        match self.members.next() {
            Some(member) => {
                let name = name_at(member.graph.dep_graph().nodes(), member.position);
                Some((name, member))
            }
            None => None,
        }
    }

    fn size_hint(&self) -> (usize, Option<usize>)
        ensures lower { IsWithinCount result.0 (item_count by_name_left self.now) }
        ensures upper { IfSome result.1 (UpTo (item_count by_name_left self.now)) }
        ensures exact { let n = length (by_name_left self.now) in result ≡ (n, Some n) }
    {
        (self.len(), Some(self.len()))
    }
}

impl ExactSizeIterator for MembersByName<'_> {
    fn len(&self) -> usize {
        self.members.len()
    }
}

/// The IDs of members of a workspace that are still to come. Its `len` and its `size_hint` are
/// exact.
#[derive(Drop)]
pub struct MemberIds<'g> {
    members: Members<'g>,
}

impl<'g> Iterator for MemberIds<'g> {
    ghost use Rattle.std.specs.Prelude.{Some, IfSome};
    ghost use Rattle.std.specs.Iterator.{YieldsFirstRef, UpTo, item_count};
    ghost use Rattle.std.specs.Iterator.SizeHint.{IsWithinCount};
    ghost use Rattle.guppy.specs.WorkspaceIterators.{member_ids_left};

    type Item = &'g PackageId;

    ghost next_gives = { YieldsFirstRef member_ids_left };

    ghost remaining = { item_count member_ids_left };

    fn next(&mut self) -> Option<&'g PackageId> {
        match self.members.next() {
            Some(member) => Some(member.id()),
            None => None,
        }
    }

    fn size_hint(&self) -> (usize, Option<usize>)
        ensures lower { IsWithinCount result.0 (item_count member_ids_left self.now) }
        ensures upper { IfSome result.1 (UpTo (item_count member_ids_left self.now)) }
        ensures exact { let n = length (member_ids_left self.now) in result ≡ (n, Some n) }
    {
        (self.len(), Some(self.len()))
    }
}

impl ExactSizeIterator for MemberIds<'_> {
    fn len(&self) -> usize {
        self.members.len()
    }
}
