//! The default members of a workspace.
ghost use Rattle.std.specs.Prelude.{◌≡◌, All};
ghost use Rattle.std.specs.Slice.Iter.{iter_rest};
ghost use Rattle.guppy_graph.specs.Ids.{IsKnown};

use crate::metadata::PackageMetadata;
use crate::package_graph::PackageGraph;
use crate::workspace::Workspace;
use guppy_data::PackageId;
use std::slice;

impl<'g> Workspace<'g> {
    ghost use Rattle.guppy.specs.Views.{workspace_graph, workspace_record};
    ghost use Rattle.guppy.specs.WorkspaceIterators.{with_ids, default_ids_left, defaults_left};

    /// The IDs of the packages that Cargo's commands act on where none is named, in the order of the
    /// record, with its repeats. Takes no memory and constant time.
    pub fn default_member_ids(self) -> DefaultMemberIds<'g>
        ensures { default_ids_left result ≡ (workspace_record self.entry).default_members.items }
    {
        DefaultMemberIds {
            rest: self.graph.workspace_record().default_members.iter(),
        }
    }

    /// The packages that Cargo's commands act on where none is named, in the order of the record, with
    /// its repeats. Takes no memory and constant time, and each item time that grows with the
    /// logarithm of the packages.
    pub fn default_members(self) -> DefaultMembers<'g>
        ensures { defaults_left result
            ≡ with_ids (workspace_graph self.entry)
            (workspace_record self.entry).default_members.items }
    {
        DefaultMembers {
            graph: self.graph,
            rest: self.graph.workspace_record().default_members.iter(),
        }
    }
}

/// The IDs of default members that are still to come. Its `len` and its `size_hint` are exact.
#[derive(Drop)]
pub struct DefaultMemberIds<'g> {
    rest: slice::Iter<'g, PackageId>,
}

impl<'g> Iterator for DefaultMemberIds<'g> {
    ghost use Rattle.std.specs.Prelude.{Some, IfSome, length};
    ghost use Rattle.std.specs.Iterator.{YieldsFirstRef, UpTo, item_count};
    ghost use Rattle.std.specs.Iterator.SizeHint.{IsWithinCount};
    ghost use Rattle.guppy.specs.WorkspaceIterators.{default_ids_left};

    type Item = &'g PackageId;

    ghost next_gives = { YieldsFirstRef default_ids_left };

    ghost remaining = { item_count default_ids_left };

    fn next(&mut self) -> Option<&'g PackageId> {
        self.rest.next()
    }

    fn size_hint(&self) -> (usize, Option<usize>)
        ensures lower { IsWithinCount result.0 (item_count default_ids_left self.now) }
        ensures upper { IfSome result.1 (UpTo (item_count default_ids_left self.now)) }
        ensures exact { let n = length (default_ids_left self.now) in result ≡ (n, Some n) }
    {
        (self.len(), Some(self.len()))
    }
}

impl ExactSizeIterator for DefaultMemberIds<'_> {
    fn len(&self) -> usize {
        self.rest.len()
    }
}

/// Default members that are still to come. Its `len` and its `size_hint` are exact.
#[derive(Drop)]
pub struct DefaultMembers<'g> {
    graph: &'g PackageGraph,
    rest: slice::Iter<'g, PackageId>,
    // That an ID is not unknown is one fact, whichever position it has.
    ghost known: { All (λ id. ¬ (¬ IsKnown graph.now.packages id)) (iter_rest rest) },
}

impl<'g> Iterator for DefaultMembers<'g> {
    ghost use Rattle.std.specs.Prelude.{Some, IfSome, length};
    ghost use Rattle.std.specs.Iterator.{YieldsFirstBy, UpTo, item_count};
    ghost use Rattle.std.specs.Iterator.SizeHint.{IsWithinCount};
    ghost use Rattle.guppy.specs.WorkspaceIterators.{default_seen, defaults_left};

    type Item = PackageMetadata<'g>;

    ghost next_gives = { YieldsFirstBy default_seen defaults_left };

    ghost remaining = { item_count defaults_left };

    fn next(&mut self) -> Option<PackageMetadata<'g>> {
        match self.rest.next() {
            Some(id) => match self.graph.position_of_id(id) {
                Some(position) => Some(PackageMetadata {
                    graph: self.graph,
                    position,
                }),
                None => unreachable!(),
            },
            None => None,
        }
    }

    fn size_hint(&self) -> (usize, Option<usize>)
        ensures lower { IsWithinCount result.0 (item_count defaults_left self.now) }
        ensures upper { IfSome result.1 (UpTo (item_count defaults_left self.now)) }
        ensures exact { let n = length (defaults_left self.now) in result ≡ (n, Some n) }
    {
        (self.len(), Some(self.len()))
    }
}

impl ExactSizeIterator for DefaultMembers<'_> {
    fn len(&self) -> usize {
        self.rest.len()
    }
}
