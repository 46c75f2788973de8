//! The workspace of a graph: its directories, and its members by path and by name.
//!
//! No call takes memory, but for the lists that `members_by_paths` and `members_by_names` give, and
//! the errors that name an unknown path or name. What is borrowed lives as long as the borrow of the
//! graph, also where the view of the workspace is gone.
ghost use Rattle.std.specs.Prelude.{◌≡◌, ◌↔◌, IsTrue, length};
ghost use Rattle.std.specs.Option.{option_map};
ghost use Rattle.guppy_data.specs.Utf8Path.{path_text};
ghost use Rattle.guppy_graph.specs.Members.{IsMemberPath, IsMemberName, members_of};

mod default_members;
mod lookups;
mod members;

use crate::metadata::path_of;
use crate::package_graph::PackageGraph;
pub use default_members::{DefaultMemberIds, DefaultMembers};
use guppy_data::{Utf8Path, WorkspaceRecord};
pub use members::{MemberIds, Members, MembersByName, MembersByPath};
use serde_json::Value;

/// The workspace of a graph.
#[derive(Clone, Copy)]
pub struct Workspace<'g> {
    pub(crate) graph: &'g PackageGraph,
}

impl PackageGraph {
    ghost use Rattle.guppy.specs.Views.{workspace_graph};

    /// The workspace. Takes no memory and constant time.
    pub fn workspace(&self) -> Workspace<'_>
        ensures { workspace_graph result ≡ self.entry }
    {
        Workspace { graph: self }
    }
}

impl<'g> Workspace<'g> {
    ghost use Rattle.guppy.specs.Views.{workspace_packages, workspace_record};

    // The record of the workspace.
    fn record(self) -> &'g WorkspaceRecord
        ensures { result.now ≡ workspace_record self.entry }
    {
        self.graph.workspace_record()
    }

    /// The path of the workspace's root.
    pub fn root(self) -> Utf8Path<'g>
        ensures { path_text result ≡ (workspace_record self.entry).root }
    {
        self.record().root.as_path()
    }

    /// The path that Cargo builds into.
    pub fn target_directory(self) -> Utf8Path<'g>
        ensures { path_text result ≡ (workspace_record self.entry).target_directory }
    {
        self.record().target_directory.as_path()
    }

    /// The path of what Cargo makes on its way, where it is another one.
    pub fn build_directory(self) -> Option<Utf8Path<'g>>
        ensures { option_map path_text result ≡ (workspace_record self.entry).build_directory }
    {
        path_of(&self.record().build_directory)
    }

    /// The manifest's free table `workspace.metadata`.
    pub fn metadata_table(self) -> &'g Value
        ensures { result.now ≡ (workspace_record self.entry).metadata_table }
    {
        &self.record().metadata_table
    }

    /// How many members the workspace has. Takes constant time.
    pub fn member_count(self) -> usize
        ensures { result ≡ length (members_of (workspace_packages self.entry)) }
    {
        self.graph.members_by_path().len()
    }

    /// Whether a member has the name. Time grows with the logarithm of the members.
    pub fn contains_name(self, name: &str) -> bool
        ensures { IsTrue result ↔ IsMemberName (workspace_packages self.entry) name.now }
    {
        self.graph.position_of_name(name).is_some()
    }

    /// Whether a member has the path, as paths are equal. Time grows with the logarithm of the
    /// members.
    pub fn contains_path(self, path: Utf8Path<'_>) -> bool
        ensures { IsTrue result ↔ IsMemberPath (workspace_packages self.entry)
            (path_text path.entry) }
    {
        self.graph.position_of_path(path).is_some()
    }
}
