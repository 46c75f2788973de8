//! The workspace and its members.
ghost use Rattle.std.specs.Prelude.{◌≡◌, ℕ, List, Option, IfOk, MatchResult, Some, map, codes};
ghost use Rattle.json.specs.Json.{string};
ghost use Rattle.json.specs.Find.{get};
ghost use Rattle.guppy_metadata.specs.Fault.{NoneIs, IsRead};
ghost use Rattle.guppy_metadata.specs.Members.{data_of, list_of, is_among, is_in_set, AreTexts};
ghost use Rattle.guppy_metadata.specs.Workspace.{IsBuildDirectory, IsWorkspace};

use crate::fault::Misfit;
use crate::object::{Object, texts_of};
use guppy_data::{PackageId, Utf8PathBuf, WorkspaceRecord};
use indexmap::IndexSet;
use std::alloc::{AllocError, Global};

// The IDs of the members that Cargo's commands act on where none is named.
fn default_members(metadata: Object<'_, '_>) -> Result<Vec<PackageId>, Misfit>
    ensures { MatchResult result
        (λ ids. AreTexts (codes "workspace_default_members") (data_of metadata.entry) ids.items)
        (NoneIs (AreTexts (codes "workspace_default_members") (data_of metadata.entry))) }
{
    let texts = metadata.texts("workspace_default_members")?;
    let mut ids = Vec::with_capacity(metadata.alloc, texts.len())?;
    for text in texts.as_slice() {
        ids.push(PackageId::new(String::from_str(metadata.alloc, text)?))?;
    }
    Ok(ids)
}

// The path that Cargo builds on its way into, where it is another one than the target directory.
fn build_directory(metadata: Object<'_, '_>) -> Result<Option<Utf8PathBuf>, Misfit>
    ensures { MatchResult result (λ path. (target : List ℕ)
        → get (codes "target_directory") (data_of metadata.entry) ≡ Some (string target)
        → IsBuildDirectory (data_of metadata.entry) target path)
        (NoneIs (λ (made : List ℕ × Option (List ℕ)). (get (codes "target_directory") (data_of metadata.entry) ≡ Some (string made.0))
        × IsBuildDirectory (data_of metadata.entry) made.0 made.1)) }
{
    let Some(path) = metadata.optional_text("build_directory")? else {
        return Ok(None);
    };
    if path == metadata.text("target_directory")? {
        return Ok(None);
    }
    let path = String::from_str(metadata.alloc, path)?;
    Ok(Some(Utf8PathBuf::new(path)))
}

/// The record of the workspace.
pub(crate) fn workspace_record(metadata: Object<'_, '_>) -> Result<WorkspaceRecord, Misfit>
    ensures { IsRead (IsWorkspace (data_of metadata.entry)) result }
{
    let root = metadata.copied_text("workspace_root")?;
    let target_directory = metadata.copied_text("target_directory")?;
    let build_directory = build_directory(metadata)?;
    let default_members = default_members(metadata)?;
    let metadata_table = metadata.table("metadata")?;
    Ok(WorkspaceRecord {
        root: Utf8PathBuf::new(root),
        target_directory: Utf8PathBuf::new(target_directory),
        build_directory,
        metadata_table,
        default_members,
    })
}

/// The IDs of the workspace's members.
pub(crate) fn member_ids<'a>(metadata: Object<'_, 'a>) -> Result<Vec<&'a str>, Misfit>
    ensures { MatchResult result (λ ids. get (codes "workspace_members") (data_of metadata.entry)
        ≡ Some (list_of (map (λ id. id.now) ids.items)))
        (NoneIs (λ ids. get (codes "workspace_members") (data_of metadata.entry) ≡ Some (list_of ids))) }
{
    let value = metadata.required("workspace_members")?;
    texts_of(metadata.alloc, "workspace_members", value)
}

/// The set of these IDs.
pub(crate) fn set_of<'a>(alloc: Global, ids: &[&'a str]) -> Result<IndexSet<&'a str>, AllocError>
    ensures { IfOk result
        (λ set. (id : List ℕ) → is_in_set set id ≡ is_among (map (λ id. id.now) ids.now) id) }
{
    let mut set = IndexSet::with_capacity(alloc, ids.len())?;
    for id in ids {
        set.insert(*id)?;
    }
    Ok(set)
}
