//! The records that the lines of an input say.
ghost use Rattle.std.specs.Prelude.{◌≡◌, ◌++◌, [], ◌∷◌, string_bytes, IfOk, OnOk};
ghost use Rattle.guppy_data.specs.Records.{IsRequired};
ghost use Rattle.guppy_data.specs.declared.records.LinkRecord.{LinkRecord};
ghost use Rattle.guppy_data.specs.declared.records.PackageRecord.{PackageRecord};
ghost use Rattle.guppy_lines.specs.Reading.{AddsStatements};
ghost use Rattle.guppy_lines.specs.Records.{AreRecordsOf, IsPackageOf, IsLinkOf, IsWorkspace, status_in};
ghost use Rattle.guppy_lines.specs.Stated.{statement_shown};

use crate::statements::Statement;
use guppy_data::{
    DependencyKind, DependencyReqImpl, LinkRecord, PackageId, PackageRecord, PackageSourceRecord,
    Records, Utf8PathBuf, WorkspaceRecord,
};
use semver::{Version, VersionReq};
use std::alloc::{AllocError, Global};

/// The ID that a text is. Takes memory for a copy of it.
pub fn id_of(alloc: Global, text: &str) -> Result<PackageId, AllocError>
    ensures { IfOk result (λ id. id ≡ text.now) }
{
    Ok(PackageId::new(String::from_str(alloc, text)?))
}

fn path_of(alloc: Global, text: &str) -> Result<Utf8PathBuf, AllocError>
    ensures { IfOk result (λ path. path ≡ text.now) }
{
    Ok(Utf8PathBuf::new(String::from_str(alloc, text)?))
}

// Adds the record of the package with this ID. Its texts are copied first, so that the record, of a thousand bytes, is made
// in its place and not moved through results.
fn push_package(
    packages: &mut Vec<PackageRecord>,
    alloc: Global,
    id: &str,
) -> Result<(), AllocError>
    ensures { OnOk result ((made : PackageRecord)
        × (packages.new.items ≡ packages.old.items ++ made ∷ []) × IsPackageOf id.now made) }
{
    let name = String::from_str(alloc, id)?;
    let path = path_of(alloc, id)?;
    let id = id_of(alloc, id)?;
    let manifest_path = path_of(alloc, "Cargo.toml")?;
    let edition = String::from_str(alloc, "2021")?;
    packages.push(PackageRecord::new(
        alloc,
        id,
        name,
        Version::new(0, 0, 0),
        PackageSourceRecord::Workspace(path),
        manifest_path,
        edition,
    ))?;
    Ok(())
}

// What a line that names one section asks for in another, or in the same one.
fn section_requirement(
    alloc: Global,
    named: DependencyKind,
    section: DependencyKind,
) -> DependencyReqImpl
    ensures { IsRequired (status_in named section) result }
{
    if named == section {
        DependencyReqImpl::required(alloc)
    } else {
        DependencyReqImpl::never(alloc)
    }
}

// The record of the link with these ends and names in this section.
fn link_record(
    alloc: Global,
    from: PackageId,
    to: PackageId,
    dep_name: String,
    resolved_name: String,
    section: DependencyKind,
) -> LinkRecord
    requires dep_name { string_bytes dep_name ≡ to }
    requires resolved_name { string_bytes resolved_name ≡ to }
    ensures { IsLinkOf (record { from = from; to = to; section = section }) result }
{
    LinkRecord {
        from,
        to,
        dep_name,
        resolved_name,
        version_req: VersionReq::star(alloc),
        registry: None,
        path: None,
        normal: section_requirement(alloc, section, DependencyKind::Normal),
        build: section_requirement(alloc, section, DependencyKind::Build),
        dev: section_requirement(alloc, section, DependencyKind::Development),
    }
}

// Adds the record of the link from one package to another in this section. Its texts are copied first, as those of a package
// are, and its IDs one after the other, so that they lie side by side where the ends are looked up.
fn push_link(
    links: &mut Vec<LinkRecord>,
    alloc: Global,
    from: &str,
    to: &str,
    section: DependencyKind,
) -> Result<(), AllocError>
    ensures { OnOk result ((made : LinkRecord) × (links.new.items ≡ links.old.items ++ made ∷ [])
        × IsLinkOf (record { from = from.now; to = to.now; section = section }) made) }
{
    let dep_name = String::from_str(alloc, to)?;
    let resolved_name = String::from_str(alloc, to)?;
    let from = id_of(alloc, from)?;
    let to = id_of(alloc, to)?;
    links.push(link_record(alloc, from, to, dep_name, resolved_name, section))?;
    Ok(())
}

// The record of the workspace, which no line speaks of.
fn workspace_record(alloc: Global) -> Result<WorkspaceRecord, AllocError>
    ensures { IfOk result IsWorkspace }
{
    let root = path_of(alloc, "/")?;
    let target_directory = path_of(alloc, "/target")?;
    Ok(WorkspaceRecord::new(alloc, root, target_directory))
}

/// The records before any line. Takes memory for the paths of the workspace.
pub fn no_records(alloc: Global) -> Result<Records, AllocError>
    ensures { IfOk result (λ r. AreRecordsOf [] r.packages.items r.links.items r.workspace) }
{
    Ok(Records {
        packages: Vec::new(alloc),
        links: Vec::new(alloc),
        workspace: workspace_record(alloc)?,
    })
}

/// Adds the record that a line says. Takes memory for the record and copies of the line's IDs, and time
/// linear in their lengths.
pub fn add_statement(
    records: &mut Records,
    alloc: Global,
    statement: Statement<'_>,
) -> Result<(), AllocError>
    ensures { OnOk result
        (AddsStatements records.old records.new (statement_shown statement.entry ∷ [])) }
{
    match statement {
        Statement::Package(id) => push_package(&mut records.packages, alloc, id)?,
        Statement::Link(from, to, section) => {
            push_link(&mut records.links, alloc, from, to, section)?
        }
    }
    Ok(())
}
