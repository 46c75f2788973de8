//! The records that graphs are made of, from names and a table of links.
use guppy_data::{
    DependencyKind, DependencyReqImpl, LinkRecord, PackageId, PackageRecord, PackageSourceRecord,
    Records, Utf8PathBuf, WorkspaceRecord,
};
use semver::{Version, VersionReq};
use std::alloc::{AllocError, Global};

/// From which package a link leads to which, and in what section, if in one.
pub type Ends = (&'static str, &'static str, Option<DependencyKind>);

/// A copy of the text. Where no memory is found it is empty, but none is refused before a call.
pub fn copy_of(alloc: Global, text: &str) -> String {
    String::from_str(alloc, text).unwrap_or(String::new(alloc))
}

fn path_of(alloc: Global, text: &str) -> Utf8PathBuf {
    Utf8PathBuf::new(copy_of(alloc, text))
}

/// The ID that a text is.
pub fn id_of(alloc: Global, text: &str) -> PackageId {
    PackageId::new(copy_of(alloc, text))
}

// A member of the workspace, at the path that its name is.
fn package_of(alloc: Global, name: &str) -> PackageRecord {
    PackageRecord::new(
        alloc,
        id_of(alloc, name),
        copy_of(alloc, name),
        Version::new(0, 0, 0),
        PackageSourceRecord::Workspace(path_of(alloc, name)),
        path_of(alloc, "Cargo.toml"),
        copy_of(alloc, "2021"),
    )
}

fn section_of(alloc: Global, is_asked_for: bool) -> DependencyReqImpl {
    if is_asked_for {
        DependencyReqImpl::required(alloc)
    } else {
        DependencyReqImpl::never(alloc)
    }
}

fn link_of(alloc: Global, ends: &Ends) -> LinkRecord {
    let (from, to, section) = *ends;
    LinkRecord {
        from: id_of(alloc, from),
        to: id_of(alloc, to),
        dep_name: copy_of(alloc, to),
        resolved_name: copy_of(alloc, to),
        version_req: VersionReq::star(alloc),
        registry: None,
        path: None,
        normal: section_of(alloc, section == Some(DependencyKind::Normal)),
        build: section_of(alloc, section == Some(DependencyKind::Build)),
        dev: section_of(alloc, section == Some(DependencyKind::Development)),
    }
}

fn packages_of(alloc: Global, names: &[&str]) -> Result<Vec<PackageRecord>, AllocError> {
    let mut packages = Vec::new(alloc);
    for name in names {
        packages.push(package_of(alloc, name))?;
    }
    Ok(packages)
}

fn links_of(alloc: Global, ends: &[Ends]) -> Result<Vec<LinkRecord>, AllocError> {
    let mut links = Vec::new(alloc);
    for link in ends {
        links.push(link_of(alloc, link))?;
    }
    Ok(links)
}

/// The records of packages with these names, all of them members, and of links with these ends.
pub fn records_of(alloc: Global, names: &[&str], ends: &[Ends]) -> Result<Records, AllocError> {
    let links = links_of(alloc, ends)?;
    Ok(Records {
        packages: packages_of(alloc, names)?,
        links,
        workspace: WorkspaceRecord::new(alloc, path_of(alloc, "/"), path_of(alloc, "/target")),
    })
}
