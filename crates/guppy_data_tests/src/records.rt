//! Records as they are made: what was given, and nothing else.

use crate::cases::{hold, is_text};
use crate::owned::{id, path, text};
use guppy_data::{
    DependencyReq, DependencyReqImpl, LinkRecord, PackagePublish, PackageRecord, PackageSource,
    PackageSourceRecord, Utf8Path, WorkspaceRecord,
};
use semver::{Version, VersionReq};
use serde_json::Value;
use std::alloc::Global;
use std::process::Abort;

fn package(rt: &impl Abort, alloc: Global) -> Box<PackageRecord> {
    let id = id(rt, alloc, "a 1.2.3");
    let name = text(rt, alloc, "a");
    let version = Version::new(1, 2, 3);
    let source = PackageSourceRecord::Path(path(rt, alloc, "../a"));
    let manifest_path = path(rt, alloc, "../a/Cargo.toml");
    let edition = text(rt, alloc, "2021");
    let package = PackageRecord::new(alloc, id, name, version, source, manifest_path, edition);
    Box::new(alloc, package).expect(rt, "a package")
}

fn given_is_there(rt: &impl Abort, package: &PackageRecord) {
    let manifest_path = package.manifest_path.as_path().as_str();
    is_text(rt, "id", package.id.repr(), "a 1.2.3");
    is_text(rt, "name", package.name.as_str(), "a");
    is_text(rt, "manifest_path", manifest_path, "../a/Cargo.toml");
    is_text(rt, "edition", package.edition.as_str(), "2021");
    hold(rt, "version", package.version == Version::new(1, 2, 3));
    let source = PackageSource::new(&package.source);
    let wanted = PackageSource::Path(Utf8Path::new("../a"));
    hold(rt, "source", source == wanted);
}

fn rest_is_empty(rt: &impl Abort, package: &PackageRecord) {
    hold(rt, "authors", package.authors.is_empty());
    hold(rt, "categories", package.categories.is_empty());
    hold(rt, "keywords", package.keywords.is_empty());
    hold(rt, "features", package.named_features.is_empty());
    hold(rt, "optional_deps", package.optional_deps.is_empty());
    hold(rt, "build_targets", package.build_targets.is_empty());
    hold(rt, "metadata_table", package.metadata_table == Value::Null);
    let publish = PackagePublish::new(&package.publish);
    hold(rt, "publish", publish.is_unrestricted());
    hold(rt, "description", package.description.is_none());
    hold(rt, "license", package.license.is_none());
    hold(rt, "license_file", package.license_file.is_none());
    hold(rt, "readme", package.readme.is_none());
    hold(rt, "repository", package.repository.is_none());
    hold(rt, "homepage", package.homepage.is_none());
    hold(rt, "documentation", package.documentation.is_none());
    hold(rt, "links", package.links.is_none());
    hold(rt, "default_run", package.default_run.is_none());
    hold(rt, "rust_version", package.rust_version.is_none());
}

#[test]
fn package_made(rt: HostRuntime) {
    let package = package(&rt, rt.alloc());
    given_is_there(&rt, &package);
    rest_is_empty(&rt, &package);
}

fn link(rt: &impl Abort, alloc: Global) -> Box<LinkRecord> {
    let from = id(rt, alloc, "a");
    let to = id(rt, alloc, "b");
    let dep_name = text(rt, alloc, "b-dep");
    let resolved_name = text(rt, alloc, "b_dep");
    let version_req = VersionReq::star(alloc);
    let link = LinkRecord::new(alloc, from, to, dep_name, resolved_name, version_req);
    Box::new(alloc, link).expect(rt, "a link")
}

fn is_absent(rt: &impl Abort, name: &str, req: &DependencyReqImpl) {
    hold(rt, name, !DependencyReq::new(req).is_present());
}

fn link_holds(rt: &impl Abort, link: &LinkRecord) {
    is_text(rt, "from", link.from.repr(), "a");
    is_text(rt, "to", link.to.repr(), "b");
    is_text(rt, "dep_name", link.dep_name.as_str(), "b-dep");
    is_text(rt, "resolved_name", link.resolved_name.as_str(), "b_dep");
    let is_any = link.version_req.matches(&Version::new(9, 0, 0));
    hold(rt, "version_req", is_any);
    hold(rt, "registry", link.registry.is_none());
    hold(rt, "path", link.path.is_none());
    is_absent(rt, "normal", &link.normal);
    is_absent(rt, "build", &link.build);
    is_absent(rt, "dev", &link.dev);
}

#[test]
fn link_made(rt: HostRuntime) {
    let link = link(&rt, rt.alloc());
    link_holds(&rt, &link);
}

fn workspace_holds(rt: &impl Abort, workspace: &WorkspaceRecord) {
    is_text(rt, "root", workspace.root.as_path().as_str(), "/w");
    let target_directory = workspace.target_directory.as_path().as_str();
    is_text(rt, "target_directory", target_directory, "/t");
    hold(rt, "build_directory", workspace.build_directory.is_none());
    hold(
        rt,
        "metadata_table",
        workspace.metadata_table == Value::Null,
    );
    hold(rt, "default_members", workspace.default_members.is_empty());
}

#[test]
fn workspace_made(rt: HostRuntime) {
    let root = path(&rt, rt.alloc(), "/w");
    let target_directory = path(&rt, rt.alloc(), "/t");
    let workspace = WorkspaceRecord::new(rt.alloc(), root, target_directory);
    workspace_holds(&rt, &workspace);
}
