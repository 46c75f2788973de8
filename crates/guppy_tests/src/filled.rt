//! Records with each field filled.
use crate::records::{path, text};
use guppy::graph::{
    LinkRecord, NamedFeatureDep, PackagePublishRecord, PackageRecord, Records, WorkspaceRecord,
};
use guppy::{JsonValue, Version};
use std::alloc::Global;
use std::process::Abort;

fn list(rt: &impl Abort, alloc: Global, item: &str) -> Vec<String> {
    let mut items = Vec::new(alloc);
    items.push(text(rt, alloc, item)).expect(rt, item);
    items
}

fn fill_texts(rt: &impl Abort, alloc: Global, package: &mut PackageRecord) {
    package.description = Some(text(rt, alloc, "description"));
    package.license = Some(text(rt, alloc, "MIT"));
    package.links = Some(text(rt, alloc, "z"));
    package.default_run = Some(text(rt, alloc, "run"));
    package.repository = Some(text(rt, alloc, "repository"));
    package.homepage = Some(text(rt, alloc, "homepage"));
    package.documentation = Some(text(rt, alloc, "documentation"));
    package.edition = text(rt, alloc, "2024");
}

fn fill_paths(rt: &impl Abort, alloc: Global, package: &mut PackageRecord) {
    package.license_file = Some(path(rt, alloc, "LICENSE"));
    package.readme = Some(path(rt, alloc, "README.md"));
    package.manifest_path = path(rt, alloc, "a/Cargo.toml");
    package.rust_version = Some(Version::new(1, 85, 0));
    package.metadata_table = JsonValue::Bool(true);
}

fn fill_lists(rt: &impl Abort, alloc: Global, package: &mut PackageRecord) {
    package.authors = list(rt, alloc, "author");
    package.categories = list(rt, alloc, "category");
    package.keywords = list(rt, alloc, "keyword");
    package.publish = PackagePublishRecord::Registries(list(rt, alloc, "registry"));
}

fn fill_features(rt: &impl Abort, alloc: Global, package: &mut PackageRecord) {
    let mut deps = Vec::new(alloc);
    let dep = NamedFeatureDep::OptionalDependency(text(rt, alloc, "o"));
    deps.push(dep).expect(rt, "o");
    let features = &mut package.named_features;
    let inserted = features.insert(text(rt, alloc, "default"), deps);
    inserted.expect(rt, "default");
    let inserted = package.optional_deps.insert(text(rt, alloc, "o"));
    inserted.expect(rt, "o");
}

fn fill_link(rt: &impl Abort, alloc: Global, link: &mut LinkRecord) {
    link.dep_name = text(rt, alloc, "dep-name");
    link.resolved_name = text(rt, alloc, "dep_name");
    link.registry = Some(text(rt, alloc, "registry"));
    link.path = Some(path(rt, alloc, "../b"));
}

fn fill_workspace(rt: &impl Abort, alloc: Global, workspace: &mut WorkspaceRecord) {
    workspace.root = path(rt, alloc, "/w");
    workspace.target_directory = path(rt, alloc, "/w/target");
    workspace.build_directory = Some(path(rt, alloc, "/w/build"));
    workspace.metadata_table = JsonValue::Bool(false);
}

/// Fills the fields of the first package, the first link and the workspace.
pub(super) fn fill(rt: &impl Abort, alloc: Global, records: &mut Records) {
    if let Some(package) = records.packages.first_mut() {
        fill_texts(rt, alloc, package);
        fill_paths(rt, alloc, package);
        fill_lists(rt, alloc, package);
        fill_features(rt, alloc, package);
    }
    if let Some(link) = records.links.first_mut() {
        fill_link(rt, alloc, link);
    }
    fill_workspace(rt, alloc, &mut records.workspace);
}
