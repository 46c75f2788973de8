//! A package's record with each field filled and read back.

use crate::cases::{hold, is_text};
use crate::owned::{id, path, text, texts};
use guppy_data::{
    BuildTargetId, BuildTargetKindRecord, BuildTargetRecord, NamedFeatureDep, OwnedBuildTargetId,
    PackagePublish, PackagePublishRecord, PackageRecord, PackageSource, PackageSourceRecord,
    Utf8Path, Utf8PathBuf,
};
use semver::Version;
use serde_json::Value;
use std::alloc::Global;
use std::process::Abort;

fn named(rt: &impl Abort, alloc: Global) -> Box<PackageRecord> {
    let id = id(rt, alloc, "path+file:///a#1.2.3");
    let name = text(rt, alloc, "a");
    let version = Version::new(1, 2, 3);
    let source = PackageSourceRecord::Workspace(path(rt, alloc, "a"));
    let manifest_path = path(rt, alloc, "a/Cargo.toml");
    let edition = text(rt, alloc, "2024");
    let package = PackageRecord::new(alloc, id, name, version, source, manifest_path, edition);
    Box::new(alloc, package).expect(rt, "a package")
}

fn fill_texts(rt: &impl Abort, alloc: Global, package: &mut PackageRecord) {
    package.description = Some(text(rt, alloc, "description"));
    package.license = Some(text(rt, alloc, "MIT"));
    package.repository = Some(text(rt, alloc, "repository"));
    package.homepage = Some(text(rt, alloc, "homepage"));
    package.documentation = Some(text(rt, alloc, "documentation"));
    package.links = Some(text(rt, alloc, "z"));
    package.default_run = Some(text(rt, alloc, "run"));
}

fn fill_values(rt: &impl Abort, alloc: Global, package: &mut PackageRecord) {
    package.license_file = Some(path(rt, alloc, "LICENSE"));
    package.readme = Some(path(rt, alloc, "README.md"));
    package.rust_version = Some(Version::new(1, 85, 0));
    package.metadata_table = Value::Bool(true);
}

fn fill_lists(rt: &impl Abort, alloc: Global, package: &mut PackageRecord) {
    package.authors = texts(rt, alloc, &["author"]);
    package.categories = texts(rt, alloc, &["category"]);
    package.keywords = texts(rt, alloc, &["keyword"]);
    package.publish = PackagePublishRecord::Registries(texts(rt, alloc, &["registry"]));
}

fn library(rt: &impl Abort, alloc: Global) -> BuildTargetRecord {
    BuildTargetRecord {
        id: OwnedBuildTargetId::Library,
        kind: BuildTargetKindRecord::ProcMacro,
        lib_name: Some(text(rt, alloc, "a")),
        required_features: Vec::new(alloc),
        path: path(rt, alloc, "a/src/lib.rs"),
        edition: text(rt, alloc, "2024"),
        doc_by_default: true,
        doctest_by_default: true,
        test_by_default: true,
    }
}

fn fill_tables(rt: &impl Abort, alloc: Global, package: &mut PackageRecord) {
    let dependency = NamedFeatureDep::OptionalDependency(text(rt, alloc, "o"));
    let mut dependencies = Vec::new(alloc);
    dependencies.push(dependency).expect(rt, "a dependency");
    let features = &mut package.named_features;
    features
        .insert(text(rt, alloc, "f"), dependencies)
        .expect(rt, "a feature");
    package
        .optional_deps
        .insert(text(rt, alloc, "o"))
        .expect(rt, "an optional dependency");
    package
        .build_targets
        .push(library(rt, alloc))
        .expect(rt, "a target");
}

fn is_some_text(rt: &impl Abort, name: &str, text: &Option<String>, wanted: &str) {
    match text {
        Some(text) => is_text(rt, name, text.as_str(), wanted),
        None => hold(rt, name, false),
    }
}

fn is_some_path(rt: &impl Abort, name: &str, path: &Option<Utf8PathBuf>, wanted: &str) {
    match path {
        Some(path) => is_text(rt, name, path.as_path().as_str(), wanted),
        None => hold(rt, name, false),
    }
}

fn texts_hold(rt: &impl Abort, package: &PackageRecord) {
    let manifest_path = package.manifest_path.as_path().as_str();
    is_text(rt, "id", package.id.repr(), "path+file:///a#1.2.3");
    is_text(rt, "name", package.name.as_str(), "a");
    is_text(rt, "edition", package.edition.as_str(), "2024");
    is_text(rt, "manifest_path", manifest_path, "a/Cargo.toml");
    is_some_text(rt, "description", &package.description, "description");
    is_some_text(rt, "license", &package.license, "MIT");
    is_some_path(rt, "license_file", &package.license_file, "LICENSE");
    is_some_path(rt, "readme", &package.readme, "README.md");
    is_some_text(rt, "repository", &package.repository, "repository");
    is_some_text(rt, "homepage", &package.homepage, "homepage");
    is_some_text(rt, "documentation", &package.documentation, "documentation");
    is_some_text(rt, "links", &package.links, "z");
    is_some_text(rt, "default_run", &package.default_run, "run");
}

fn is_list(rt: &impl Abort, name: &str, items: &[String], wanted: &str) {
    match items {
        [item] => is_text(rt, name, item.as_str(), wanted),
        _ => hold(rt, name, false),
    }
}

fn values_hold(rt: &impl Abort, package: &PackageRecord) {
    is_list(rt, "authors", &package.authors, "author");
    is_list(rt, "categories", &package.categories, "category");
    is_list(rt, "keywords", &package.keywords, "keyword");
    hold(rt, "version", package.version == Version::new(1, 2, 3));
    let source = PackageSource::new(&package.source);
    let wanted = PackageSource::Workspace(Utf8Path::new("a"));
    hold(rt, "source", source == wanted);
    let publish = PackagePublish::new(&package.publish);
    hold(rt, "publish", publish.can_publish_to("registry"));
    let is_table = package.metadata_table == Value::Bool(true);
    hold(rt, "metadata_table", is_table);
    let is_version = package.rust_version == Some(Version::new(1, 85, 0));
    hold(rt, "rust_version", is_version);
}

fn is_optional(dependencies: Option<&Vec<NamedFeatureDep>>) -> bool {
    match dependencies {
        Some(dependencies) => match dependencies.as_slice() {
            [NamedFeatureDep::OptionalDependency(name)] => name.as_str() == "o",
            _ => false,
        },
        None => false,
    }
}

fn tables_hold(rt: &impl Abort, package: &PackageRecord) {
    let dependencies = package.named_features.get("f");
    hold(rt, "named_features", is_optional(dependencies));
    hold(rt, "optional_deps", package.optional_deps.contains("o"));
    let [target] = package.build_targets.as_slice() else {
        panic!(rt; "build_targets");
    };
    let is_library = BuildTargetId::new(&target.id) == BuildTargetId::Library;
    hold(rt, "build_targets", is_library);
}

#[test]
fn filled_record(rt: HostRuntime) {
    let mut package = named(&rt, rt.alloc());
    fill_texts(&rt, rt.alloc(), &mut package);
    fill_values(&rt, rt.alloc(), &mut package);
    fill_lists(&rt, rt.alloc(), &mut package);
    fill_tables(&rt, rt.alloc(), &mut package);
    texts_hold(&rt, &package);
    values_hold(&rt, &package);
    tables_hold(&rt, &package);
}
