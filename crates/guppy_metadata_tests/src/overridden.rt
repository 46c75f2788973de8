//! A package that Cargo's configuration puts in another one's place by `paths`, whatever its version is.

use crate::reading::is_told;
use guppy::IntoGraph;
use guppy_data::LinkRecord;
use guppy_metadata::{Records, plain_records_of, records_of};
use std::alloc::Global;
use std::process::Abort;

// What Cargo 1.95 prints, without what nothing here reads, of a workspace with `paths = ["../override"]`: `dep` 2.0.0
// lies there, and all dependencies want 1.
const METADATA: &str = r#"{"packages": [
 {"name": "app", "version": "0.1.0", "id": "path+file:///w/app#0.1.0", "source": null,
  "dependencies": [
   {"name": "dep", "source": null, "req": "^1", "kind": null, "rename": null, "optional": false,
    "uses_default_features": true, "features": [], "target": null, "registry": null, "path": "/orig"},
   {"name": "dep", "source": null, "req": "^1", "kind": "dev", "rename": null, "optional": false,
    "uses_default_features": true, "features": ["std"], "target": null, "registry": null, "path": "/orig"},
   {"name": "dep", "source": null, "req": "^1.0", "kind": "build", "rename": null, "optional": false,
    "uses_default_features": true, "features": [], "target": "cfg(unix)", "registry": null, "path": "/orig"}],
  "targets": [{"kind": ["bin"], "crate_types": ["bin"], "name": "app", "src_path": "/w/app/src/main.rs",
   "edition": "2021", "doc": true, "doctest": false, "test": true}],
  "features": {}, "manifest_path": "/w/app/Cargo.toml", "metadata": null, "publish": null, "edition": "2021"},
 {"name": "dep", "version": "2.0.0", "id": "path+file:///override#dep@2.0.0", "source": null, "dependencies": [],
  "targets": [{"kind": ["lib"], "crate_types": ["lib"], "name": "dep", "src_path": "/override/src/lib.rs",
   "edition": "2021", "doc": true, "doctest": true, "test": true}],
  "features": {"std": []}, "manifest_path": "/override/Cargo.toml", "metadata": null, "publish": null,
  "edition": "2021"}],
"workspace_members": ["path+file:///w/app#0.1.0"], "workspace_default_members": ["path+file:///w/app#0.1.0"],
"resolve": {"nodes": [
 {"id": "path+file:///w/app#0.1.0", "dependencies": ["path+file:///override#dep@2.0.0"], "deps": [
   {"name": "dep", "pkg": "path+file:///override#dep@2.0.0", "dep_kinds": [{"kind": null, "target": null},
    {"kind": "dev", "target": null}, {"kind": "build", "target": "cfg(unix)"}]}], "features": []},
 {"id": "path+file:///override#dep@2.0.0", "dependencies": [], "deps": [], "features": ["std"]}], "root": null},
"target_directory": "/w/target", "build_directory": "/w/target", "version": 1, "workspace_root": "/w",
"metadata": null}"#;

// Two dependencies on a package without a library, of which the version alone tells one: what stands before the
// version, and what stands behind it.
const FRONT: &str = r#"{"packages": [
 {"name": "a", "version": "0.1.0", "id": "a", "source": null, "manifest_path": "/a/Cargo.toml", "edition": "2021",
  "targets": [], "features": {}, "dependencies": [
   {"name": "b", "req": "^1", "rename": "one"}, {"name": "b", "req": "^2", "rename": "two"}]},
 {"name": "b", "version": ""#;

const BACK: &str =
    r#"", "id": "b", "source": null, "manifest_path": "/b/Cargo.toml", "edition": "2021",
  "targets": [], "features": {}, "dependencies": []}],
"workspace_members": ["a"], "workspace_root": "/", "target_directory": "/target", "resolve": {"nodes": [
 {"id": "a", "deps": [{"name": "", "pkg": "b", "dep_kinds": [{"kind": null, "target": null}]}]},
 {"id": "b", "deps": []}]}}"#;

fn tells_the_version(rt: &impl Abort, alloc: Global, records: Records) {
    assert!(rt; records.links.len() == 1);
    let graph = records.into_graph().expect(rt, "a graph");
    match graph.verify() {
        Ok(()) => assert!(rt; false, "the version is not told"),
        Err(fault) => {
            let told = fault.to_string(alloc).expect(rt, "a text");
            let wanted =
                "internal error in package graph: version does not match requirement at link 0";
            assert!(rt; told.as_str() == wanted);
        }
    }
}

#[test]
fn overridden_packages_are_read(rt: HostRuntime) {
    let alloc = rt.alloc();
    let records = records_of(alloc, METADATA).expect(&rt, "records");
    tells_the_version(&rt, alloc, records);
    let records = plain_records_of(alloc, METADATA).expect(&rt, "plain records");
    tells_the_version(&rt, alloc, records);
}

// Versions of the package, and the name in the manifest of the dependency that takes each.
const TAKEN: &[(&str, &str)] = &[("1.5.0", "one"), ("2.0.0", "two")];

fn alike(rt: &impl Abort, alloc: Global, version: &str) -> String {
    format!(in alloc; "{FRONT}{version}{BACK}").expect(rt, "metadata")
}

fn are_named(rt: &impl Abort, links: &[LinkRecord], name: &str) {
    assert!(rt; links.len() == 1);
    for link in links {
        assert!(rt; link.dep_name.as_str() == name);
    }
}

#[test]
fn versions_tell_dependencies_apart(rt: HostRuntime) {
    let alloc = rt.alloc();
    for (version, name) in TAKEN {
        let json = alike(&rt, alloc, version);
        let records = records_of(alloc, json.as_str()).expect(&rt, "records");
        are_named(&rt, records.links.as_slice(), name);
    }
    let json = alike(&rt, alloc, "3.0.0");
    let wanted = "resolve.nodes[0].deps[0].pkg: no declared dependency fits";
    is_told(&rt, alloc, json.as_str(), wanted);
}
