//! Which sections of a link are on for a platform.

use guppy::IntoGraph;
use guppy::platform::{EnabledTernary, PlatformSpec};
use guppy_extras::{SectionsOn, sections_on};
use guppy_metadata::records_of;
use guppy_target::{CfgEval, Platform};
use std::process::Abort;

// A link that is normal on Windows, optional to build on Unix, and for development where nobody can tell.
const METADATA: &str = r#"{"packages": [
 {"name": "a", "version": "0.1.0", "id": "a", "source": null, "manifest_path": "/a/Cargo.toml", "edition": "2021",
  "targets": [], "features": {}, "dependencies": [
   {"name": "b", "req": "*", "kind": null, "optional": false, "target": "cfg(windows)"},
   {"name": "b", "req": "*", "kind": "build", "optional": true, "target": "cfg(unix)"},
   {"name": "b", "req": "*", "kind": "dev", "optional": false, "target": "cfg("}]},
 {"name": "b", "version": "0.1.0", "id": "b", "source": null, "manifest_path": "/b/Cargo.toml", "edition": "2021",
  "targets": [], "features": {}, "dependencies": []}],
"workspace_members": ["a", "b"], "workspace_root": "/", "target_directory": "/target", "resolve": {"nodes": [
 {"id": "a", "deps": [{"name": "b", "pkg": "b", "dep_kinds": [
   {"kind": null, "target": "cfg(windows)"}, {"kind": "build", "target": "cfg(unix)"},
   {"kind": "dev", "target": "cfg("}]}]},
 {"id": "b", "deps": []}]}}"#;

#[test]
fn sections(rt: HostRuntime) {
    let alloc = rt.alloc();
    let records = records_of(alloc, METADATA).expect(&rt, "records");
    let graph = records.into_graph().expect(&rt, "a graph");
    let platform = Platform::new(alloc, "linux", "unix").expect(&rt, "a platform");
    let on_linux = PlatformSpec::one(alloc, platform).expect(&rt, "a question");
    let workspace = graph.workspace();
    let package = workspace.member_by_name("a").expect(&rt, "a member");
    let wanted = SectionsOn {
        normal: EnabledTernary::Disabled,
        build: EnabledTernary::Enabled,
        dev: EnabledTernary::Unknown,
    };
    let link = package.direct_links().next();
    let on = link.map(|link| sections_on(link, &on_linux, &CfgEval));
    assert_eq!(rt; on, Some(wanted));
}
