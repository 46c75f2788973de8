//! Where a package may be published, and where it comes from.

use crate::cases::hold;
use crate::owned::{path, text, texts};
use crate::printed::prints;
use guppy_data::{
    ExternalSource, PackagePublish, PackagePublishRecord, PackageSource, PackageSourceRecord,
    Utf8Path,
};
use std::alloc::Global;
use std::process::Abort;

// The registries that a package may be published to, where it isn't unrestricted.
struct Publish {
    registries: Option<&'static [&'static str]>,
    is_never: bool,
    to_crates_io: bool,
    to_another: bool,
}

const PUBLISH_RULES: &[Publish] = &[
    Publish {
        registries: None,
        is_never: false,
        to_crates_io: true,
        to_another: true,
    },
    Publish {
        registries: Some(&["crates-io"]),
        is_never: false,
        to_crates_io: true,
        to_another: false,
    },
    Publish {
        registries: Some(&[]),
        is_never: true,
        to_crates_io: false,
        to_another: false,
    },
];

fn publish_holds(rt: &impl Abort, publish: PackagePublish<'_>, rule: &Publish) {
    let is_unrestricted = rule.registries.is_none();
    hold(
        rt,
        "unrestricted",
        publish.is_unrestricted() == is_unrestricted,
    );
    hold(rt, "never", publish.is_never() == rule.is_never);
    let is_empty = publish == PackagePublish::Registries(&[]);
    hold(rt, "empty", is_empty == rule.is_never);
    let to_crates_io = publish.can_publish_to_crates_io();
    hold(rt, "to crates.io", to_crates_io == rule.to_crates_io);
    let to_crates_io = publish.can_publish_to("crates-io");
    hold(rt, "crates-io", to_crates_io == rule.to_crates_io);
    let to_crates_io = publish.can_publish_to(PackagePublish::CRATES_IO);
    hold(rt, "CRATES_IO", to_crates_io == rule.to_crates_io);
    let to_another = publish.can_publish_to("my-registry");
    hold(rt, "my-registry", to_another == rule.to_another);
}

#[test]
fn publish_rules(rt: HostRuntime) {
    for rule in PUBLISH_RULES {
        let record = match rule.registries {
            Some(registries) => {
                PackagePublishRecord::Registries(texts(&rt, rt.alloc(), registries))
            }
            None => PackagePublishRecord::Unrestricted,
        };
        publish_holds(&rt, PackagePublish::new(&record), rule);
    }
}

enum From {
    Workspace,
    Path,
    External,
}

// A source, which prints as its text, and the path of a member that it equals where it is one.
struct Source {
    name: &'static str,
    from: From,
    text: &'static str,
    member: &'static str,
    workspace_path: Option<&'static str>,
    local_path: Option<&'static str>,
    external: Option<&'static str>,
    parsed: Option<ExternalSource<'static>>,
    is_crates_io: bool,
}

const SOURCES: &[Source] = &[
    Source {
        name: "member_source",
        from: From::Workspace,
        text: "a/b",
        member: "a/./b",
        workspace_path: Some("a/b"),
        local_path: Some("a/b"),
        external: None,
        parsed: None,
        is_crates_io: false,
    },
    Source {
        name: "path_source",
        from: From::Path,
        text: "../c",
        member: "../c",
        workspace_path: None,
        local_path: Some("../c"),
        external: None,
        parsed: None,
        is_crates_io: false,
    },
    Source {
        name: "external_source",
        from: From::External,
        text: "registry+https://github.com/rust-lang/crates.io-index",
        member: "registry+https://github.com/rust-lang/crates.io-index",
        workspace_path: None,
        local_path: None,
        external: Some(PackageSource::CRATES_IO_REGISTRY),
        parsed: Some(ExternalSource::Registry(ExternalSource::CRATES_IO_URL)),
        is_crates_io: true,
    },
    Source {
        name: "external_source",
        from: From::External,
        text: "registry+https://github.com/rust-lang/crates.io-index2",
        member: "registry+https://github.com/rust-lang/crates.io-index2",
        workspace_path: None,
        local_path: None,
        external: Some("registry+https://github.com/rust-lang/crates.io-index2"),
        parsed: Some(ExternalSource::Registry("https://github.com/rust-lang/crates.io-index2")),
        is_crates_io: false,
    },
];

fn source_record(rt: &impl Abort, alloc: Global, source: &Source) -> PackageSourceRecord {
    match source.from {
        From::Workspace => PackageSourceRecord::Workspace(path(rt, alloc, source.text)),
        From::Path => PackageSourceRecord::Path(path(rt, alloc, source.text)),
        From::External => PackageSourceRecord::External(text(rt, alloc, source.text)),
    }
}

fn is_at(path: Option<Utf8Path<'_>>, wanted: Option<&str>) -> bool {
    match path {
        Some(path) => wanted == Some(path.as_str()),
        None => wanted.is_none(),
    }
}

fn source_holds(rt: &impl Abort, source: PackageSource<'_>, wanted: &Source) {
    let name = wanted.name;
    let is_member = matches!(wanted.from, From::Workspace);
    let is_path = matches!(wanted.from, From::Path);
    let is_external = matches!(wanted.from, From::External);
    hold(rt, name, source.is_workspace() == is_member);
    hold(rt, name, source.is_path() == is_path);
    hold(rt, name, source.is_external() == is_external);
    let is_local = wanted.local_path.is_some();
    hold(rt, name, source.is_local() == is_local);
    hold(rt, name, source.is_crates_io() == wanted.is_crates_io);
    let is_at_path = is_at(source.workspace_path(), wanted.workspace_path);
    hold(rt, name, is_at_path);
    hold(rt, name, is_at(source.local_path(), wanted.local_path));
    hold(rt, name, source.external_source() == wanted.external);
    hold(rt, name, source.parse_external() == wanted.parsed);
    let member = PackageSource::Workspace(Utf8Path::new(wanted.member));
    assert!(rt; (source == member) == is_member, "equal_sources: {name}");
}

#[test]
fn sources(rt: HostRuntime) {
    for wanted in SOURCES {
        let record = source_record(&rt, rt.alloc(), wanted);
        let source = PackageSource::new(&record);
        source_holds(&rt, source, wanted);
        prints(&rt, rt.alloc(), wanted.name, source, wanted.text);
    }
}
