//! States of a workspace, written as a line of words.
//!
//! | written | what it is |
//! |---|---|
//! | `+a` | a member with this ID, at this path, with a library |
//! | `b@1` | a package with this ID, from crates.io, with a library |
//! | `f=g,dep:x` | the package before it has this feature, with these values |
//! | `?x` | it has an optional dependency that it calls so |
//! | `a>b` | a link: `a` needs `b`, under this name, with its default features |
//! | `a>b:dev:opt` | in its section for development or, with `build`, for building; as an optional one |
//! | `a>b:as=x` | under another name |
//! | `a>b:on=cfg(unix)` | on some platforms alone |
//! | `a>b:with=f`, `a>b:bare` | also with this feature; without the default ones |
use guppy_data::{
    BuildTargetKindRecord, BuildTargetRecord, DepRequiredOrOptional, DependencyReqImpl, LinkRecord,
    NamedFeatureDep, OwnedBuildTargetId, PackageId, PackageRecord, PackageSourceRecord,
    PlatformSpec, PlatformStatusImpl, SortedSet, TargetSpec, Utf8PathBuf, WorkspaceRecord,
};
use guppy_graph::RecordGraph;
use guppy_target::Platform;
use semver::{Version, VersionReq};
use std::alloc::Global;
use std::process::Abort;

fn text(rt: &impl Abort, alloc: Global, text: &str) -> String {
    String::from_str(alloc, text).expect(rt, text)
}

fn id(rt: &impl Abort, alloc: Global, id: &str) -> PackageId {
    PackageId::new(text(rt, alloc, id))
}

fn path(rt: &impl Abort, alloc: Global, path: &str) -> Utf8PathBuf {
    Utf8PathBuf::new(text(rt, alloc, path))
}

// The library of a package.
fn library(rt: &impl Abort, alloc: Global) -> BuildTargetRecord {
    BuildTargetRecord {
        id: OwnedBuildTargetId::Library,
        kind: BuildTargetKindRecord::LibraryOrExample(SortedSet::new(Vec::new(alloc))),
        lib_name: Some(text(rt, alloc, "library")),
        required_features: Vec::new(alloc),
        path: path(rt, alloc, "src/lib.rs"),
        edition: String::new(alloc),
        doc_by_default: true,
        doctest_by_default: true,
        test_by_default: true,
    }
}

fn add_package(
    rt: &impl Abort,
    alloc: Global,
    packages: &mut Vec<PackageRecord>,
    word: &str,
    source: PackageSourceRecord,
) {
    let mut package = PackageRecord::new(
        alloc,
        id(rt, alloc, word),
        text(rt, alloc, word),
        Version::new(1, 0, 0),
        source,
        path(rt, alloc, "Cargo.toml"),
        String::new(alloc),
    );
    let target = library(rt, alloc);
    package.build_targets.push(target).expect(rt, word);
    packages.push(package).expect(rt, word);
}

fn values_of(rt: &impl Abort, alloc: Global, texts: &str) -> Vec<NamedFeatureDep> {
    let mut values = Vec::new(alloc);
    for text in texts.split(',') {
        if !text.is_empty() {
            let value = NamedFeatureDep::from_text(alloc, text).expect(rt, text);
            values.push(value).expect(rt, text);
        }
    }
    values
}

fn add_feature(rt: &impl Abort, alloc: Global, package: &mut PackageRecord, word: &str) {
    let (name, texts) = word.split_once('=').unwrap_or((word, ""));
    let values = values_of(rt, alloc, texts);
    let features = &mut package.named_features;
    let inserted = features.insert(text(rt, alloc, name), values);
    inserted.expect(rt, word);
}

fn add_optional(rt: &impl Abort, alloc: Global, package: &mut PackageRecord, name: &str) {
    let inserted = package.optional_deps.insert(text(rt, alloc, name));
    inserted.expect(rt, name);
}

// Adds the feature or, of a word with `?`, the optional dependency.
fn add_to_package(rt: &impl Abort, alloc: Global, package: &mut PackageRecord, word: &str) {
    match word.strip_prefix('?') {
        Some(name) => add_optional(rt, alloc, package, name),
        None => add_feature(rt, alloc, package, word),
    }
}

fn add_to_last(rt: &impl Abort, alloc: Global, packages: &mut [PackageRecord], word: &str) {
    if let Some(package) = packages.last_mut() {
        add_to_package(rt, alloc, package, word);
    }
}

/// What is written of a link.
#[derive(Clone, Copy)]
struct Marks<'a> {
    section: &'a str,
    name: &'a str,
    on: &'a str,
    with: &'a str,
    is_optional: bool,
    is_bare: bool,
}

// The marks with one more.
fn with_mark<'a>(marks: Marks<'a>, mark: &'a str) -> Marks<'a> {
    let mut marks = marks;
    match mark.split_once('=') {
        Some(("as", name)) => marks.name = name,
        Some(("on", on)) => marks.on = on,
        Some(("with", feature)) => marks.with = feature,
        _ => match mark {
            "opt" => marks.is_optional = true,
            "bare" => marks.is_bare = true,
            _ => marks.section = mark,
        },
    }
    marks
}

// The marks that are written behind the first colon.
fn marks_of<'a>(name: &'a str, written: &'a str) -> Marks<'a> {
    let mut marks = Marks {
        section: "",
        name,
        on: "",
        with: "",
        is_optional: false,
        is_bare: false,
    };
    for mark in written.split(':') {
        if !mark.is_empty() {
            marks = with_mark(marks, mark);
        }
    }
    marks
}

// On which platforms the marks say that something is there.
fn status_of(rt: &impl Abort, alloc: Global, on: &str) -> PlatformStatusImpl {
    if on.is_empty() {
        return PlatformStatusImpl::Always;
    }
    let mut status = PlatformStatusImpl::never(alloc);
    let spec = TargetSpec::new(text(rt, alloc, on));
    status.add_spec(Some(&spec)).expect(rt, on);
    status
}

fn part_of(rt: &impl Abort, alloc: Global, marks: Marks<'_>) -> DepRequiredOrOptional {
    let mut part = DepRequiredOrOptional::never(alloc);
    part.build_if = status_of(rt, alloc, marks.on);
    if !marks.is_bare {
        part.default_features_if = status_of(rt, alloc, marks.on);
    }
    if !marks.with.is_empty() {
        let status = status_of(rt, alloc, marks.on);
        let features = &mut part.feature_targets;
        let inserted: Result<_, _> = features.insert(text(rt, alloc, marks.with), status);
        inserted.expect(rt, marks.with);
    }
    part
}

fn section_of(rt: &impl Abort, alloc: Global, marks: Marks<'_>) -> DependencyReqImpl {
    let mut section = DependencyReqImpl::never(alloc);
    let part = part_of(rt, alloc, marks);
    if marks.is_optional {
        section.optional = part;
    } else {
        section.required = part;
    }
    section
}

fn put_section(link: &mut LinkRecord, name: &str, section: DependencyReqImpl) {
    match name {
        "dev" => link.dev = section,
        "build" => link.build = section,
        _ => link.normal = section,
    }
}

fn add_link(
    rt: &impl Abort,
    alloc: Global,
    links: &mut Vec<LinkRecord>,
    from: &str,
    to: &str,
    marks: Marks<'_>,
) {
    let mut link = LinkRecord::new(
        alloc,
        id(rt, alloc, from),
        id(rt, alloc, to),
        text(rt, alloc, marks.name),
        text(rt, alloc, marks.name),
        VersionReq::star(alloc),
    );
    put_section(&mut link, marks.section, section_of(rt, alloc, marks));
    links.push(link).expect(rt, from);
}

fn add_link_word(
    rt: &impl Abort,
    alloc: Global,
    links: &mut Vec<LinkRecord>,
    from: &str,
    rest: &str,
) {
    let (to, written) = rest.split_once(':').unwrap_or((rest, ""));
    add_link(rt, alloc, links, from, to, marks_of(to, written));
}

fn add_word(
    rt: &impl Abort,
    alloc: Global,
    packages: &mut Vec<PackageRecord>,
    links: &mut Vec<LinkRecord>,
    word: &str,
) {
    if let Some((from, rest)) = word.split_once('>') {
        add_link_word(rt, alloc, links, from, rest);
    } else if let Some(member) = word.strip_prefix('+') {
        let source = PackageSourceRecord::Workspace(path(rt, alloc, member));
        add_package(rt, alloc, packages, member, source);
    } else if word.contains('=') || word.starts_with('?') {
        add_to_last(rt, alloc, packages, word);
    } else {
        let source = "registry+https://github.com/rust-lang/crates.io-index";
        let source = PackageSourceRecord::External(text(rt, alloc, source));
        add_package(rt, alloc, packages, word, source);
    }
}

/// The graph that is written.
pub(super) fn graph_of(rt: &impl Abort, alloc: Global, state: &str) -> RecordGraph {
    let mut packages = Vec::new(alloc);
    let mut links = Vec::new(alloc);
    for word in state.split(' ') {
        add_word(rt, alloc, &mut packages, &mut links, word);
    }
    let workspace = WorkspaceRecord::new(
        alloc,
        path(rt, alloc, "/w"),
        path(rt, alloc, "/w/target"),
    );
    RecordGraph::from_records(packages, links, workspace).expect(rt, state)
}

/// A platform on which `unix` is set and nothing else.
pub(super) fn unix(rt: &impl Abort, alloc: Global) -> PlatformSpec<Platform> {
    let platform = Platform::new(alloc, "unix", "unix").expect(rt, "a platform");
    PlatformSpec::one(alloc, platform).expect(rt, "a platform")
}
