//! Records, written as a line of text.
//!
//! Packages stand in their order, and links after a colon: `a b c: a>b b~c`. Of packages:
//!
//! | written | what it is |
//! |---|---|
//! | `a` | a package with this ID and name, which is no member of the workspace, at its root |
//! | `a=n` | the ID and another name |
//! | `a=n@p` | a member: the ID, its name, and the path where it stands |
//! | `@p` | a member whose ID and name are its path |
//! | `%a` | a package with this ID and name, from crates.io |
//! | `$p` | a package whose ID, name and path are this, and which is no member |
//! | `a#1.0.0` | a package of this version, where the others have 1.2.3 |
//! | `+bin=b` | a build target of the package before it; also `+test=t`, and `+lib` with a name or without |
//! | `+test=t@p` | the same, and the path of its source |
//! | `+macro=m` | a library of the kind of a procedural macro |
//! | `+misfit=t` | a test target of a library's kind |
//! | `!a` | a default member |
//! | `chain*9` | p0 to p8, with a link from each to the next |
//! | `ring*9` | the same, and a link from the last to the first |
//! | `backwards*9` | p0 to p8, with a link from each to the one before it |
//! | `complete*9` | p0 to p8, with a link from each to each |
//!
//! A link `a>b` has a normal section, `a~b` one for development, `a+b` those for building and
//! development, and `a-b` none. It takes any version, and `a>b#^1` those that meet the requirement.
//! `filled` fills each field of the first package, the first link and the workspace.
use crate::filled::fill;
use guppy::graph::{
    BuildTargetKindRecord, BuildTargetRecord, DependencyReqImpl, IntoGraph, LinkRecord,
    OwnedBuildTargetId, PackageRecord, PackageSourceRecord, Records, WorkspaceRecord,
};
use guppy::{Error, PackageGraph, PackageId, SortedSet, Utf8PathBuf, Version, VersionReq};
use std::alloc::{AllocError, Global};
use std::process::Abort;

pub(super) fn text(rt: &impl Abort, alloc: Global, text: &str) -> String {
    String::from_str(alloc, text).expect(rt, text)
}

fn id(rt: &impl Abort, alloc: Global, id: &str) -> PackageId {
    PackageId::new(text(rt, alloc, id))
}

/// The package IDs of these texts.
pub(super) fn ids(rt: &impl Abort, alloc: Global, texts: &[&str]) -> Vec<PackageId> {
    let mut ids = Vec::new(alloc);
    for text in texts {
        ids.push(id(rt, alloc, text)).expect(rt, text);
    }
    ids
}

pub(super) fn path(rt: &impl Abort, alloc: Global, path: &str) -> Utf8PathBuf {
    Utf8PathBuf::new(text(rt, alloc, path))
}

fn no_path(alloc: Global) -> Utf8PathBuf {
    Utf8PathBuf::new(String::new(alloc))
}

// Required everywhere, or asked for nowhere.
fn section(alloc: Global, is_present: bool) -> DependencyReqImpl {
    if is_present {
        DependencyReqImpl::required(alloc)
    } else {
        DependencyReqImpl::never(alloc)
    }
}

// Where the package of a word without its version is from.
fn source_of(rt: &impl Abort, alloc: Global, word: &str) -> PackageSourceRecord {
    if let Some((_, place)) = word.split_once('@') {
        PackageSourceRecord::Workspace(path(rt, alloc, place))
    } else if word.starts_with('%') {
        let source = "registry+https://github.com/rust-lang/crates.io-index";
        PackageSourceRecord::External(text(rt, alloc, source))
    } else {
        let place = word.strip_prefix('$').unwrap_or("");
        PackageSourceRecord::Path(path(rt, alloc, place))
    }
}

// The ID and name of a package without its version.
fn names_of(word: &str) -> (&str, &str) {
    let word = word
        .trim_start_matches('@')
        .trim_start_matches('%')
        .trim_start_matches('$');
    let (id, name) = word.split_once('=').unwrap_or((word, word));
    let (name, _place) = name.split_once('@').unwrap_or((name, ""));
    (id, name)
}

// Adds the package of a word without its version.
fn add_package(
    rt: &impl Abort,
    alloc: Global,
    packages: &mut Vec<PackageRecord>,
    word: &str,
    version: Version,
) {
    let (id_text, name) = names_of(word);
    let package = PackageRecord::new(
        alloc,
        id(rt, alloc, id_text),
        text(rt, alloc, name),
        version,
        source_of(rt, alloc, word),
        no_path(alloc),
        String::new(alloc),
    );
    packages.push(package).expect(rt, name);
}

fn target_id(rt: &impl Abort, alloc: Global, kind: &str, name: &str) -> OwnedBuildTargetId {
    match kind {
        "bin" => OwnedBuildTargetId::Binary(text(rt, alloc, name)),
        "test" | "misfit" => OwnedBuildTargetId::Test(text(rt, alloc, name)),
        _ => OwnedBuildTargetId::Library,
    }
}

fn target_kind(alloc: Global, kind: &str) -> BuildTargetKindRecord {
    match kind {
        "macro" => BuildTargetKindRecord::ProcMacro,
        "misfit" => BuildTargetKindRecord::LibraryOrExample(SortedSet::new(Vec::new(alloc))),
        _ => BuildTargetKindRecord::Binary,
    }
}

// A library has its own name where one is written.
fn lib_name(rt: &impl Abort, alloc: Global, kind: &str, name: &str) -> Option<String> {
    match (kind, name) {
        ("bin" | "test" | "misfit", _) | (_, "") => None,
        _ => Some(text(rt, alloc, name)),
    }
}

// The build target of a word without its plus.
fn target_of(rt: &impl Abort, alloc: Global, word: &str) -> BuildTargetRecord {
    let (word, place) = word.split_once('@').unwrap_or((word, ""));
    let (kind, name) = word.split_once('=').unwrap_or((word, ""));
    BuildTargetRecord {
        id: target_id(rt, alloc, kind, name),
        kind: target_kind(alloc, kind),
        lib_name: lib_name(rt, alloc, kind, name),
        required_features: Vec::new(alloc),
        path: path(rt, alloc, place),
        edition: String::new(alloc),
        doc_by_default: false,
        doctest_by_default: false,
        test_by_default: false,
    }
}

fn push_target(rt: &impl Abort, alloc: Global, targets: &mut Vec<BuildTargetRecord>, word: &str) {
    targets.push(target_of(rt, alloc, word)).expect(rt, word);
}

// Adds the build target to the last package.
fn add_target(rt: &impl Abort, alloc: Global, packages: &mut Vec<PackageRecord>, word: &str) {
    if let Some(package) = packages.last_mut() {
        push_target(rt, alloc, &mut package.build_targets, word);
    }
}

fn add_package_word(rt: &impl Abort, alloc: Global, packages: &mut Vec<PackageRecord>, word: &str) {
    let (word, version) = word.split_once('#').unwrap_or((word, "1.2.3"));
    let version = Version::parse(alloc, version).expect(rt, version);
    add_package(rt, alloc, packages, word, version);
}

// The parts of a link without its requirement, and in which sections it is: normal, build, dev.
fn ends_of(ends: &str) -> (&str, &str, [bool; 3]) {
    if let Some((from, to)) = ends.split_once('>') {
        (from, to, [true, false, false])
    } else if let Some((from, to)) = ends.split_once('~') {
        (from, to, [false, false, true])
    } else if let Some((from, to)) = ends.split_once('+') {
        (from, to, [false, true, true])
    } else {
        let (from, to) = ends.split_once('-').unwrap_or((ends, "no other end"));
        (from, to, [false, false, false])
    }
}

fn add_link(
    rt: &impl Abort,
    alloc: Global,
    links: &mut Vec<LinkRecord>,
    ends: (&str, &str, [bool; 3]),
    version_req: VersionReq,
) {
    let (from, to, [normal, build, dev]) = ends;
    let link = LinkRecord {
        from: id(rt, alloc, from),
        to: id(rt, alloc, to),
        dep_name: String::new(alloc),
        resolved_name: String::new(alloc),
        version_req,
        registry: None,
        path: None,
        normal: section(alloc, normal),
        build: section(alloc, build),
        dev: section(alloc, dev),
    };
    links.push(link).expect(rt, from);
}

fn add_link_word(rt: &impl Abort, alloc: Global, links: &mut Vec<LinkRecord>, word: &str) {
    let (ends, requirement) = word.split_once('#').unwrap_or((word, "*"));
    let requirement = VersionReq::parse(alloc, requirement).expect(rt, requirement);
    add_link(rt, alloc, links, ends_of(ends), requirement);
}

fn link_count(shape: &str, count: usize) -> usize {
    match shape {
        "complete" => count.saturating_mul(count),
        "ring" => count,
        _ => count.saturating_sub(1),
    }
}

// The ends of the link of this number. A chain that is listed backwards begins at the last position.
fn shape_ends(shape: &str, count: usize, number: usize) -> (usize, usize) {
    let next = number.saturating_add(1);
    match shape {
        "complete" => (number / count.max(1), number % count.max(1)),
        "backwards" => (next, number),
        _ => (number, next % count.max(1)),
    }
}

/// The links of this shape between so many positions: from, to, and that it isn't dev-only.
pub(super) fn shape_of(
    rt: &impl Abort,
    alloc: Global,
    shape: &str,
    count: usize,
) -> Vec<(usize, usize, bool)> {
    let mut links = Vec::new(alloc);
    for number in 0..link_count(shape, count) {
        let (from, to) = shape_ends(shape, count, number);
        links.push((from, to, false)).expect(rt, shape);
    }
    links
}

pub(super) fn numbered_name(rt: &impl Abort, alloc: Global, position: usize) -> String {
    let name: Result<String, AllocError> = format!(in alloc; "p{position}");
    name.expect(rt, "a name")
}

/// The IDs of p0 and so on, so many.
pub(super) fn numbered_ids(rt: &impl Abort, alloc: Global, count: usize) -> Vec<PackageId> {
    let mut ids = Vec::new(alloc);
    for position in 0..count {
        let id = PackageId::new(numbered_name(rt, alloc, position));
        ids.push(id).expect(rt, "IDs");
    }
    ids
}

// Adds p0 and so on, so many.
fn add_numbered(rt: &impl Abort, alloc: Global, packages: &mut Vec<PackageRecord>, count: usize) {
    for position in 0..count {
        let name = numbered_name(rt, alloc, position);
        add_package(rt, alloc, packages, name.as_str(), Version::new(1, 2, 3));
    }
}

fn add_numbered_link(
    rt: &impl Abort,
    alloc: Global,
    links: &mut Vec<LinkRecord>,
    link: (usize, usize, bool),
) {
    let (from, to, is_dev_only) = link;
    let from = numbered_name(rt, alloc, from);
    let to = numbered_name(rt, alloc, to);
    let sections = [!is_dev_only, false, is_dev_only];
    let ends = (from.as_str(), to.as_str(), sections);
    add_link(rt, alloc, links, ends, VersionReq::star(alloc));
}

// Adds p0 and so on, so many, and links with these ends.
fn add_between(
    rt: &impl Abort,
    alloc: Global,
    records: &mut Records,
    count: usize,
    links: &[(usize, usize, bool)],
) {
    add_numbered(rt, alloc, &mut records.packages, count);
    for link in links {
        add_numbered_link(rt, alloc, &mut records.links, *link);
    }
}

fn add_shape(rt: &impl Abort, alloc: Global, records: &mut Records, shape: &str, count: usize) {
    let links = shape_of(rt, alloc, shape, count);
    add_between(rt, alloc, records, count, links.as_slice());
}

fn add_default_member(rt: &impl Abort, alloc: Global, members: &mut Vec<PackageId>, member: &str) {
    members.push(id(rt, alloc, member)).expect(rt, member);
}

fn add_word(rt: &impl Abort, alloc: Global, records: &mut Records, word: &str) {
    if let Some(member) = word.strip_prefix('!') {
        add_default_member(rt, alloc, &mut records.workspace.default_members, member);
    } else if let Some(target) = word.strip_prefix('+') {
        add_target(rt, alloc, &mut records.packages, target);
    } else if let Some((shape, count)) = word.split_once('*') {
        add_shape(rt, alloc, records, shape, count.parse().unwrap_or(0));
    } else {
        add_package_word(rt, alloc, &mut records.packages, word);
    }
}

fn add_behind_colon(rt: &impl Abort, alloc: Global, records: &mut Records, word: &str) {
    if word == "filled" {
        fill(rt, alloc, records);
    } else {
        add_link_word(rt, alloc, &mut records.links, word);
    }
}

fn add_line(rt: &impl Abort, alloc: Global, records: &mut Records, line: &str) {
    let (packages, links) = line.split_once(':').unwrap_or((line, ""));
    for word in packages.split_whitespace() {
        add_word(rt, alloc, records, word);
    }
    for word in links.split_whitespace() {
        add_behind_colon(rt, alloc, records, word);
    }
}

fn no_records(alloc: Global) -> Records {
    Records {
        packages: Vec::new(alloc),
        links: Vec::new(alloc),
        workspace: WorkspaceRecord::new(alloc, no_path(alloc), no_path(alloc)),
    }
}

/// The graph that the line says.
pub(super) fn graph_of(rt: &impl Abort, alloc: Global, line: &str) -> Result<PackageGraph, Error> {
    let mut records = no_records(alloc);
    add_line(rt, alloc, &mut records, line);
    records.into_graph()
}

/// The graph of p0 and so on, so many, with links between these positions.
pub(super) fn numbered_graph(
    rt: &impl Abort,
    alloc: Global,
    count: usize,
    links: &[(usize, usize, bool)],
) -> PackageGraph {
    let mut records = no_records(alloc);
    add_between(rt, alloc, &mut records, count, links);
    records.into_graph().expect(rt, "a graph")
}
