//! What is read out of a graph: fields, links, build targets, members and default members.
use crate::examples::{Answer, Question};
use crate::members::{len_of, put_at_paths, put_named, put_unread, reached_by};
use crate::sets::direction_of;
use guppy::graph::BuildTargetId;
use guppy::{
    DependencyKind, Error, JsonValue, PackageGraph, PackageId, PackageLink, PackageMetadata,
    Utf8Path, Version, VersionReq,
};

fn put_texts(package: PackageMetadata<'_>, out: &mut Answer) {
    let texts = [
        Some(package.id().repr()),
        Some(package.name()),
        Some(package.edition()),
        package.description(),
        package.license(),
        package.links(),
        package.default_run(),
        package.repository(),
        package.homepage(),
        package.documentation(),
        package.named_features().next(),
    ];
    for text in texts {
        out.put(text.unwrap_or("none"));
    }
}

fn put_paths(package: PackageMetadata<'_>, out: &mut Answer) {
    let paths = [
        package.source().workspace_path(),
        package.license_file(),
        package.readme(),
        Some(package.manifest_path()),
    ];
    for path in paths {
        out.put(match path {
            Some(path) => path.as_str(),
            None => "none",
        });
    }
}

fn put_lists(package: PackageMetadata<'_>, out: &mut Answer) {
    let lists = [package.authors(), package.categories(), package.keywords()];
    for list in lists {
        for item in list {
            out.put(item.as_str());
        }
    }
}

fn is_version(version: &Version, major: u64, minor: u64, patch: u64) -> bool {
    *version == Version::new(major, minor, patch)
}

fn is_truth(table: &JsonValue, truth: bool) -> bool {
    match table {
        JsonValue::Bool(told) => *told == truth,
        _ => false,
    }
}

// What is so of the package. Its version, and what `filled` fills, is so where it is as it says.
fn put_facts(package: PackageMetadata<'_>, out: &mut Answer) {
    out.put_if("in-workspace", package.in_workspace());
    out.put_if("publish", package.publish().can_publish_to("registry"));
    out.put_if("default-feature", package.has_default_feature());
    out.put_if("proc-macro", package.is_proc_macro());
    out.put_if("build-script", package.has_build_script());
    out.put_if("one-feature", package.named_features_full().len() == 1);
    out.put_if("one-optional-dep", package.optional_deps_full().len() == 1);
    out.put_if("version", is_version(package.version(), 1, 2, 3));
    if let Some(version) = package.rust_version() {
        out.put_if("rust-version", is_version(version, 1, 85, 0));
    }
    out.put_if("metadata-table", is_truth(package.metadata_table(), true));
}

// The texts of each of the package's links.
fn put_link_texts(package: PackageMetadata<'_>, out: &mut Answer) {
    for link in package.direct_links() {
        out.put(link.from().name());
        out.put(link.to().name());
        out.put(link.dep_name());
        out.put(link.resolved_name());
        out.put(link.registry().unwrap_or("none"));
    }
}

fn takes_version(requirement: &VersionReq) -> bool {
    requirement.matches(&Version::new(1, 2, 3))
}

// What is so of the link.
fn put_link_facts(link: PackageLink<'_>, out: &mut Answer) {
    out.put_if("path", link.path() == Some(Utf8Path::new("../b")));
    out.put_if("version-req", takes_version(link.version_req()));
    out.put_if("normal", link.normal().is_present());
    out.put_if("build", link.build().is_present());
    out.put_if("dev", link.dev().is_present());
    let normal = link.req_for_kind(DependencyKind::Normal);
    out.put_if("normal-kind", normal.is_present());
    out.put_if("dev-only", link.dev_only());
}

// What is so of each of the package's links.
fn put_all_link_facts(package: PackageMetadata<'_>, out: &mut Answer) {
    for link in package.direct_links() {
        put_link_facts(link, out);
    }
}

fn link_of<'g>(
    package: PackageMetadata<'g>,
    relation: &str,
    other: &PackageId,
) -> Result<Option<PackageLink<'g>>, Error> {
    match relation {
        "from" => package.link_from(other),
        "to" => package.link_to(other),
        _ => package.link_between(other, direction_of(relation)),
    }
}

// The number of the link between the two, if there is one.
fn put_between(package: PackageMetadata<'_>, question: &Question<'_>, out: &mut Answer) {
    match link_of(package, question.word(3), question.id(4)) {
        Ok(Some(link)) => out.put_number(link.link_ix()),
        Ok(None) => out.put("none"),
        Err(error) => out.fail(error),
    }
}

// The number and the other end of each link. Then how many links to the package there are, the other end of
// the first, and how many are left.
fn put_links(package: PackageMetadata<'_>, out: &mut Answer) {
    for link in package.direct_links() {
        out.put_number(link.link_ix());
        out.put(link.to().name());
    }
    out.put("and");
    let mut links = package.reverse_direct_links();
    out.put_number(links.len());
    if let Some(link) = links.next() {
        out.put(link.from().name());
    }
    out.put_number(links.len());
}

// The names of the build targets, how many they are, and whether there are a binary and a test of a name.
fn put_targets(package: PackageMetadata<'_>, name: &str, out: &mut Answer) {
    for target in package.build_targets() {
        out.put(target.name());
    }
    out.put_number(package.build_targets().len());
    let binary = package.build_target(&BuildTargetId::Binary(name));
    out.put_truth(binary.is_some());
    let test = package.build_target(&BuildTargetId::Test(name));
    out.put_truth(test.is_some());
}

fn tell_package(package: PackageMetadata<'_>, question: &Question<'_>, out: &mut Answer) {
    match question.word(2) {
        "link" => put_between(package, question, out),
        "targets" => put_targets(package, question.word(3), out),
        "links" => put_links(package, out),
        "texts" => put_texts(package, out),
        "paths" => put_paths(package, out),
        "lists" => put_lists(package, out),
        "facts" => put_facts(package, out),
        "link-texts" => put_link_texts(package, out),
        "link-facts" => put_all_link_facts(package, out),
        _ => out.put("unknown question"),
    }
}

/// Answers a question about a package.
pub(super) fn ask_package(graph: &PackageGraph, question: &Question<'_>, out: &mut Answer) {
    match graph.metadata(question.id(1)) {
        Ok(package) => tell_package(package, question, out),
        Err(error) => out.fail(error),
    }
}

// Each field of a package, a link and a workspace.
pub(super) const FIELDS: &str = "
every_field | a=n@p b: a>b filled
    package a texts = a n 2024 description MIT z run repository homepage documentation default
    package a paths = p LICENSE README.md a/Cargo.toml
    package a lists = author category keyword
    package a facts = in-workspace publish default-feature one-feature one-optional-dep version \
        rust-version metadata-table
    package a link-texts = n b dep-name dep_name registry
    package a link-facts = path version-req normal normal-kind
    workspace fields = /w /w/target /w/build yes
    workspace members = 1 1 1 2
";

pub(super) const PACKAGES: &str = "
links_between | a b c d: a>b c>c
    package a link forward b = 0
    package a link reverse b = none
    package b link reverse a = 0
    package c link reverse c = 1

link_from_another | a b c d: a>b
    package b link from a = 0
    package b link to a = none
    package b link to z = unknown package ID: z

direct_links | a b c d: b>a b>b c>b
    package b links = 0 a 1 b and 2 b 1

dev_only_links | a b: a-b
    package a link-facts = version-req dev-only
dev_only_links | a b: a~b
    package a link-facts = version-req dev dev-only
dev_only_links | a b: a+b
    package a link-facts = version-req build dev

target_order | p +test=t +lib=l +bin=b +bin=a
    package p targets t = l a b t 4 no yes
    package p facts = publish version
";

// The members by path and by name.
fn put_order(graph: &PackageGraph, out: &mut Answer) {
    for (path, _) in graph.workspace().iter_by_path() {
        out.put(path.as_str());
    }
    out.put("and");
    for (name, _) in graph.workspace().iter_by_name() {
        out.put(name);
    }
}

fn put_members(graph: &PackageGraph, out: &mut Answer) {
    out.put_number(graph.workspace().member_count());
    out.put_number(graph.workspace().iter().len());
    out.put_count(len_of(graph.resolve_workspace()));
    out.put_count(reached_by(graph.query_workspace()));
}

fn put_both(path_name: &str, by_name: Result<PackageMetadata<'_>, Error>, out: &mut Answer) {
    match by_name {
        Ok(by_name) => {
            out.put(path_name);
            out.put(by_name.name());
        }
        Err(error) => out.fail(error),
    }
}

// The names of the member with the path, and of the one with the name.
fn put_member(graph: &PackageGraph, question: &Question<'_>, out: &mut Answer) {
    let workspace = graph.workspace();
    match workspace.member_by_path(Utf8Path::new(question.word(2))) {
        Ok(by_path) => {
            let by_name = workspace.member_by_name(question.word(3));
            put_both(by_path.name(), by_name, out);
        }
        Err(error) => out.fail(error),
    }
}

fn put_defaults(graph: &PackageGraph, out: &mut Answer) {
    for package in graph.workspace().default_members() {
        out.put(package.name());
    }
    out.put_number(graph.workspace().default_member_ids().len());
}

// The directories, and whether the table is as `filled` fills it.
fn put_fields(graph: &PackageGraph, out: &mut Answer) {
    let workspace = graph.workspace();
    out.put(workspace.root().as_str());
    out.put(workspace.target_directory().as_str());
    if let Some(path) = workspace.build_directory() {
        out.put(path.as_str());
    }
    out.put_truth(is_truth(workspace.metadata_table(), false));
}

/// Answers a question about the workspace.
pub(super) fn ask_workspace(graph: &PackageGraph, question: &Question<'_>, out: &mut Answer) {
    let argument = question.word(2);
    match question.word(1) {
        "fields" => put_fields(graph, out),
        "order" => put_order(graph, out),
        "members" => put_members(graph, out),
        "member" => put_member(graph, question, out),
        "defaults" => put_defaults(graph, out),
        "unread" => put_unread(graph, question, out),
        "at-paths" => put_at_paths(graph, question, out),
        "has-path" => out.put_truth(graph.workspace().contains_path(Utf8Path::new(argument))),
        "has-name" => out.put_truth(graph.workspace().contains_name(argument)),
        _ => put_named(graph, question, out),
    }
}

pub(super) const WORKSPACES: &str = "
path_order | no_member @b @a-b @.. @a/b @./c
    workspace order = ./c .. a/b a-b b and .. ./c a-b a/b b

path_lookup | no_member @a/b
    workspace has-path a/./b/ = yes
    workspace has-path ./a/b = no
    workspace has-name a/b = yes
    workspace has-name no_member = no
    workspace members = 1 1 1 1

empty_path | no_member @
    workspace has-path = yes
    workspace has-path . = no

unknown_members | no_member @a @b
    workspace query-named b x y = unknown workspace package name: x
    workspace at-paths a/. q = unknown workspace path: q
    workspace member q b = unknown workspace path: q
    workspace member a x = unknown workspace package name: x
    workspace unread a x b = 1 1 1 1 1 1
    workspace unread x a b = 2 2 2 2 2 2

known_members | no_member @a @b
    workspace named b a b = 3
    workspace query-named b a b = 2
    workspace at-paths a a/. = 2 1 1
    workspace at-paths a/. b/ = 2 2 2
    workspace member a/. b = a b
    workspace set-named b b b = 1
    workspace members = 2 2 2 2

default_members | a b !b !a !b
    workspace defaults = b a b 3
";
