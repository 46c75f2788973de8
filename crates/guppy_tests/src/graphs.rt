//! Graphs: what they hold, which records make none, what depends on what, and whether they are verified.
use crate::examples::{Answer, Question};
use crate::lists::{put_affected, put_cycles, put_publish_order};
use crate::sets::ask_set;
use guppy::errors::VerifyFault;
use guppy::{DependsCache, Error, PackageGraph, PackageId};

// How many packages and links there are, and how many the walks over IDs, packages and members have.
fn put_counts(graph: &PackageGraph, out: &mut Answer) {
    out.put_number(graph.package_count());
    out.put_number(graph.link_count());
    out.put_number(graph.package_ids().len());
    out.put_number(graph.packages().len());
    out.put_number(graph.workspace().member_count());
}

// All IDs and names.
fn texts_of<'g>(graph: &'g PackageGraph, out: &mut Answer) -> Vec<&'g str> {
    let mut texts = Vec::new(graph.alloc());
    for id in graph.package_ids() {
        out.note(texts.push(id.repr()).is_err());
    }
    for package in graph.packages() {
        out.note(texts.push(package.name()).is_err());
    }
    texts
}

// All IDs and names in the order of texts, and how many are left of each after one was taken.
fn put_each(graph: &PackageGraph, out: &mut Answer) {
    let mut texts = texts_of(graph, out);
    texts.sort_unstable();
    for text in &texts {
        out.put(text);
    }
    let mut ids = graph.package_ids();
    out.put_truth(ids.next().is_some());
    out.put_number(ids.len());
    let mut packages = graph.packages();
    out.put_truth(packages.next().is_some());
    out.put_number(packages.len());
}

fn put_cached(cache: &mut DependsCache<'_>, asked: &[PackageId], out: &mut Answer) {
    for pair in asked.chunks_exact(2) {
        if let [from, to] = pair {
            out.put_known(cache.depends_on(from, to));
        }
    }
}

// What one cache answers to each two in turn.
fn ask_cache(graph: &PackageGraph, asked: &[PackageId], out: &mut Answer) {
    match graph.new_depends_cache() {
        Ok(mut cache) => put_cached(&mut cache, asked, out),
        Err(error) => out.fail(error),
    }
}

// Of a cycle that `verify` refuses, how many packages it has, and whether it is one.
fn put_refused(graph: &PackageGraph, out: &mut Answer) {
    match graph.verify() {
        Err(Error::PackageGraphInternalError(VerifyFault::Cycle(ids))) => {
            out.put_number(ids.len());
            out.put_known(graph.is_cycle_witness(ids.as_slice()));
        }
        Err(error) => out.fail(error),
        Ok(()) => {}
    }
}

fn put_verified(graph: &PackageGraph, out: &mut Answer) {
    match graph.verify() {
        Ok(()) => out.put("ok"),
        Err(error) => out.fail(error),
    }
}

// Answers a question about the whole graph, or else about a set.
fn ask_whole(graph: &PackageGraph, question: &Question<'_>, out: &mut Answer) {
    match question.word(0) {
        "counts" => put_counts(graph, out),
        "each" => put_each(graph, out),
        "verify" => put_verified(graph, out),
        "cycle" => put_refused(graph, out),
        "cycles" => put_cycles(graph, question.word(1) == "from-back", out),
        "publish" => put_publish_order(graph, out),
        "affected" => put_affected(graph, question.words_from(1), &[], out),
        "affected-but" => {
            put_affected(graph, question.words_from(2), &[question.word(1)], out);
        }
        _ => ask_set(graph, question, out),
    }
}

/// Answers a question about the graph, or else about a set.
pub(super) fn ask_graph(graph: &PackageGraph, question: &Question<'_>, out: &mut Answer) {
    let (one, other) = (question.id(1), question.id(2));
    match question.word(0) {
        "depends" => out.put_known(graph.depends_on(one, other)),
        "direct" => out.put_known(graph.directly_depends_on(one, other)),
        "cyclic" => out.put_known(graph.cycles().is_cyclic(one, other)),
        "witness" => out.put_known(graph.is_cycle_witness(question.ids_from(1))),
        "cache" => ask_cache(graph, question.ids_from(1), out),
        _ => ask_whole(graph, question, out),
    }
}

pub(super) const GRAPHS: &str = "
repeated_link | a b c d: a>b a>b
    counts = failed to construct package graph: repeated link 1
repeated_link | a b c d: a>b a>b a>z
    counts = failed to construct package graph: unknown package at link 2

first_faults | c a b a c: x>y
    counts = failed to construct package graph: repeated package ID at package 3
first_faults | a b: a>b z>b z>a
    counts = failed to construct package graph: unknown package at link 1
first_faults | a b: a>b b>a a>b
    counts = failed to construct package graph: repeated link 2
first_faults | a: a>a a>a
    counts = failed to construct package graph: repeated link 1

counts | a b c d: a>a a>c
    counts = 4 2 4 4 0

ids_once | b d a c
    each = a a b b c c d d yes 3 yes 3

each_package | b=x d=w a=z c=y
    each = a b c d w x y z yes 3 yes 3

depends_by_links | a b c d: c>b b>a d>d
    depends c a = yes
    depends a c = no
    depends a a = yes
    depends d d = yes
    depends c d = no

first_unknown_of_two | a b c d
    depends z y = unknown package ID: z
    depends a y = unknown package ID: y

direct_dependence | a b c d: a>b b>c d>d
    direct a b = yes
    direct b a = no
    direct a c = no
    direct a a = no
    direct d d = yes
    direct z y = unknown package ID: z

cache_forgets | a b c d: a>b b>c
    cache a c c a a a = yes no yes

resolves_forward | a b c d: c>b b>a a>c d>a
    forward c c = abc 3
    forward d = abcd 4
    forward a d = abcd 4
    forward = 0 empty

first_unknown_of_a_list | a b c d
    forward a z y = unknown package ID: z
    unread a z b y = 2 2 2 2
    unread z a = 1 1 1 1
    has z of forward a = unknown package ID: z

package_name | n k m=n
    len of name n = 2 2
    len of name m = 0 0
";

pub(super) const BROKEN_RULES: &str = "
target_faults | p +lib +bin=x +bin=x
    counts = failed to construct package graph: repeated build target 2 in package 0
target_faults | p +lib +bin=x
    counts = failed to construct package graph: build target 0 in package 0 has no name

equal_paths | p=p@a q=q@./a r=r@a/.
    counts = failed to construct package graph: repeated workspace path at package 2

equal_names | p=n@p q=n@q
    counts = failed to construct package graph: repeated workspace name at package 1
equal_names | n p=n@p
    counts = 2 0 2 2 1

unknown_default_member | a !a !z !a
    counts = failed to construct package graph: unknown default member 1
unknown_default_member | a !a !a
    counts = 1 0 1 1 0
";

pub(super) const VERIFIED: &str = "
empty_graph | :
    counts = 0 0 0 0 0
    verify = ok

prerelease_requirement | a b#1.0.0-alpha: a>b#*
    verify = ok
prerelease_requirement | a b#1.0.0-alpha: a>b#^1
    verify = internal error in package graph: version does not match requirement at link 0
prerelease_requirement | a b: a>b b~a
    verify = ok

target_kind_place | p +misfit=t +macro=m
    verify = internal error in package graph: build target 1 in package 0 does not match its kind

verify_by_position | a b#1.0.0-alpha: b-a a>b#^1
    verify = internal error in package graph: version does not match requirement at link 1
verify_by_position | a b#1.0.0: b-a a>b#^1
    verify = internal error in package graph: no section at link 0

two_normal | a b: a>b b>a
    verify = internal error in package graph: cycle over links that are not dev-only: a -> b -> a or internal error in package graph: cycle over links that are not dev-only: b -> a -> b
    witness a b = yes
    witness b a = yes
    witness a b a = no

self_link_is_fine | a: a>a
    verify = ok
    witness a = no

dev_back_is_fine | a b: a>b b~a
    verify = ok
    witness a b = no

four_with_dev_backs | d c b a: a>b b~a b>c c>d d~c
    verify = ok

witness | a b c: a>b b>c c>a
    witness a b c = yes
    witness b c a = yes
    witness a c b = no
    witness a b = no
    witness = no
    witness a b c a = no
    witness a z = no
    cycle = 3 yes

build_links_make_cycles | a b: a+b b+a
    cycle = 2 yes

earlier_fault_first | a b: a>b b>a a-a
    verify = internal error in package graph: no section at link 2
";
