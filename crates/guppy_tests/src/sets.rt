//! Sets: their members, lists, roots and walked links, sets made of sets, and equal sets.
//!
//! A set is written as its IDs, or as `all`, `none`, `forward` or `reverse` with where a resolve starts, `name`
//! with the name of packages, `query`, a resolve of all of them, or `only` or `onwards` with a package, which
//! makes its set or its query. What is asked of it stands before an `of`: its
//! letters and how many they are, where nothing does. `make` makes a set of the first two packages and the
//! next two.
ghost use Rattle.guppy_graph.specs.Ids.{ids_of};
ghost use Rattle.std.specs.Iterator.{IsFinite};
ghost use Rattle.std.specs.Prelude.{◌≡◌};

use crate::examples::{Answer, Question};
use guppy::graph::{DependencyDirection, IndexType};
use guppy::{
    Error, PackageGraph, PackageId, PackageMetadata, PackageQuery, PackageSet, RootIds,
    RootPackages, WalkedLinks,
};
use std::alloc::Global;
use std::process::Abort;

const LETTERS: [&str; 4] = ["a", "b", "c", "d"];

pub(super) fn direction_of(word: &str) -> DependencyDirection {
    if word == "reverse" {
        DependencyDirection::Reverse
    } else {
        DependencyDirection::Forward
    }
}

// What a copy of the query leads to.
fn reached_by_copy<'g>(query: &PackageQuery<'g>) -> Result<PackageSet<'g>, Error> {
    let copy = query.clone()?;
    copy.resolve()
}

// What the set leads to, by a copy of a query that starts at it.
fn reached_from<'g>(set: &PackageSet<'g>) -> Result<PackageSet<'g>, Error> {
    let query = set.to_package_query(DependencyDirection::Forward)?;
    reached_by_copy(&query)
}

// The same of a copy of the set.
fn reached_from_copy<'g>(set: &PackageSet<'g>) -> Result<PackageSet<'g>, Error> {
    let copy = set.clone()?;
    reached_from(&copy)
}

// All packages, by a copy of a query that starts at a copy of their set.
fn all_again(graph: &PackageGraph) -> Result<PackageSet<'_>, Error> {
    let all = graph.resolve_all()?;
    reached_from_copy(&all)
}

// The set of the package alone.
fn only<'g>(graph: &'g PackageGraph, id: &PackageId) -> Result<PackageSet<'g>, Error> {
    graph.metadata(id)?.to_package_set()
}

// What the package leads to, by a query that it makes.
fn onwards<'g>(graph: &'g PackageGraph, id: &PackageId) -> Result<PackageSet<'g>, Error> {
    let package = graph.metadata(id)?;
    let query = package.to_package_query(DependencyDirection::Forward)?;
    query.resolve()
}

// A query that starts at these IDs.
fn query_from<'g, 'i, I: Iterator<Item = &'i PackageId> + Drop>(
    graph: &'g PackageGraph,
    question: &str,
    ids: I,
) -> Result<PackageQuery<'g>, Error>
    requires can { I.can_next ids }
    requires ends { IsFinite (I.remaining ids) }
{
    match question {
        "forward" => graph.query_forward(ids),
        "reverse" => graph.query_reverse(ids),
        _ => graph.query_directed(ids, DependencyDirection::Reverse),
    }
}

// What a query leads to that starts at these IDs, or the set of them.
fn set_from<'g, 'i, I: Iterator<Item = &'i PackageId> + Drop>(
    graph: &'g PackageGraph,
    question: &str,
    ids: I,
) -> Result<PackageSet<'g>, Error>
    requires can { I.can_next ids }
    requires ends { IsFinite (I.remaining ids) }
{
    if question == "ids" {
        return graph.resolve_ids(ids);
    }
    query_from(graph, question, ids)?.resolve()
}

// The set whose words begin at this place.
fn set_of<'g>(
    graph: &'g PackageGraph,
    question: &Question<'_>,
    place: usize,
) -> Result<PackageSet<'g>, Error> {
    let behind = place.saturating_add(1);
    match question.word(place) {
        "all" => graph.resolve_all(),
        "none" => graph.resolve_none(),
        "query" => all_again(graph),
        "name" => graph.resolve_package_name(question.word(behind)),
        "only" => only(graph, question.id(behind)),
        "onwards" => onwards(graph, question.id(behind)),
        "forward" => set_from(graph, "forward", question.ids_from(behind).iter()),
        "reverse" => set_from(graph, "reverse", question.ids_from(behind).iter()),
        _ => set_from(graph, "ids", question.ids_from(place).iter()),
    }
}

// The letter, if the package that it names is in the set.
fn put_letter(graph: &PackageGraph, set: &PackageSet<'_>, letter: &str, out: &mut Answer) {
    for id in graph.package_ids() {
        if id.repr() == letter {
            match set.contains(id) {
                Ok(true) => out.put_mark(letter),
                Ok(false) => {}
                Err(error) => out.fail(error),
            }
        }
    }
}

// Those of the letters whose packages are in the set, and how many packages it has.
pub(super) fn put_letters(graph: &PackageGraph, set: &PackageSet<'_>, out: &mut Answer) {
    for letter in LETTERS {
        put_letter(graph, set, letter, out);
    }
    out.put_number(set.len());
    if set.is_empty() {
        out.put("empty");
    }
}

/// The positions of the packages.
pub(super) fn positions_of<'g, I: Iterator<Item = PackageMetadata<'g>> + Drop>(
    rt: &impl Abort,
    alloc: Global,
    packages: I,
) -> Vec<usize>
    requires can { I.can_next packages }
    requires ends { IsFinite (I.remaining packages) }
{
    let mut positions = Vec::new(alloc);
    for package in packages {
        positions
            .push(package.package_ix().index())
            .expect(rt, "positions");
    }
    positions
}

// How many packages the set has, and how many its list has.
fn put_lengths(set: &PackageSet<'_>, direction: DependencyDirection, out: &mut Answer) {
    out.put_number(set.len());
    out.put_number(set.packages(direction).len());
}

fn put_list(set: &PackageSet<'_>, direction: DependencyDirection, out: &mut Answer) {
    for id in set.package_ids(direction) {
        out.put(id.repr());
    }
}

fn put_root_names(roots: RootPackages<'_>, out: &mut Answer) {
    for package in roots {
        out.put(package.name());
    }
}

// How many IDs there are, the first, and how many are left then.
fn put_root_ids(mut ids: RootIds<'_>, out: &mut Answer) {
    out.put_number(ids.len());
    if let Some(id) = ids.next() {
        out.put(id.repr());
    }
    out.put_number(ids.len());
}

fn put_roots(set: &PackageSet<'_>, direction: DependencyDirection, out: &mut Answer) {
    match set.root_packages(direction) {
        Ok(roots) => put_root_names(roots, out),
        Err(error) => out.fail(error),
    }
    match set.root_ids(direction) {
        Ok(ids) => put_root_ids(ids, out),
        Err(error) => out.fail(error),
    }
}

fn put_numbers(links: WalkedLinks<'_>, out: &mut Answer) {
    for link in links {
        out.put_number(link.link_ix());
    }
}

// The numbers of the walked links.
fn put_links(set: &PackageSet<'_>, direction: DependencyDirection, out: &mut Answer) {
    match set.links(direction) {
        Ok(links) => put_numbers(links, out),
        Err(error) => out.fail(error),
    }
}

fn put_set(set: Result<PackageSet<'_>, Error>, out: &mut Answer) {
    match set {
        Ok(set) => put_list(&set, DependencyDirection::Forward, out),
        Err(error) => out.fail(error),
    }
}

// Keeps the first two packages, and tells the calls, the positions as the digits of a number, and those
// that were kept.
fn filter_two(set: &PackageSet<'_>, direction: DependencyDirection, out: &mut Answer) {
    let mut positions = 0_usize;
    let mut calls = 0_usize;
    let mut callback = |package: PackageMetadata<'_>| {
        positions = positions
            .wrapping_mul(10)
            .wrapping_add(package.package_ix().index());
        calls = calls.wrapping_add(1);
        calls <= 2
    };
    let kept = set.filter_mut(direction, &mut callback);
    out.put_number(calls);
    out.put_number(positions);
    put_set(kept, out);
}

fn put_halves(halves: Result<(PackageSet<'_>, PackageSet<'_>), Error>, out: &mut Answer) {
    match halves {
        Ok((first, second)) => {
            put_list(&first, DependencyDirection::Forward, out);
            out.put("and");
            put_list(&second, DependencyDirection::Forward, out);
        }
        Err(error) => out.fail(error),
    }
}

// Leaves out the first package, and parts the second from the others.
fn part_second(set: &PackageSet<'_>, out: &mut Answer) {
    let mut calls = 0_usize;
    let halves = set.filter_partition(DependencyDirection::Forward, |_package| {
        calls = calls.wrapping_add(1);
        match calls {
            1 => None,
            2 => Some(true),
            _ => Some(false),
        }
    });
    put_halves(halves, out);
}

// Tells whether the set is equal to the one half, and not to the other one.
fn put_equal_to_first(
    only: &PackageSet<'_>,
    halves: &Result<(PackageSet<'_>, PackageSet<'_>), Error>,
    out: &mut Answer,
) {
    if let Ok((first, second)) = halves {
        out.put_truth(*only == *first && *only != *second);
    }
}

// Parts the packages of this name from the others, and tells whether a filter makes the one half alone.
fn part_by_name(set: &PackageSet<'_>, name: &str, out: &mut Answer) {
    let direction = DependencyDirection::Forward;
    let is_named = |package: PackageMetadata<'_>| package.name() == name;
    let halves = set.partition(direction, is_named);
    match set.filter(direction, is_named) {
        Ok(only) => put_equal_to_first(&only, &halves, out),
        Err(error) => out.fail(error),
    }
    put_halves(halves, out);
}

fn read(set: &PackageSet<'_>, question: &Question<'_>, out: &mut Answer) {
    let argument = question.word(1);
    let direction = direction_of(argument);
    match question.word(0) {
        "has" => out.put_known(set.contains(question.id(1))),
        "list" => put_list(set, direction, out),
        "len" => put_lengths(set, direction, out),
        "roots" => put_roots(set, direction, out),
        "links" => put_links(set, direction, out),
        "first-two" => filter_two(set, direction, out),
        "second-apart" => part_second(set, out),
        "apart" => part_by_name(set, argument, out),
        _ => out.put("unknown question"),
    }
}

// Answers what is asked of the set whose words begin at this place.
fn ask_of(graph: &PackageGraph, question: &Question<'_>, place: usize, out: &mut Answer) {
    match set_of(graph, question, place) {
        Ok(set) => read(&set, question, out),
        Err(error) => out.fail(error),
    }
}

fn ask_letters(graph: &PackageGraph, question: &Question<'_>, out: &mut Answer) {
    match set_of(graph, question, 0) {
        Ok(set) => put_letters(graph, &set, out),
        Err(error) => out.fail(error),
    }
}

// How many of the IDs the call leaves unread.
fn unread_of(graph: &PackageGraph, question: &str, ids: &[PackageId]) -> usize {
    let mut unread = ids.iter();
    let _refused = set_from(graph, question, &mut unread);
    unread.len()
}

fn put_unread(graph: &PackageGraph, ids: &[PackageId], out: &mut Answer) {
    for question in ["directed", "forward", "reverse", "ids"] {
        out.put_number(unread_of(graph, question, ids));
    }
}

/// Answers a question about a set of the graph.
pub(super) fn ask_set(graph: &PackageGraph, question: &Question<'_>, out: &mut Answer) {
    match (question.word(0), question.word(1), question.word(2)) {
        ("unread", _, _) => put_unread(graph, question.ids_from(1), out),
        ("make", _, _) => combine(graph, question, out),
        (_, "of", _) => ask_of(graph, question, 2, out),
        (_, _, "of") => ask_of(graph, question, 3, out),
        _ => ask_letters(graph, question, out),
    }
}

fn combined<'g>(
    operation: &str,
    x: &PackageSet<'g>,
    y: &PackageSet<'g>,
) -> Result<PackageSet<'g>, Error>
    requires { ids_of x.now.graph.packages ≡ ids_of y.now.graph.packages }
{
    match operation {
        "union" => x.union(y),
        "intersection" => x.intersection(y),
        "difference" => x.difference(y),
        _ => x.symmetric_difference(y),
    }
}

// The letters of the set that the operation makes.
fn put_combined(
    graph: &PackageGraph,
    operation: &str,
    x: &PackageSet<'_>,
    y: &PackageSet<'_>,
    out: &mut Answer,
) {
    if !x.same_packages(y) {
        out.put("other packages");
        return;
    }
    match combined(operation, x, y) {
        Ok(set) => put_letters(graph, &set, out),
        Err(error) => out.fail(error),
    }
}

fn combine_with(
    graph: &PackageGraph,
    x: &PackageSet<'_>,
    question: &Question<'_>,
    out: &mut Answer,
) {
    match graph.resolve_ids([question.id(4), question.id(5)].into_iter()) {
        Ok(y) => put_combined(graph, question.word(1), x, &y, out),
        Err(error) => out.fail(error),
    }
}

fn combine(graph: &PackageGraph, question: &Question<'_>, out: &mut Answer) {
    match graph.resolve_ids([question.id(2), question.id(3)].into_iter()) {
        Ok(x) => combine_with(graph, &x, question, out),
        Err(error) => out.fail(error),
    }
}

pub(super) const SETS: &str = "
set_operations | a b c
    make union a b b c = abc 3
    make intersection a b b c = b 1
    make difference a b b c = a 1
    make symmetric-difference a b b c = ac 2

sets_of_a_graph | a b c d: a>b b>c c>d
    all = abcd 4
    none = 0 empty
    has d of all = yes
    has d of none = no
    query = abcd 4
    forward b = bcd 3
    reverse b = ab 2
    only b = b 1
    onwards b = bcd 3

four_with_dev_backs | d c b a: a>b b~a b>c c>d d~c
    list forward of d a b = a b d
    len reverse of d a b = 3 3

cyclic_roots | a b c: a>b b>a a>a a>c
    roots forward of all = a b 2 a 1
    roots reverse of all = c 1 c 0

cut_component | r a b c: r>a a>c c>b b>a
    roots forward of r a b = r 1 r 0
    roots reverse of r a b = a b 2 a 1
    links forward of r a b = 0
    links reverse of r a b = 0 3 or 3 0

links_of_a_loop | r a b c: r>a a>c c>b b>a
    links forward of r a b c = 0 1 2 3
    links forward of a b = 3
    links reverse of a b = 3

self_links | a b: a>a a>b b>b
    roots forward of all = a 1 a 0
    roots reverse of all = b 1 b 0
    links forward of a b = 0 1 2 or 1 0 2 or 1 2 0
    links reverse of a b = 2 1 0 or 1 2 0 or 1 0 2
";

// The packages stand in the order d, c, b, a, so the positions seen make the number 3210 from a to d,
// and 0123 from d to a.
pub(super) const PARTS: &str = "
filter_by_order | d c b a: a>b b~a b>c c>d d~c
    first-two forward of all = 4 3210 a b
    first-two reverse of all = 4 123 c d

filter_partition | d c b a: a>b b~a b>c c>d d~c
    second-apart of all = b and c d

partition_by_name | d c b a: a>b b~a b>c c>d d~c
    apart c of all = yes c and a b d
";

fn put_union(x: &PackageSet<'_>, y: &PackageSet<'_>, out: &mut Answer) {
    out.put_truth(x.same_packages(y));
    out.put_truth(*x == *y);
    if x.same_packages(y) {
        put_set(x.union(y), out);
    }
}

/// The graph that `beside` compares with.
pub(super) fn other_graph(name: &str) -> &'static str {
    match name {
        "turned" => "a b: b>a",
        _ => "b a",
    }
}

fn one_package<'g>(graph: &'g PackageGraph, id: &PackageId) -> Result<PackageSet<'g>, Error> {
    graph.resolve_ids([id].into_iter())
}

// The union of the one graph's set and the other's b, from either side.
fn put_unions(one: &PackageSet<'_>, other: &PackageGraph, b: &PackageId, out: &mut Answer) {
    match one_package(other, b) {
        Ok(far) => {
            put_union(one, &far, out);
            put_union(&far, one, out);
        }
        Err(error) => out.fail(error),
    }
}

// Whether the other graph's set of a is equal, and tells whether their packages are the same.
fn put_equal(one: &PackageSet<'_>, other: &PackageGraph, a: &PackageId, out: &mut Answer) -> bool {
    match one_package(other, a) {
        Ok(there) => {
            out.put_truth(*one == there);
            one.same_packages(&there)
        }
        Err(error) => {
            out.fail(error);
            false
        }
    }
}

// Whether the other graph's set of a is equal, and then the unions.
fn put_sets(one: &PackageSet<'_>, other: &PackageGraph, question: &Question<'_>, out: &mut Answer) {
    if put_equal(one, other, question.id(2), out) {
        put_unions(one, other, question.id(3), out);
    }
}

fn are_equal_packages(
    one: &PackageGraph,
    other: &PackageGraph,
    id: &PackageId,
) -> Result<bool, Error> {
    Ok(one.metadata(id)? == other.metadata(id)?)
}

/// Whether the graphs have the same packages, whether the packages and the sets of a are equal, and what
/// the unions of the one graph's a and the other's b are.
pub(super) fn beside(
    one: &PackageGraph,
    other: &PackageGraph,
    question: &Question<'_>,
    out: &mut Answer,
) {
    out.put_truth(one.same_packages(other));
    out.put_known(are_equal_packages(one, other, question.id(2)));
    match one_package(one, question.id(2)) {
        Ok(here) => put_sets(&here, other, question, out),
        Err(error) => out.fail(error),
    }
}

// The same packages with the link turned round, and then in the other order.
pub(super) const TWO_GRAPHS: &str = "
sets_of_two_graphs | a b: a>b
    beside turned a b = yes yes yes yes no a b yes no b a
    beside swapped a b = no no no
";
