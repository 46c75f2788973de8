//! How many members names and paths name, and how many of these each call leaves unread.
ghost use Rattle.std.specs.Iterator.{IsFinite};

use crate::examples::{Answer, Question};
use guppy::{Error, PackageGraph, PackageMetadata, PackageQuery, PackageSet, Utf8Path};

/// How many packages the set has.
pub(super) fn len_of(set: Result<PackageSet<'_>, Error>) -> Result<usize, Error> {
    Ok(set?.len())
}

/// How many packages the query leads to.
pub(super) fn reached_by(query: Result<PackageQuery<'_>, Error>) -> Result<usize, Error> {
    len_of(query?.resolve())
}

fn count_of(members: Result<Vec<PackageMetadata<'_>>, Error>) -> Result<usize, Error> {
    Ok(members?.len())
}

// How many members the names name, how many the set of them has, or how many a resolve of them.
fn count_named<'n, I: Iterator<Item = &'n str> + Drop>(
    graph: &PackageGraph,
    question: &str,
    names: I,
) -> Result<usize, Error>
    requires can { I.can_next names }
    requires ends { IsFinite (I.remaining names) }
{
    match question {
        "named" => count_of(graph.workspace().members_by_names(names)),
        "set-named" => len_of(graph.resolve_workspace_names(names)),
        _ => reached_by(graph.query_workspace_names(names)),
    }
}

// The same of paths.
fn count_at_paths<'p, I: Iterator<Item = Utf8Path<'p>> + Drop>(
    graph: &PackageGraph,
    question: &str,
    paths: I,
) -> Result<usize, Error>
    requires can { I.can_next paths }
    requires ends { IsFinite (I.remaining paths) }
{
    match question {
        "named" => count_of(graph.workspace().members_by_paths(paths)),
        "set-named" => len_of(graph.resolve_workspace_paths(paths)),
        _ => reached_by(graph.query_workspace_paths(paths)),
    }
}

const COUNTS: [&str; 3] = ["named", "set-named", "query-named"];

pub(super) fn put_named(graph: &PackageGraph, question: &Question<'_>, out: &mut Answer) {
    let names = [question.word(2), question.word(3), question.word(4)];
    out.put_count(count_named(graph, question.word(1), names.into_iter()));
}

pub(super) fn put_at_paths(graph: &PackageGraph, question: &Question<'_>, out: &mut Answer) {
    let paths = [
        Utf8Path::new(question.word(2)),
        Utf8Path::new(question.word(3)),
    ];
    for question in COUNTS {
        match count_at_paths(graph, question, paths.into_iter()) {
            Ok(count) => out.put_number(count),
            Err(error) => return out.fail(error),
        }
    }
}

// How many of the names the call leaves unread.
fn unread_names(graph: &PackageGraph, question: &str, names: [&str; 3]) -> usize {
    let mut unread = names.into_iter();
    let _refused = count_named(graph, question, &mut unread);
    unread.len()
}

// The same of paths.
fn unread_paths(graph: &PackageGraph, question: &str, paths: [&str; 3]) -> usize {
    let [a, b, c] = paths;
    let mut unread = [Utf8Path::new(a), Utf8Path::new(b), Utf8Path::new(c)].into_iter();
    let _refused = count_at_paths(graph, question, &mut unread);
    unread.len()
}

/// How many of the texts each call leaves unread, taken as names and as paths.
pub(super) fn put_unread(graph: &PackageGraph, question: &Question<'_>, out: &mut Answer) {
    let texts = [question.word(2), question.word(3), question.word(4)];
    for count in COUNTS {
        out.put_number(unread_names(graph, count, texts));
        out.put_number(unread_paths(graph, count, texts));
    }
}
