//! Examples, written as a text, and the run through them.
//!
//! A line with a bar has an example's name and its graph, as `records` writes one. Each line below has
//! questions about this graph, and the answers that are wanted:
//!
//! ```text
//! chain | a b c: a>b b>c
//!     depends a c, depends c a = yes, no
//! ```
//!
//! An answer is words and numbers, an error is its text, and no text is `nothing`. Where more than one
//! answer is right, ` or ` stands between them. `0..=3` stands for 0 1 2 3, `p3..=p1` for p3 p2 p1, and
//! `0+..=2+` for 0+ 1+ 2+; the answers of a line that begins with `sorted` may have their words in any order. A
//! question's first word tells the module that answers it: `package` and `workspace` go to `views`,
//! `resolve` to `queries`, `looks` to `lists`, `beside` to `sets`, all others to `graphs`.
use crate::graphs::{self, ask_graph};
use crate::lists::{self, put_looks};
use crate::queries::{self, ask_query};
use crate::records::{graph_of, ids};
use crate::sets::{self, beside, other_graph};
use crate::views::{self, ask_package, ask_workspace};
use crate::{faults, large};
use guppy::set::laws::resolved_sets_are_whole;
use guppy::{Error, PackageGraph, PackageId};
use std::alloc::{AllocError, Global};
use std::process::Abort;

/// The answer to a question.
#[derive(Drop)]
pub(super) struct Answer {
    text: String,
    // Whether memory was refused while it was written.
    is_cut: bool,
}

impl Answer {
    /// Takes note of whether memory was refused.
    pub(super) fn note(&mut self, is_refused: bool) {
        self.is_cut = self.is_cut || is_refused;
    }

    /// Adds a mark right behind what is there.
    pub(super) fn put_mark(&mut self, mark: &str) {
        let taken = self.text.push_str(mark);
        self.note(taken.is_err());
    }

    /// Adds a word, behind a space where it isn't the first.
    pub(super) fn put(&mut self, word: &str) {
        if !self.text.is_empty() {
            self.put_mark(" ");
        }
        self.put_mark(word);
    }

    pub(super) fn put_number(&mut self, number: usize) {
        self.put("");
        self.put_digits(number);
    }

    fn put_digits(&mut self, number: usize) {
        let taken = write!(self.text, "{number}");
        self.note(taken.is_err());
    }

    pub(super) fn put_truth(&mut self, truth: bool) {
        self.put(if truth { "yes" } else { "no" });
    }

    /// Adds a comma behind what is there, where none is.
    pub(super) fn put_comma(&mut self) {
        if !self.text.is_empty() && !self.text.ends_with(',') {
            self.put_mark(",");
        }
    }

    /// Adds the error's text.
    pub(super) fn fail(&mut self, error: Error) {
        self.put("");
        let taken = write!(self.text, "{error}");
        self.note(taken.is_err());
    }

    /// Adds whether it is so, or the error's text.
    pub(super) fn put_known(&mut self, answer: Result<bool, Error>) {
        match answer {
            Ok(truth) => self.put_truth(truth),
            Err(error) => self.fail(error),
        }
    }

    /// Adds the number, or the error's text.
    pub(super) fn put_count(&mut self, answer: Result<usize, Error>) {
        match answer {
            Ok(number) => self.put_number(number),
            Err(error) => self.fail(error),
        }
    }

    /// Adds the word where this is so.
    pub(super) fn put_if(&mut self, word: &str, holds: bool) {
        if holds {
            self.put(word);
        }
    }
}

/// The words of a question, and the IDs of these texts.
#[derive(Clone, Copy)]
pub(super) struct Question<'q> {
    words: &'q [&'q str],
    ids: &'q [PackageId],
    // The ID of no text, which no package has.
    no_id: &'q PackageId,
}

impl<'q> Question<'q> {
    /// The word at this place, or no text where the question has none.
    pub(super) fn word(&self, place: usize) -> &'q str {
        match self.words.get(place) {
            Some(word) => word,
            None => "",
        }
    }

    /// The ID at this place, or that of no text.
    pub(super) fn id(&self, place: usize) -> &'q PackageId {
        self.ids.get(place).unwrap_or(self.no_id)
    }

    /// The words from this place on.
    pub(super) fn words_from(&self, place: usize) -> &'q [&'q str] {
        if place < self.words.len() {
            &self.words[place..]
        } else {
            &[]
        }
    }

    /// The IDs from this place on.
    pub(super) fn ids_from(&self, place: usize) -> &'q [PackageId] {
        if place < self.ids.len() {
            &self.ids[place..]
        } else {
            &[]
        }
    }
}

// Compares the graph with another one.
fn tell_beside(rt: &impl Abort, graph: &PackageGraph, question: &Question<'_>, out: &mut Answer) {
    match graph_of(rt, graph.alloc(), other_graph(question.word(1))) {
        Ok(other) => beside(graph, &other, question, out),
        Err(error) => out.fail(error),
    }
}

fn tell(rt: &impl Abort, graph: &PackageGraph, question: &Question<'_>, out: &mut Answer) {
    match question.word(0) {
        "looks" => put_looks(rt, graph, question, out),
        "beside" => tell_beside(rt, graph, question, out),
        "package" => ask_package(graph, question, out),
        "workspace" => ask_workspace(graph, question, out),
        "resolve" => ask_query(graph, question, out),
        _ => ask_graph(graph, question, out),
    }
}

fn words_of<'t>(rt: &impl Abort, alloc: Global, text: &'t str) -> Vec<&'t str> {
    let words: Result<Vec<&str>, AllocError> = text.split_whitespace().collect(alloc);
    words.expect(rt, "words")
}

fn tell_words(rt: &impl Abort, graph: &PackageGraph, text: &str, out: &mut Answer) {
    let words = words_of(rt, graph.alloc(), text);
    let ids = ids(rt, graph.alloc(), words.as_slice());
    let no_id = PackageId::new(String::new(graph.alloc()));
    let question = Question {
        words: words.as_slice(),
        ids: ids.as_slice(),
        no_id: &no_id,
    };
    tell(rt, graph, &question, out);
}

// Adds the answer to each of the questions, with a comma between.
fn tell_each(rt: &impl Abort, graph: &PackageGraph, questions: &str, out: &mut Answer) {
    for question in questions.split(", ") {
        out.put_comma();
        tell_words(rt, graph, question, out);
    }
}

fn no_answer(alloc: Global) -> Answer {
    Answer {
        text: String::new(alloc),
        is_cut: false,
    }
}

fn tell_all(rt: &impl Abort, alloc: Global, graph: &str, questions: &str) -> Answer {
    let mut out = no_answer(alloc);
    match graph_of(rt, alloc, graph) {
        Ok(graph) => tell_each(rt, &graph, questions, &mut out),
        Err(error) => out.fail(error),
    }
    if out.text.is_empty() {
        out.put("nothing");
    }
    out
}

// The number of a word like `p5` or `5+`.
fn number_of(word: &str) -> usize {
    let digits = word.trim_start_matches('p').trim_end_matches('+');
    digits.parse().unwrap_or(0)
}

// Adds the words from the one to the other, which have the same marks about their numbers.
fn put_range(first: &str, last: &str, out: &mut Answer) {
    let (from, to) = (number_of(first), number_of(last));
    for step in 0..=from.abs_diff(to) {
        out.put(if first.starts_with('p') { "p" } else { "" });
        out.put_digits(if from < to {
            from.saturating_add(step)
        } else {
            from.saturating_sub(step)
        });
        out.put_mark(if first.ends_with('+') { "+" } else { "" });
    }
}

fn put_words(part: &str, out: &mut Answer) {
    for word in part.split(' ') {
        match word.split_once("..=") {
            Some((first, last)) => put_range(first, last, out),
            None => out.put(word),
        }
    }
}

// The wanted text with each range of words written out.
fn written_out(alloc: Global, wanted: &str) -> Answer {
    let mut out = no_answer(alloc);
    for part in wanted.split(", ") {
        out.put_comma();
        put_words(part, &mut out);
    }
    out
}

fn are_same_words(rt: &impl Abort, alloc: Global, one: &str, other: &str) -> bool {
    let mut one = words_of(rt, alloc, one);
    let mut other = words_of(rt, alloc, other);
    one.sort_unstable();
    other.sort_unstable();
    one.as_slice() == other.as_slice()
}

fn is_wanted(rt: &impl Abort, alloc: Global, answer: &str, wanted: &str, is_sorted: bool) -> bool {
    let wanted = written_out(alloc, wanted);
    let wanted = wanted.text.as_str();
    wanted == answer || is_sorted && are_same_words(rt, alloc, wanted, answer)
}

fn is_one_of(rt: &impl Abort, alloc: Global, answer: &str, wanted: &str, is_sorted: bool) -> bool {
    let mut is_one = false;
    for text in wanted.split(" or ") {
        is_one = is_one || is_wanted(rt, alloc, answer, text, is_sorted);
    }
    is_one
}

fn assert_answer(rt: &impl Abort, alloc: Global, example: (&str, &str), asked: (&str, &str)) {
    let (name, graph) = example;
    let (questions, wanted) = asked;
    let sorted = questions.strip_prefix("sorted ");
    let answer = tell_all(rt, alloc, graph, sorted.unwrap_or(questions));
    assert!(rt; !answer.is_cut, "{name}: {questions}: memory was refused");
    let answer = answer.text.as_str();
    assert!(rt;
        is_one_of(rt, alloc, answer, wanted, sorted.is_some()),
        "{name}: {questions} = {answer}"
    );
}

// Asks each question of the table, and compares the answers.
fn assert_examples(rt: &impl Abort, alloc: Global, table: &str) {
    let mut example = ("", "");
    for line in table.lines() {
        let line = line.trim();
        if let Some((question, wanted)) = line.split_once(" = ") {
            assert_answer(rt, alloc, example, (question, wanted));
        } else if let Some(next) = line.split_once(" | ") {
            example = next;
        } else {
            assert!(rt; line.is_empty(), "{line}");
        }
    }
}

const TABLES: [&str; 15] = [
    graphs::GRAPHS,
    graphs::BROKEN_RULES,
    faults::EACH_PLACE,
    faults::TWO_FAULTS,
    graphs::VERIFIED,
    lists::LISTS,
    lists::PUBLISHED,
    lists::AFFECTED,
    queries::QUERIES,
    sets::SETS,
    sets::PARTS,
    sets::TWO_GRAPHS,
    views::FIELDS,
    views::PACKAGES,
    views::WORKSPACES,
];

#[test]
fn examples(rt: HostRuntime) {
    resolved_sets_are_whole();
    for table in TABLES {
        assert_examples(&rt, rt.alloc(), table);
    }
}

#[test]
fn large_graphs(rt: HostRuntime) {
    assert_examples(&rt, rt.alloc(), large::LARGE);
}
