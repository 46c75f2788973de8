//! A judge of a system of clauses, which knows nothing of how a closure is found. No contract of it cites a definition.
ghost use Rattle.std.specs.Prelude.{◌≤◌};

use crate::known::is_known;
use guppy_closure::{Clause, Closed, are_within, closure, derivation};
use guppy_search::IndexType;
use std::alloc::Global;
use std::process::Abort;

/// The clause with this body and head.
pub(crate) fn clause(first: Option<usize>, second: Option<usize>, head: usize) -> Clause<usize> {
    Clause {
        first,
        second,
        head,
    }
}

/// Whether the fact is marked.
pub(crate) fn is_marked(marks: &[bool], fact: usize) -> bool {
    match marks.get(fact) {
        Some(mark) => *mark,
        None => false,
    }
}

fn mark(marks: &mut [bool], fact: usize) {
    if let Some(place) = marks.get_mut(fact) {
        *place = true;
    }
}

fn has(fact: Option<usize>, marks: &[bool]) -> bool {
    match fact {
        Some(fact) => is_marked(marks, fact),
        None => true,
    }
}

fn is_met(clause: &Clause<usize>, marks: &[bool]) -> bool {
    has(clause.first, marks) && has(clause.second, marks)
}

// Goes through the clauses as often as there are facts: each time at least one more holds, if any is left.
fn marks_of(rt: &impl Abort, alloc: Global, clauses: &[Clause<usize>], count: usize) -> Vec<bool> {
    let mut marks = vec![in alloc; false; count].expect(rt, "marks");
    for _ in 0..count {
        mark_heads(clauses, &mut marks);
    }
    marks
}

fn mark_heads(clauses: &[Clause<usize>], marks: &mut [bool]) {
    for clause in clauses {
        if is_met(clause, marks) {
            mark(marks, clause.head);
        }
    }
}

fn one_if(fact: Option<usize>, marks: &[bool]) -> usize
    ensures { result ≤ 1 }
{
    match fact {
        Some(fact) if is_marked(marks, fact) => 1,
        _ => 0,
    }
}

// A clause with no body counts once, any other once for each fact of its body that holds.
fn looks_of(clause: &Clause<usize>, marks: &[bool]) -> usize {
    if clause.first.is_none() && clause.second.is_none() {
        return 1;
    }
    one_if(clause.first, marks) + one_if(clause.second, marks)
}

// How many looks are left of so many, or none where there are too few.
fn looks_left(clauses: &[Clause<usize>], marks: &[bool], looks: usize) -> Option<usize> {
    let mut left = looks;
    for clause in clauses {
        left = left.checked_sub(looks_of(clause, marks))?;
    }
    Some(left)
}

fn needs(clause: &Clause<usize>, fact: usize) -> bool {
    clause.first == Some(fact) || clause.second == Some(fact)
}

// Whether a clause of one of these steps needs the fact.
fn is_needed(clauses: &[Clause<usize>], steps: &[usize], fact: usize) -> bool {
    for number in steps {
        match clauses.get(*number) {
            Some(clause) if needs(clause, fact) => return true,
            _ => {}
        }
    }
    false
}

/// Whether the steps derive the fact: each body is derived before, no head is twice, the fact is the last head, and
/// each other head is needed later.
pub(crate) fn derives(
    rt: &impl Abort,
    alloc: Global,
    clauses: &[Clause<usize>],
    count: usize,
    steps: &[usize],
    fact: usize,
) -> bool {
    let mut marks = vec![in alloc; false; count].expect(rt, "marks");
    for (place, number) in steps.iter().enumerate() {
        let Some(clause) = clauses.get(*number) else {
            return false;
        };
        if !is_met(clause, &marks) || is_marked(&marks, clause.head) || is_marked(&marks, fact) {
            return false;
        }
        if clause.head != fact && !is_needed(clauses, &steps[place + 1..], clause.head) {
            return false;
        }
        mark(&mut marks, clause.head);
    }
    is_marked(&marks, fact)
}

// Whether each fact of the set is marked.
fn are_marked(closed: &Closed, marks: &[bool]) -> bool {
    for fact in closed.facts.ones() {
        if !is_marked(marks, fact.index()) {
            return false;
        }
    }
    true
}

/// Whether exactly what holds is closed, with the looks that the clauses ask for and a derivation of each fact, and is
/// known of names.
pub(crate) fn is_right(
    rt: &impl Abort,
    alloc: Global,
    clauses: &[Clause<usize>],
    count: usize,
) -> bool {
    if count >= 1000 || clauses.len() >= 1000 || !are_within(clauses, count) {
        return false;
    }
    let marks = marks_of(rt, alloc, clauses, count);
    let closed = closure(alloc, clauses, count).expect(rt, "a closure");
    if !are_marked(&closed, &marks) || looks_left(clauses, &marks, closed.looks) != Some(0) {
        return false;
    }
    for fact in 0..count {
        if closed.contains(fact) != is_marked(&marks, fact) {
            return false;
        }
        if closed.contains(fact) {
            let steps = derivation(alloc, clauses, &closed, fact).expect(rt, "a derivation");
            if !derives(rt, alloc, clauses, count, &steps, fact) {
                return false;
            }
        }
    }
    is_known(rt, alloc, clauses, &marks)
}
