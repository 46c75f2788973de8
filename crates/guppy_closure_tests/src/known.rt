//! Clauses over facts that are names, beside those over numbers: the same facts hold, for the same reasons.

use crate::judge::{clause, derives, is_marked};
use guppy_closure::{Clause, Known};
use std::alloc::Global;
use std::process::Abort;

// The name of a fact. No two facts have the same, and names ascend in another order than facts.
fn name_of(fact: usize) -> u64 {
    let spread = (fact as u64)
        .wrapping_add(1)
        .wrapping_mul(0x9E37_79B9_7F4A_7C15);
    spread ^ (spread >> 30)
}

fn named(clause: &Clause<usize>) -> Clause<u64> {
    Clause {
        first: clause.first.map(name_of),
        second: clause.second.map(name_of),
        head: name_of(clause.head),
    }
}

fn known_of(rt: &impl Abort, alloc: Global, clauses: &[Clause<usize>]) -> Known<u64> {
    let mut list = Vec::new(alloc);
    for clause in clauses {
        list.push(named(clause)).expect(rt, "clauses");
    }
    Known::new(alloc, list).expect(rt, "what is known")
}

// Whether the fact holds where it is marked, with a derivation.
fn is_told(
    rt: &impl Abort,
    alloc: Global,
    known: &Known<u64>,
    clauses: &[Clause<usize>],
    marks: &[bool],
    fact: usize,
) -> bool {
    let holds = is_marked(marks, fact);
    if known.holds(&name_of(fact)) != holds {
        return false;
    }
    match known
        .derivation(alloc, &name_of(fact))
        .expect(rt, "a derivation")
    {
        Some(steps) => holds && derives(rt, alloc, clauses, marks.len(), &steps, fact),
        None => !holds,
    }
}

/// Whether exactly the facts that are marked hold by their names, each with a derivation.
pub(crate) fn is_known(
    rt: &impl Abort,
    alloc: Global,
    clauses: &[Clause<usize>],
    marks: &[bool],
) -> bool {
    let known = known_of(rt, alloc, clauses);
    for fact in 0..marks.len() {
        if !is_told(rt, alloc, &known, clauses, marks, fact) {
            return false;
        }
    }
    // A fact that no clause names doesn't hold.
    if known.holds(&name_of(marks.len())) {
        return false;
    }
    let facts = known.facts(alloc).expect(rt, "facts");
    facts.len() == marks.iter().filter(|mark| **mark).count()
        && facts.is_sorted_by(|fact, next| fact < next)
        && facts.iter().all(|fact| known.holds(fact))
}

const LENGTH: usize = 200_000;

// A chain from the last clause on: each fact follows from the one before it.
#[test]
fn chain_of_names(rt: HostRuntime) {
    let mut clauses = Vec::new(rt.alloc());
    for number in 0..LENGTH {
        let fact = LENGTH - 1 - number;
        let clause = clause(fact.checked_sub(1), None, fact);
        clauses.push(clause).expect(&rt, "clauses");
    }
    let known = known_of(&rt, rt.alloc(), &clauses);
    let facts = known.facts(rt.alloc()).expect(&rt, "facts");
    assert_eq!(rt; facts.len(), LENGTH, "facts");
    assert!(rt; known.holds(&name_of(LENGTH - 1)) && !known.holds(&name_of(LENGTH)));
    let steps = known
        .derivation(rt.alloc(), &name_of(LENGTH - 1))
        .expect(&rt, "a derivation");
    let Some(steps) = steps else {
        panic!(rt; "the last fact holds");
    };
    assert_eq!(rt; steps.len(), LENGTH, "steps");
    for (fact, number) in steps.iter().enumerate() {
        assert!(rt;
            fact < LENGTH && *number == LENGTH - 1 - fact,
            "the clause of {fact}"
        );
    }
}

// Two clauses with the same facts, and a body in which a fact stands twice.
#[test]
fn repeated_names(rt: HostRuntime) {
    let clauses = [
        clause(None, None, 4),
        clause(Some(4), Some(4), 2),
        clause(Some(4), Some(4), 2),
        clause(Some(3), None, 1),
    ];
    let known = known_of(&rt, rt.alloc(), &clauses);
    let mut expected = [name_of(2), name_of(4)];
    expected.sort_unstable();
    let facts = known.facts(rt.alloc()).expect(&rt, "facts");
    assert_eq!(rt; facts.as_slice(), expected.as_slice(), "facts");
    assert_eq!(rt; known.clauses().len(), 4, "clauses");
}
