//! Chains of 200,000 clauses, which a search that recurses or goes through all clauses again can't close.
ghost use Rattle.std.specs.Prelude.{◌<◌};

use crate::judge::clause;
use guppy_closure::{Clause, are_within, closure, derivation};
use std::alloc::Global;
use std::process::Abort;

const LENGTH: usize = 200_000;

// Each fact but the first follows from the one before it and the one before that, if there is one.
fn clause_of(fact: usize) -> Clause<usize> {
    match fact.checked_sub(1) {
        Some(before) => clause(before.checked_sub(1), Some(before), fact),
        None => clause(None, None, 0),
    }
}

// The number of the clause of a fact, from the first or from the last one on.
fn number_of(fact: usize, forward: bool) -> usize
    requires { fact < LENGTH }
    ensures { result < LENGTH }
{
    if forward { fact } else { LENGTH - 1 - fact }
}

fn chain(rt: &impl Abort, alloc: Global, forward: bool) -> Vec<Clause<usize>> {
    let mut clauses = Vec::new(alloc);
    for number in 0..LENGTH {
        let clause = clause_of(number_of(number, forward));
        clauses.push(clause).expect(rt, "clauses");
    }
    clauses
}

fn judge(rt: &impl Abort, alloc: Global, forward: bool) {
    let clauses = chain(rt, alloc, forward);
    assert!(rt; clauses.len() == LENGTH && are_within(&clauses, LENGTH));
    let closed = closure(alloc, &clauses, LENGTH).expect(rt, "a closure");
    assert_eq!(rt; closed.facts.len(), LENGTH, "facts");
    // One for the first fact, one for the second, and two for each other.
    assert_eq!(rt; closed.looks, 2 * LENGTH - 2, "looks");
    assert!(rt; closed.contains(LENGTH - 1));
    let steps = derivation(alloc, &clauses, &closed, LENGTH - 1).expect(rt, "a derivation");
    assert_eq!(rt; steps.len(), LENGTH, "steps");
    for (fact, number) in steps.iter().enumerate() {
        if fact < LENGTH {
            assert_eq!(rt; *number, number_of(fact, forward), "the clause of {fact}");
        }
    }
}

#[test]
fn chain_from_the_first_clause_on(rt: HostRuntime) {
    judge(&rt, rt.alloc(), true);
}

#[test]
fn chain_from_the_last_clause_on(rt: HostRuntime) {
    judge(&rt, rt.alloc(), false);
}

// All facts follow from the first, and the first from nothing.
#[test]
fn star(rt: HostRuntime) {
    let mut clauses = Vec::new(rt.alloc());
    for fact in 0..LENGTH {
        let clause = clause(if fact > 0 { Some(0) } else { None }, None, fact);
        clauses.push(clause).expect(&rt, "clauses");
    }
    assert!(rt; clauses.len() == LENGTH && are_within(&clauses, LENGTH));
    let closed = closure(rt.alloc(), &clauses, LENGTH).expect(&rt, "a closure");
    assert_eq!(rt; closed.looks, LENGTH, "looks");
    assert!(rt; closed.contains(LENGTH / 2));
    let steps = derivation(rt.alloc(), &clauses, &closed, LENGTH / 2).expect(&rt, "a derivation");
    assert_eq!(rt;
        steps.as_slice(),
        [0, LENGTH / 2].as_slice(),
        "the first fact, and this one"
    );
}
