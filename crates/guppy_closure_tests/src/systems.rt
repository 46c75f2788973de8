//! All systems of up to three clauses over three facts, larger ones that are drawn, and examples.
ghost use Rattle.std.specs.Prelude.{◌<◌};

use crate::judge::{clause, is_right};
use guppy_closure::{Clause, are_within};
use std::alloc::Global;
use std::process::Abort;

const FACTS: usize = 3;

// Each place of a body has one of the facts, or none.
const WAYS: usize = FACTS + 1;

const CLAUSES: usize = WAYS * WAYS * FACTS;

// No fact for 0, else the one before it.
fn fact_before(number: usize) -> Option<usize> {
    number.checked_sub(1)
}

// The clause of this number. Numbers below that of clauses give different ones.
fn clause_of(number: usize) -> Clause<usize> {
    let first = fact_before(number % WAYS);
    let second = fact_before(number / WAYS % WAYS);
    clause(first, second, number / WAYS / WAYS % FACTS)
}

fn judge(rt: &impl Abort, alloc: Global, clauses: &[Clause<usize>], system: usize) {
    assert!(rt;
        is_right(rt, alloc, clauses, FACTS),
        "system {system}, of {clauses:?}"
    );
}

#[test]
fn all_small_systems(rt: HostRuntime) {
    judge(&rt, rt.alloc(), &[], 0);
    for system in 0..CLAUSES * CLAUSES * CLAUSES {
        let clauses = [
            clause_of(system % CLAUSES),
            clause_of(system / CLAUSES % CLAUSES),
            clause_of(system / CLAUSES / CLAUSES),
        ];
        judge(&rt, rt.alloc(), &clauses, system);
        if system < CLAUSES * CLAUSES {
            judge(&rt, rt.alloc(), &clauses[..2], system);
        }
        if system < CLAUSES {
            judge(&rt, rt.alloc(), &clauses[..1], system);
        }
    }
}

// A number that looks drawn, the same for the same seed.
fn mixed(seed: u64) -> u64 {
    let spread = seed.wrapping_add(1).wrapping_mul(0x9E37_79B9_7F4A_7C15);
    let once = (spread ^ (spread >> 30)).wrapping_mul(0xBF58_476D_1CE4_E5B9);
    let twice = (once ^ (once >> 27)).wrapping_mul(0x94D0_49BB_1331_11EB);
    twice ^ (twice >> 31)
}

// A clause over so many facts: of sixteen, one has no body, and five have one fact in it.
fn drawn_clause(drawn: u64, count: usize) -> Clause<usize>
    requires { 0 < count }
{
    let first = (drawn >> 8) as usize % count;
    let second = (drawn >> 24) as usize % count;
    let head = (drawn >> 40) as usize % count;
    match drawn % 16 {
        0 => clause(None, None, head),
        1..=3 => clause(Some(first), None, head),
        4 | 5 => clause(None, Some(second), head),
        _ => clause(Some(first), Some(second), head),
    }
}

fn drawn_clauses(
    rt: &impl Abort,
    alloc: Global,
    seed: u64,
    clauses: u64,
    count: usize,
) -> Vec<Clause<usize>>
    requires { 0 < count }
{
    let mut drawn = Vec::new(alloc);
    for number in 0..clauses {
        let clause = drawn_clause(mixed(seed.wrapping_add(number)), count);
        drawn.push(clause).expect(rt, "clauses");
    }
    drawn
}

#[test]
fn drawn_systems(rt: HostRuntime) {
    for seed in 0..3000 {
        let drawn = mixed(seed);
        let count = drawn as usize % 24 + 1;
        let clauses = drawn_clauses(&rt, rt.alloc(), drawn, (drawn >> 32) % 80, count);
        assert!(rt; is_right(&rt, rt.alloc(), &clauses, count), "seed {seed}");
    }
}

#[test]
fn facts_out_of_range(rt: HostRuntime) {
    assert!(rt; !are_within(&[clause(None, Some(2), 1)], 2));
    assert!(rt; !are_within(&[clause(Some(2), None, 1)], 2));
    assert!(rt; !are_within(&[clause(None, None, 2)], 2));
    assert!(rt; !clause(None, None, 2).is_within(2));
    assert!(rt; are_within(&[clause(Some(1), Some(0), 0)], 2));
}
