//! Why a fact holds.
ghost use Rattle.std.specs.Prelude.{◌≡◌, ◌⊎◌, ◌↔◌, ℕ, ◌<◌, ◌^◌, Some, length, IfOk};
ghost use Rattle.guppy_search.specs.IxSet.{IsIn};
ghost use Rattle.guppy_closure.specs.Clauses.{InBody};
ghost use Rattle.guppy_closure.specs.Derived.{IsFound, IsDerivation, EndsWith, AreNeeded};
ghost use Rattle.guppy_closure.specs.Needs.{HasBodies, Needs, AreSteps};

use crate::clause::Clause;
use crate::closing::Closed;
use crate::fact::Facts;
use guppy_search::IxSet;
use std::alloc::{AllocError, Global};

/// Why the fact holds: the numbers of clauses, each after those whose heads its body has, the last one with the fact as
/// its head. No two have the same head, and each but the last has one that a later one needs.
///
/// What is closed is what [`closure`](crate::closure) answered for these clauses, and the fact is in it.
///
/// Time grows with the facts that hold. Takes memory for a bit a fact and a number a step, and fails only where there
/// is none.
pub fn derivation(
    alloc: Global,
    clauses: &[Clause<usize>],
    closed: &Closed,
    fact: usize,
) -> Result<Vec<usize>, AllocError>
    requires found { IsFound clauses.now closed.now.facts closed.now.found.items }
    requires holds { IsIn closed.now.facts fact }
    ensures order { IfOk result (λ steps. IsDerivation clauses.now steps.items) }
    ensures last { IfOk result (λ steps. EndsWith clauses.now steps.items fact) }
    ensures needed { IfOk result (λ steps. AreNeeded clauses.now steps.items fact) }
{
    let needed = needed_for(alloc, clauses, closed, fact)?;
    steps_of(alloc, clauses, closed, &needed)
}

// The fact and what it needs: of each clause found whose head is in, the body.
fn needed_for(
    alloc: Global,
    clauses: &[Clause<usize>],
    closed: &Closed,
    fact: usize,
) -> Result<IxSet<Facts>, AllocError>
    requires found { IsFound clauses.now closed.now.facts closed.now.found.items }
    requires holds { IsIn closed.now.facts fact }
    ensures count { IfOk result (λ needed. length needed ≡ length closed.now.facts) }
    ensures needs { IfOk result (λ needed.
        Needs clauses.now closed.now.found.items fact closed.now.facts needed) }
{
    let mut needed = IxSet::empty(alloc, closed.facts.node_count())?;
    needed.insert_position(fact);
    'places: for place in (0..closed.found.len()).rev() {
        let clause = &clauses[closed.found[place] as usize];
        if needed.has_position(clause.head) {
            add_body(&mut needed, clause);
        }
    }
    Ok(needed)
}

// Puts the facts of the body in.
fn add_body(set: &mut IxSet<Facts>, clause: &Clause<usize>)
    requires { (f : ℕ) → InBody clause.now f → (f < length set.old) × (f < 2 ^ 32) }
    ensures count { length set.new ≡ length set.old }
    ensures members { (f : ℕ) → IsIn set.new f ↔ (IsIn set.old f ⊎ InBody clause.now f) }
{
    add(set, clause.first);
    add(set, clause.second);
}

// Puts the fact in, if there is one.
fn add(set: &mut IxSet<Facts>, fact: Option<usize>)
    requires { (f : ℕ) → fact ≡ Some f → (f < length set.old) × (f < 2 ^ 32) }
    ensures count { length set.new ≡ length set.old }
    ensures members { (f : ℕ) → IsIn set.new f ↔ (IsIn set.old f ⊎ (fact ≡ Some f)) }
{
    if let Some(fact) = fact {
        set.insert_position(fact);
    }
}

// The clauses found whose heads are in the set, in their order.
fn steps_of(
    alloc: Global,
    clauses: &[Clause<usize>],
    closed: &Closed,
    needed: &IxSet<Facts>,
) -> Result<Vec<usize>, AllocError>
    requires found { IsFound clauses.now closed.now.facts closed.now.found.items }
    requires count { length needed.now ≡ length closed.now.facts }
    requires bodies { HasBodies clauses.now closed.now.found.items needed.now }
    ensures order { IfOk result (λ steps. IsDerivation clauses.now steps.items) }
    ensures steps { IfOk result (λ steps.
        AreSteps clauses.now closed.now.found.items needed.now steps.items) }
{
    let mut steps = Vec::with_capacity(alloc, needed.len())?;
    'found: for number in &closed.found {
        let number = *number as usize;
        if needed.has_position(clauses[number].head) {
            steps.push(number)?;
        }
    }
    Ok(steps)
}
