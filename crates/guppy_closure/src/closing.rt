//! The facts that hold, found one after another.
ghost use Rattle.std.specs.Prelude.{◌≡◌, ◌↔◌, ℕ, ◌+◌, ◌*◌, ◌<◌, ◌≤◌, ◌^◌, length, sum_by, IfOk, All, vec_len, vec_capacity};
ghost use Rattle.guppy_search.specs.IxSet.{has, IsIn};
ghost use Rattle.guppy_closure.specs.Clauses.{IsWithin, Holds};
ghost use Rattle.guppy_closure.specs.Derived.{IsFound};
ghost use Rattle.guppy_closure.specs.Places.{slots, AreLinked};
ghost use Rattle.guppy_closure.specs.Counts.{looks_of};
ghost use Rattle.guppy_closure.specs.Closing.{LooksAt, Closing, IsNone};

use crate::bodies::Bodies;
use crate::clause::Clause;
use crate::fact::Facts;
use guppy_search::IxSet;
use std::alloc::{AllocError, Global};

/// The facts that hold, and how they were found.
#[derive(Drop)]
pub struct Closed {
    /// The facts that hold, as positions.
    pub facts: IxSet<Facts>,
    /// The numbers of the clauses that gave them, one for each, in the order in which they were found: each has its
    /// body among the heads of those before it. From these [`derivation`](crate::derivation) tells why a fact holds.
    pub found: Vec<u32>,
    /// How often a clause was looked at.
    pub looks: usize,
}

/// The facts that hold: the least set that has the head of each clause whose body it has.
///
/// Each fact that a clause names is below the count, as [`are_within`](crate::are_within) tells; there are fewer than
/// 2^32 facts and 2^31 clauses.
///
/// A clause with an empty body is looked at once, any other once for each fact of its body that holds, so none more than
/// twice; beside these looks, each is read for the places of its facts, and for whether its body is empty. Time grows
/// with the facts and the clauses. All memory is taken before the first look: a bit and two numbers of four bytes a
/// fact, and two a clause, of which what is answered keeps a bit and a number a fact. Fails only where there is none.
pub fn closure(alloc: Global, clauses: &[Clause<usize>], count: usize) -> Result<Closed, AllocError>
    requires within { All (IsWithin count) clauses.now }
    requires few_facts { count < 2 ^ 32 }
    requires few_clauses { length clauses.now < 2 ^ 31 }
    ensures count { IfOk result (λ closed. length closed.facts ≡ count) }
    ensures holds { IfOk result (λ closed. (f : ℕ) → IsIn closed.facts f ↔ Holds clauses.now f) }
    ensures found { IfOk result (λ closed. IsFound clauses.now closed.facts closed.found.items) }
    ensures looks { IfOk result (λ closed. closed.looks ≡ sum_by (looks_of closed.facts) clauses.now) }
    ensures few { IfOk result (λ closed. closed.looks ≤ 2 * length clauses.now) }
{
    let bodies = Bodies::new(alloc, clauses, count)?;
    let mut closed = Closed::begin(alloc, clauses, count)?;
    let mut next = 0;
    'facts: while next < closed.found.len() {
        closed.follow(clauses, &bodies, next);
        next += 1;
    }
    Ok(closed)
}

impl Closed {
    /// Whether the fact holds. It is below the count. Takes the same time for any fact.
    pub fn contains(&self, fact: usize) -> bool
        requires { fact < length self.now.facts }
        ensures { result ≡ has self.now.facts fact }
    {
        self.facts.has_position(fact)
    }

    // What the clauses with an empty body give, of which nothing is followed yet.
    fn begin(alloc: Global, clauses: &[Clause<usize>], count: usize) -> Result<Self, AllocError>
        requires within { All (IsWithin count) clauses.now }
        requires few_facts { count < 2 ^ 32 }
        requires few_clauses { length clauses.now < 2 ^ 31 }
        ensures count { IfOk result (λ closed. length closed.facts ≡ count) }
        ensures closing { IfOk result (λ closed.
            Closing clauses.now closed.facts closed.found.items 0 closed.looks IsNone) }
        ensures room { IfOk result (λ closed. count ≤ vec_capacity closed.found) }
    {
        let facts = IxSet::empty(alloc, count)?;
        let found = Vec::with_capacity(alloc, count)?;
        let mut closed = Closed {
            facts,
            found,
            looks: 0,
        };
        'clauses: for (number, clause) in clauses.iter().enumerate() {
            if !clause.is_given() {
                continue;
            }
            closed.look(clause, number);
        }
        Ok(closed)
    }

    // Looks at the clauses in whose body the fact stands that was found at this place.
    fn follow(&mut self, clauses: &[Clause<usize>], bodies: &Bodies, place: usize)
        requires within { All (IsWithin (length self.old.facts)) clauses.now }
        requires few_facts { length self.old.facts < 2 ^ 32 }
        requires few_clauses { length clauses.now < 2 ^ 31 }
        requires linked { AreLinked (slots clauses.now) bodies.now.last.items bodies.now.earlier.items }
        requires last { length bodies.now.last.items ≡ length self.old.facts }
        requires inside { place < length self.old.found.items }
        requires closing { Closing clauses.now self.old.facts self.old.found.items place
            self.old.looks IsNone }
        requires room { length self.old.facts ≤ vec_capacity self.old.found }
        ensures count { length self.new.facts ≡ length self.old.facts }
        ensures closing { Closing clauses.now self.new.facts self.new.found.items (place + 1)
            self.new.looks IsNone }
        ensures capacity { vec_capacity self.new.found ≡ vec_capacity self.old.found }
    {
        let fact = clauses[self.found[place] as usize].head;
        let mut mark = bodies.last[fact] as usize;
        'places: while mark > 0 {
            let number = (mark - 1) / 2;
            self.look(&clauses[number], number);
            mark = bodies.earlier[mark - 1] as usize;
        }
    }

    // Looks at the clause of this number: puts its head in, where the whole body is in the set and the head isn't.
    fn look(&mut self, clause: &Clause<usize>, number: usize)
        requires within { IsWithin (length self.old.facts) clause.now }
        requires few { length self.old.facts < 2 ^ 32 }
        requires number { number < 2 ^ 32 }
        requires room { ¬ IsIn self.old.facts clause.now.head
            → vec_len self.old.found < vec_capacity self.old.found }
        requires looks { self.old.looks + 1 < 2 ^ 64 }
        ensures effect { LooksAt clause.now number self.old.facts self.old.found.items
            self.new.facts self.new.found.items }
        ensures looks { self.new.looks ≡ self.old.looks + 1 }
        ensures capacity { vec_capacity self.new.found ≡ vec_capacity self.old.found }
    {
        self.looks += 1;
        if self.facts.has_position(clause.head) {
            return;
        }
        if clause.is_met(&self.facts) {
            self.facts.insert_position(clause.head);
            self.found.push_reserved(number as u32);
        }
    }
}
