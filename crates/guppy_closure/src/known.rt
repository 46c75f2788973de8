//! What follows from clauses over facts of any ordered type.
ghost use Rattle.std.specs.Prelude.{◌≡◌, ◌↔◌, ℕ, ◌<◌, ◌≤◌, ◌^◌, List, length, Contains, IsTrue, is_some, IfOk, MatchOption};
ghost use Rattle.std.specs.Option.{IfSome};
ghost use Rattle.std.specs.Result.{IfErr};
ghost use Rattle.std.specs.List.Sorted.{IsStrictlySortedBy};
ghost use Rattle.guppy_search.specs.IxSet.{IsIn};
ghost use Rattle.guppy_closure.specs.declared.clause.Clause.{Clause};
ghost use Rattle.guppy_closure.specs.Clauses.{Holds};
ghost use Rattle.guppy_closure.specs.Derived.{IsDerivation, EndsWith, AreNeeded};
ghost use Rattle.guppy_closure.specs.Named.{IsExact, StandsAt, Knows};

use crate::clause::Clause;
use crate::closing::{Closed, closure};
use crate::hints::{Spread, hints_at};
use crate::named::{find, held, names_of, numbered};
use crate::reasons::derivation;
use guppy_search::Hints;
use std::alloc::{AllocError, Global};
use std::marker::Model;

/// Why nothing is known of clauses.
#[derive(Clone, Copy, Debug, PartialEq, Eq)]
pub enum ClosureFault {
    /// There are 2^30 of them or more.
    TooManyClauses,
    /// Memory is wanted.
    OutOfMemory,
}

impl From<AllocError> for ClosureFault {
    ghost use Rattle.guppy_closure.specs.declared.known.ClosureFault.TheVariants.{OutOfMemory};

    ghost from_gives = { λ _ fault. fault ≡ OutOfMemory };

    fn from(_error: AllocError) -> Self {
        ClosureFault::OutOfMemory
    }
}

/// Clauses over facts of any ordered type, and which facts hold by them. Contracts see the list of the clauses.
#[derive(Drop)]
pub struct Known<F: Ord + Copy + Spread> {
    clauses: Vec<Clause<F>>,
    /// All facts that they name, ascending, each once.
    names: Vec<F>,
    /// Where each of them stands there.
    hints: Hints,
    /// The clauses by the places of their facts.
    numbered: Vec<Clause<usize>>,
    /// What holds of these places.
    closed: Closed,
}

impl<F: Ord + Copy + Spread> Model for Known<F> {
    ghost Value = { List (Clause F) };

    ghost view = { λ k. k.clauses.items };

    ghost invariant = { λ k. Knows F.cmp k.clauses.items k.names.items k.numbered.items k.closed.facts
        k.closed.found.items };
}

impl<F: Ord + Copy + Spread> Known<F> {
    /// What follows from the clauses, which are fewer than 2^30. Facts that compare as equal have to be the same.
    ///
    /// Time grows with the clauses, times the logarithm of how many there are, by which facts are sorted and, where their
    /// numbers ([`Spread`]) are too alike, found. Takes memory for the facts that are named, at most three a clause, and
    /// beside them 48 bytes a clause, and 24 and a bit a fact, of which what is answered keeps all but eight a clause and
    /// four a fact. Fails with `TooManyClauses` exactly where there are too many, and else with `OutOfMemory` only where
    /// there is no memory.
    pub fn new(alloc: Global, clauses: Vec<Clause<F>>) -> Result<Self, ClosureFault>
        requires exact { IsExact F.cmp }
        ensures clauses { IfOk result (λ known. known ≡ clauses.items) }
        ensures few { IfOk result (λ known. length known < 2 ^ 30) }
        ensures fault { IfErr result (λ fault.
            fault ≡ ClosureFault.TooManyClauses ↔ 2 ^ 30 ≤ length clauses.items) }
    {
        if clauses.len() >= 1 << 30 {
            return Err(ClosureFault::TooManyClauses);
        }
        let names = names_of(alloc, &clauses)?;
        let hints = hints_at(alloc, &names)?;
        let numbered = numbered(alloc, &clauses, &names, &hints)?;
        let closed = closure(alloc, &numbered, names.len())?;
        Ok(Known {
            clauses,
            names,
            hints,
            numbered,
            closed,
        })
    }

    /// The clauses, as they were given.
    pub fn clauses(&self) -> &[Clause<F>]
        ensures { result.now ≡ self.now }
    {
        self.clauses.as_slice()
    }

    /// Whether the fact holds. Mostly takes a comparison or, where it isn't named, of the order of log n for n facts that
    /// are, and never more. Takes no memory.
    pub fn holds(&self, fact: &F) -> bool
        ensures { IsTrue result ↔ Holds self.now fact.now }
    {
        held_at(&self.names, &self.hints, &self.closed, fact).is_some()
    }

    /// The facts that hold, ascending, each once. Time grows with the facts that are named. Takes memory for those that
    /// hold, and fails only where there is none.
    pub fn facts(&self, alloc: Global) -> Result<Vec<F>, AllocError>
        ensures holds { IfOk result (λ facts. (f : F) → Contains facts.items f ↔ Holds self.now f) }
        ensures order { IfOk result (λ facts. IsStrictlySortedBy F.cmp facts.items) }
    {
        held(alloc, &self.names, &self.closed.facts)
    }

    /// Why the fact holds, or `None` where it doesn't: the numbers of clauses, each after those whose heads its body
    /// has, the last one with the fact as its head. No two have the same head, and each but the last has one that a
    /// later one needs.
    ///
    /// Time grows with the facts that hold. Takes memory for a bit a fact and a number a step, and fails only where
    /// there is none.
    pub fn derivation(&self, alloc: Global, fact: &F) -> Result<Option<Vec<usize>>, AllocError>
        ensures holds { IfOk result (λ steps. IsTrue (is_some steps) ↔ Holds self.now fact.now) }
        ensures order { IfOk result (λ steps. IfSome steps (λ steps. IsDerivation self.now steps.items)) }
        ensures last { IfOk result (λ steps. IfSome steps (λ steps.
            EndsWith self.now steps.items fact.now)) }
        ensures needed { IfOk result (λ steps. IfSome steps (λ steps.
            AreNeeded self.now steps.items fact.now)) }
    {
        let Some(place) = held_at(&self.names, &self.hints, &self.closed, fact) else {
            return Ok(None);
        };
        Ok(Some(derivation(alloc, &self.numbered, &self.closed, place)?))
    }
}

// The place of the fact, where it is in what is closed.
fn held_at<F: Ord + Spread>(names: &[F], hints: &Hints, closed: &Closed, fact: &F) -> Option<usize>
    requires exact { IsExact F.cmp }
    requires order { IsStrictlySortedBy F.cmp names.now }
    requires count { length closed.now.facts ≡ length names.now }
    ensures { MatchOption result
        ((p : ℕ) → StandsAt names.now fact.now p → ¬ IsIn closed.now.facts p)
        (λ p. StandsAt names.now fact.now p × IsIn closed.now.facts p) }
{
    let place = find(names, hints, fact)?;
    closed.contains(place).then_some(place)
}
